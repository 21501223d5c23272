// Data of the loop filter (RFC 6386, section 15).
ghost use Rattle.std.specs.Prelude.{◌≡◌};
ghost use Rattle.lists.specs.Lists.{pick};

// The eight pixels across an edge: P3 P2 P1 P0 | Q0 Q1 Q2 Q3.
// Kept: fields and no array, since they are the RFC's names, by which the definitions of `rfc6386` read them.
#[derive(Clone, Copy)]
pub struct Across {
    pub p3: u8,
    pub p2: u8,
    pub p1: u8,
    pub p0: u8,
    pub q0: u8,
    pub q1: u8,
    pub q2: u8,
    pub q3: u8,
}

// What a step across the edge, a step beside it, and high edge variance are measured by.
#[derive(Clone, Copy)]
pub struct Limits {
    pub edge: u8,
    pub interior: u8,
    pub hev: u8,
}

// The simple filter; the normal one at a macroblock's own edge; the normal one at an inner edge.
#[derive(Clone, Copy, Debug, PartialEq, Eq)]
pub enum Kind {
    Simple,
    Outer,
    Inner,
}

// The limits at a macroblock's own edges and at its inner ones, and whether it is the simple filter.
#[derive(Clone, Copy)]
pub struct Rule {
    pub outer: Limits,
    pub inner: Limits,
    pub simple: bool,
}

impl Rule {
    // Kept: two kinds, and no plainer as one function of both.
    // The filter at a macroblock's own edges.
    pub fn outer_kind(self) -> Kind
        ensures { result ≡ pick self.simple Kind.Simple Kind.Outer }
    {
        if self.simple {
            Kind::Simple
        } else {
            Kind::Outer
        }
    }

    // The filter at its inner edges.
    pub fn inner_kind(self) -> Kind
        ensures { result ≡ pick self.simple Kind.Simple Kind.Inner }
    {
        if self.simple {
            Kind::Simple
        } else {
            Kind::Inner
        }
    }
}
