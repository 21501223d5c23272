// The loop filter of RFC 6386, section 15, over a finished still. Prediction uses unfiltered pixels: the filter starts when the still is done.
//
// A macroblock's edges in their order, in Y (in U and V one inner edge a direction): 1 and 5 only where a macroblock lies beyond, 2 to 4 and 6 to 8 only
// where its inner edges are filtered.
//
//          1    2    3    4
//        5 +----------------
//          |    |    |    |
//        6 |----+----+----+-
//          |    |    |    |
//        7 |----+----+----+-
//          |    |    |    |
//        8 |----+----+----+-
//          |    |    |    |
#![tactic(auto)]

ghost use Rattle.std.specs.Prelude.{◌≡◌, true, ◌*◌, ◌≤◌, ◌<◌, ◌↔◌, IsTrue, ltb, length};
ghost use Rattle.std.specs.List.{All};
ghost use Rattle.lists.specs.Lists.{pick};
ghost use Rattle.rfc6386.specs.LoopFilter.{sides, corner, mb_of, luma_row, chroma_row, luma_of, chroma_of};
ghost use Rattle.macroblock.specs.Reply.{reply_of};
ghost use Rattle.edge_lines.specs.Sides.{seated};
ghost use Rattle.loop_filter.specs.Picture.{Ready, level_in, HasLevel, HasLevels};
ghost use Rattle.loop_filter.specs.Answers.{refusal_of, filter_answer, levels_answer};

use edge_lines::Direction;
use macroblock::Refusal;
use macroblock::filter::Rule;

// The upright edges of macroblock c of row r in Y from left to right, then the level ones from top to bottom.
fn luma_edges(y: &mut [u8], cols: usize, r: usize, c: usize, inner: bool, rule: Rule)
    requires { seated 16 (length y.old) cols r c ≡ true }
    ensures { y.new ≡ sides rule 16 (16 * cols) (corner 16 cols r c) (ltb 0 c) (ltb 0 r) inner y.old }
{
    edge_lines::filter_luma(y, Direction::Upright, cols, r, c, inner, rule);
    edge_lines::filter_luma(y, Direction::Level, cols, r, c, inner, rule);
}

// The same in U and V.
fn chroma_edges(
    u: &mut [u8],
    v: &mut [u8],
    cols: usize,
    r: usize,
    c: usize,
    inner: bool,
    rule: Rule,
)
    requires { (seated 8 (length u.old) cols r c ≡ true) × (seated 8 (length v.old) cols r c ≡ true) }
    ensures { (u.new ≡ sides rule 8 (8 * cols) (corner 8 cols r c) (ltb 0 c) (ltb 0 r) inner u.old)
        × (v.new ≡ sides rule 8 (8 * cols) (corner 8 cols r c) (ltb 0 c) (ltb 0 r) inner v.old) }
{
    edge_lines::filter_chroma(u, v, Direction::Upright, cols, r, c, inner, rule);
    edge_lines::filter_chroma(u, v, Direction::Level, cols, r, c, inner, rule);
}

// One level for the picture, or a level for each macroblock.
// Kept: an enum, since a closure in its place makes two copies of all below it and is slower: by 285 instructions a macroblock in the normal filter.
#[derive(Clone, Copy)]
enum Levels<'a> {
    One(u8),
    Each(&'a [u8]),
}

impl<'a> Levels<'a> {
    // The level of macroblock k.
    fn at(self, k: usize) -> u8
        requires { HasLevel self k }
        ensures { result ≡ level_in self.entry k }
    {
        match self {
            Levels::One(level) => level,
            Levels::Each(levels) => levels[k],
        }
    }
}

// What the macroblocks of a picture share: its size in macroblocks, whether it is the simple filter, and the sharpness.
#[derive(Clone, Copy, Debug, PartialEq, Eq)]
struct Picture {
    cols: usize,
    rows: usize,
    simple: bool,
    sharpness: u8,
}

impl Picture {
    // Macroblock c of row r in the three planes. Level 0 filters nothing, and the simple filter leaves U and V alone.
    fn filter_macroblock(
        self,
        y: &mut [u8],
        u: &mut [u8],
        v: &mut [u8],
        r: usize,
        c: usize,
        level: u8,
        inner: bool,
    )
        requires { (level ≤ 63) × (self.sharpness ≤ 7) × (seated 16 (length y.old) self.cols r c ≡ true)
            × (seated 8 (length u.old) self.cols r c ≡ true) × (seated 8 (length v.old) self.cols r c ≡ true) }
        ensures { (y.new ≡ mb_of self.simple level self.sharpness inner 16 self.cols r c y.old)
            × (u.new ≡ pick self.simple u.old (mb_of self.simple level self.sharpness inner 8 self.cols r c u.old))
            × (v.new ≡ pick self.simple v.old (mb_of self.simple level self.sharpness inner 8 self.cols r c v.old)) }
    {
        if level == 0 {
            return;
        }
        let rule = filter_limits::rule_of(self.simple, level, self.sharpness);
        luma_edges(y, self.cols, r, c, inner, rule);
        let luma_only = self.simple;
        if luma_only {
            return;
        }
        chroma_edges(u, v, self.cols, r, c, inner, rule);
    }

    // Row r.
    fn filter_row(
        self,
        y: &mut [u8],
        u: &mut [u8],
        v: &mut [u8],
        r: usize,
        levels: Levels,
        inner: &[u8],
    )
        requires row { r < self.rows }
        requires levels { HasLevels levels (self.cols * self.rows) }
        requires ready { Ready self.cols self.rows self.sharpness (level_in levels) inner.now y.old u.old v.old }
        ensures { (y.new ≡ luma_row self.simple self.sharpness (level_in levels.entry) inner.now self.cols r y.old)
            × (u.new ≡ chroma_row self.simple self.sharpness (level_in levels.entry) inner.now self.cols r u.old)
            × (v.new ≡ chroma_row self.simple self.sharpness (level_in levels.entry) inner.now self.cols r v.old) }
    {
        // Kept: counted, since c is the macroblock's place in three planes and not an index of one slice.
        for c in 0..self.cols {
            let k = r * self.cols + c;
            let level = levels.at(k);
            let i = inner[k];
            self.filter_macroblock(y, u, v, r, c, level, 0 < i);
        }
    }

    fn filter(self, y: &mut [u8], u: &mut [u8], v: &mut [u8], levels: Levels, inner: &[u8])
        requires levels { HasLevels levels (self.cols * self.rows) }
        requires ready { Ready self.cols self.rows self.sharpness (level_in levels) inner.now y.old u.old v.old }
        ensures { (y.new ≡ luma_of self.simple self.sharpness (level_in levels.entry) inner.now self.cols self.rows y.old)
            × (u.new ≡ chroma_of self.simple self.sharpness (level_in levels.entry) inner.now self.cols self.rows u.old)
            × (v.new ≡ chroma_of self.simple self.sharpness (level_in levels.entry) inner.now self.cols self.rows v.old) }
    {
        // Kept: no plainer: r is the row that is filtered, and indexes nothing here.
        for r in 0..self.rows {
            self.filter_row(y, u, v, r, levels, inner);
        }
    }
}

// Whether each level is at most 63.
// Kept: a fold by `&` has no branch, so that LLVM makes vectors of it: under 1 instruction a level; `all`, which may stop early, takes 6.
fn levels_ok(levels: &[u8]) -> bool
    ensures { IsTrue result ↔ All (λ m. m ≤ 63) levels.now }
{
    levels.iter().fold(true, |low, &level| low & (level <= 63))
}

// A picture refused by its size, the lengths of its slices, whether its levels are at most 63, its sharpness or its kind.
#[tactic(auto, unfolding(crate::specs::Answers::refusal_of))]
fn check(
    cols: usize,
    rows: usize,
    y: usize,
    u: usize,
    v: usize,
    inner: usize,
    levels: usize,
    low: bool,
    sharp: u8,
    kind: u8,
) -> Result<(), Refusal>
    ensures { reply_of result ≡ refusal_of cols rows y u v inner levels low sharp kind }
{
    if !picture_limits::place_ok(cols, rows, 0, 0) {
        return Err(Refusal::OutsidePicture);
    }
    if !picture_limits::sizes_ok(y, u, v, cols, rows) {
        return Err(Refusal::WrongLength);
    }
    let n = cols * rows;
    if inner != n || levels != n {
        return Err(Refusal::WrongLength);
    }
    if !low || 7 < sharp {
        return Err(Refusal::OutsideLevels);
    }
    if 1 < kind {
        return Err(Refusal::UnknownByte);
    }
    Ok(())
}

// Filters the planes of a finished still in place, with one level for the picture: `kind` 0 is the normal filter, 1 the simple one; `inner` has a byte a
// macroblock, 0 where its inner edges are left alone. Refused: a side that is not 1 to 1,024, then a slice of another length, then a level
// above 63 or a sharpness above 7, then another kind; the planes then stay as found.
pub fn filter(
    cols: usize,
    rows: usize,
    kind: u8,
    level: u8,
    sharpness: u8,
    inner: &[u8],
    y: &mut [u8],
    u: &mut [u8],
    v: &mut [u8],
) -> Result<(), Refusal>
    ensures { (reply_of result, y.new, u.new, v.new)
        ≡ filter_answer cols rows kind level sharpness inner.now y.old u.old v.old }
{
    check(
        cols,
        rows,
        y.len(),
        u.len(),
        v.len(),
        inner.len(),
        inner.len(),
        level <= 63,
        sharpness,
        kind,
    )?;
    let picture = Picture {
        cols,
        rows,
        simple: kind == 1,
        sharpness,
    };
    picture.filter(y, u, v, Levels::One(level), inner);
    Ok(())
}

// The same with a level for each macroblock; level 0 leaves it as it is.
pub fn filter_levels(
    cols: usize,
    rows: usize,
    kind: u8,
    sharpness: u8,
    levels: &[u8],
    inner: &[u8],
    y: &mut [u8],
    u: &mut [u8],
    v: &mut [u8],
) -> Result<(), Refusal>
    ensures { (reply_of result, y.new, u.new, v.new)
        ≡ levels_answer cols rows kind sharpness levels.now inner.now y.old u.old v.old }
{
    check(
        cols,
        rows,
        y.len(),
        u.len(),
        v.len(),
        inner.len(),
        levels.len(),
        levels_ok(levels),
        sharpness,
        kind,
    )?;
    let picture = Picture {
        cols,
        rows,
        simple: kind == 1,
        sharpness,
    };
    picture.filter(y, u, v, Levels::Each(levels), inner);
    Ok(())
}
