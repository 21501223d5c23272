// The limits of the loop filter, from a level and a sharpness (RFC 6386, section 15).
#![tactic(auto)]

ghost use Rattle.std.specs.Prelude.{◌≡◌, ◌+◌, ◌*◌, ◌/◌, ◌-◌, ◌≤◌, min, max, ltb};
ghost use Rattle.lists.specs.Lists.{pick};
ghost use Rattle.rfc6386.specs.LoopFilter.{interior_of, hev_of, limits_of, rule_of};

use macroblock::filter::{Limits, Rule};

// Half of the level, or a quarter of it in the sharper half of the scale.
fn part_of(level: u8, sharp: u8) -> u8
    ensures { result ≡ level / pick (ltb 4 sharp) 4 2 }
{
    if 4 < sharp { level / 4 } else { level / 2 }
}

// Kept: a level at most 63 and a sharpness at most 7 stand in three contracts; a type for the two would be opened at once: no plainer.
#[tactic(auto, unfolding(rfc6386::specs::LoopFilter::interior_of))]
fn interior_limit(level: u8, sharp: u8) -> u8
    requires { sharp ≤ 7 }
    ensures { result ≡ interior_of level sharp }
{
    if sharp == 0 {
        return level.max(1);
    }
    part_of(level, sharp).min(9 - sharp).max(1)
}

// High edge variance in a key frame.
#[tactic(auto, unfolding(rfc6386::specs::LoopFilter::hev_of))]
fn hev_limit(level: u8) -> u8
    ensures { result ≡ hev_of level }
{
    match level {
        0..15 => 0,
        15..40 => 1,
        _ => 2,
    }
}

// `base` is the level, and 2 more at a macroblock's own edge.
#[tactic(auto, unfolding(rfc6386::specs::LoopFilter::limits_of))]
fn limits(base: u8, level: u8, sharp: u8) -> Limits
    requires { (base ≤ 65) × (level ≤ 63) × (sharp ≤ 7) }
    ensures { result ≡ limits_of base level sharp }
{
    let interior = interior_limit(level, sharp);
    Limits {
        edge: base * 2 + interior,
        interior,
        hev: hev_limit(level),
    }
}

#[tactic(auto, unfolding(rfc6386::specs::LoopFilter::rule_of))]
fn rule(simple: bool, level: u8, sharp: u8) -> Rule
    requires { (level ≤ 63) × (sharp ≤ 7) }
    ensures { result ≡ rule_of simple level sharp }
{
    Rule {
        outer: limits(level + 2, level, sharp),
        inner: limits(level, level, sharp),
        simple,
    }
}

// The limits of a level of 0 to 63 and a sharpness of 0 to 7; a level above counts as 63, a sharpness above as 7.
pub fn rule_of(simple: bool, level: u8, sharp: u8) -> Rule
    ensures { result ≡ rule_of simple (min level 63) (min sharp 7) }
{
    rule(simple, level.min(63), sharp.min(7))
}
