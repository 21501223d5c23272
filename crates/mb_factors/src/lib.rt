// RFC 6386, 14.1 and 20.4: the six factors of a macroblock, from the base index of 9.6 and its five deltas.
//
//           DC                                  AC
//     Y1    the DC table's                      the AC table's, at the base index alone
//     Y2    twice the DC table's                155/100 of the AC table's, rounded down, at least 8
//     UV    the DC table's, at most 132         the AC table's
//
// Each sum of the base index and a delta is held within 0 and 127 when its table is read, and not before.
#![tactic(auto)]

ghost use Rattle.std.specs.Prelude.{◌≡◌, ◌*◌, ◌/◌, ◌≤◌, min, max, pos};
ghost use Rattle.mb_factors.specs.Entries.{Unsigned, entry_of};
ghost use Rattle.mb_factors.specs.Factors.{factors_at, mb_factors, told};

use macroblock::Refusal;
use quantiser::with_delta;

// The six factors.
#[derive(Clone, Copy, Debug, PartialEq, Eq)]
pub struct MbDequantFactors {
    pub y1_dc: i16,
    pub y1_ac: i16,
    pub y2_dc: i16,
    pub y2_ac: i16,
    pub uv_dc: i16,
    pub uv_ac: i16,
}

impl MbDequantFactors {
    // The factors of a base index and five deltas. Refused (5) is a sum outside signed 32 bits.
    pub fn from_base_and_deltas(
        yac_qi: i32,
        ydc: i32,
        y2dc: i32,
        y2ac: i32,
        uvdc: i32,
        uvac: i32,
    ) -> Result<Self, Refusal>
        ensures { told result ≡ mb_factors yac_qi ydc y2dc y2ac uvdc uvac }
    {
        let y1_dc = with_delta(yac_qi, ydc)?;
        let y2_dc = with_delta(yac_qi, y2dc)?;
        let y2_ac = with_delta(yac_qi, y2ac)?;
        let uv_dc = with_delta(yac_qi, uvdc)?;
        let uv_ac = with_delta(yac_qi, uvac)?;
        Ok(Self::at(y1_dc, yac_qi, y2_dc, y2_ac, uv_dc, uv_ac))
    }

    // The factors of six indices.
    fn at(y1_dc: i32, y1_ac: i32, y2_dc: i32, y2_ac: i32, uv_dc: i32, uv_ac: i32) -> Self
        ensures { result ≡ factors_at y1_dc y1_ac y2_dc y2_ac uv_dc uv_ac }
    {
        let dc = &quantiser::DC_QLOOKUP;
        let ac = &quantiser::AC_QLOOKUP;
        Self {
            y1_dc: plain(entry(dc, y1_dc)),
            y1_ac: plain(entry(ac, y1_ac)),
            y2_dc: twice(entry(dc, y2_dc)),
            y2_ac: at_least_eight(entry(ac, y2_ac)),
            uv_dc: capped(entry(dc, uv_dc)),
            uv_ac: plain(entry(ac, uv_ac)),
        }
    }
}

// An entry of a table, as a number that is never negative.
fn entry(table: &[i16; 128], index: i32) -> u32
    requires { Unsigned table.now }
    ensures { result ≡ entry_of table.now index }
{
    let i = quantiser::clamp_qindex(index);
    table[i] as u32
}

// Y1, and chroma AC.
fn plain(entry: u32) -> i16
    requires { entry ≤ 284 }
    ensures { result ≡ pos entry }
{
    entry as i16
}

// Y2 DC.
fn twice(entry: u32) -> i16
    requires { entry ≤ 157 }
    ensures { result ≡ pos (entry * 2) }
{
    (entry * 2) as i16
}

// Y2 AC: 155/100, rounded down, and at least 8.
fn at_least_eight(entry: u32) -> i16
    requires { entry ≤ 284 }
    ensures { result ≡ pos (max (entry * 155 / 100) 8) }
{
    (entry * 155 / 100).max(8) as i16
}

// Chroma DC.
fn capped(entry: u32) -> i16
    ensures { result ≡ pos (min entry 132) }
{
    entry.min(132) as i16
}
