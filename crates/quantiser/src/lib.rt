// RFC 6386, 9.6 and 14.1: the factors of a quantiser index, and dequantising. The two tables stand in tables.rt.
#![tactic(auto)]

ghost use Rattle.std.specs.Prelude.{◌≡◌, pos, get_or};
ghost use Rattle.rfc6386.specs.Quantiser.{clamp_index, dequant, dequantised};
ghost use Rattle.quantiser.specs.Factors.{signed32, with_delta, y1_factors, told};

mod tables;

use macroblock::Refusal;
use std::array;
pub use tables::{AC_QLOOKUP, DC_QLOOKUP, QINDEX_RANGE};

const LAST_INDEX: i32 = QINDEX_RANGE as i32 - 1;

// The index held within the tables, 0 to 127 (9.6).
pub fn clamp_qindex(q: i32) -> usize
    ensures { result ≡ clamp_index q }
{
    q.clamp(0, LAST_INDEX) as usize
}

// The entry of a table at an index held within it.
fn factor(table: &[i16; 128], q: i32) -> i16
    ensures { result ≡ get_or table.now (clamp_index q) (pos 0) }
{
    let i = clamp_qindex(q);
    table[i]
}

// Whether the number is within signed 32 bits.
pub fn signed32(z: i64) -> bool
    ensures { result ≡ signed32 z }
{
    i32::try_from(z).is_ok()
}

// The index with its delta, as given: refused (5) where the sum is outside signed 32 bits. It is made in 64 bits, where
// it cannot wrap.
pub fn with_delta(index: i32, delta: i32) -> Result<i32, Refusal>
    ensures { result ≡ with_delta index delta }
{
    let sum = i64::from(index) + i64::from(delta);
    if signed32(sum) {
        Ok(sum as i32)
    } else {
        Err(Refusal::IndexSum)
    }
}

// The factors of a luma block that has its own DC (14.1).
#[derive(Clone, Copy, Debug, PartialEq, Eq)]
pub struct Y1DequantFactors {
    pub dc: i16,
    pub ac: i16,
}

impl Y1DequantFactors {
    // DC from the DC table at yac_qi + ydc_delta, AC from the AC table at yac_qi (14.1). Refused (5) is a sum outside
    // signed 32 bits.
    pub fn from_indices(yac_qi: i32, ydc_delta: i32) -> Result<Self, Refusal>
        ensures { told result ≡ y1_factors yac_qi ydc_delta }
    {
        let dc_qi = with_delta(yac_qi, ydc_delta)?;
        Ok(Self {
            dc: factor(&DC_QLOOKUP, dc_qi),
            ac: factor(&AC_QLOOKUP, yac_qi),
        })
    }
}

// A coefficient by its factor, kept in 16 bits.
pub fn dequant(x: i16, factor: i16) -> i16
    ensures { result ≡ dequant x factor }
{
    whole::narrow(whole::widen(x) * whole::widen(factor))
}

// A block by its factors: its first coefficient by the DC factor, the other fifteen by the AC factor (14.1).
pub fn dequant_block(coeffs: [i16; 16], dc_factor: i16, ac_factor: i16) -> [i16; 16]
    ensures { result ≡ dequantised coeffs dc_factor ac_factor }
{
    let mut b = array::from_fn(|k| dequant(coeffs[k], ac_factor));
    b[0] = dequant(coeffs[0], dc_factor);
    b
}
