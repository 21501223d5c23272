// RFC 6386, section 14: dequantising, the inverse transforms and the residue sum, by their public names.
//
//      14.1, 9.6   quantiser   the two tables, Y1 factors, dequantising
//      14.3        wht         the inverse WHT of the Y2 block
//      14.4        dct         the inverse DCT of a 4x4 block
//      14.5        residue     prediction plus residue, in a block, in a slice and in a block of a plane; clipped sums counted
#![tactic(auto)]

pub use dct::inverse_dct_4x4;
pub use quantiser::{
    AC_QLOOKUP, DC_QLOOKUP, QINDEX_RANGE, Y1DequantFactors, clamp_qindex, dequant_block, with_delta,
};
pub use residue::{Summed, add_residue, add_residue_4x4, clamp255, inverse_dct_4x4_add_into};
pub use wht::{inverse_wht_4x4, inverse_wht_4x4_dc_only};
