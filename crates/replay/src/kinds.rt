// The kinds of records.
ghost use Rattle.std.specs.Prelude.{◌≤◌};

use crate::{lengths, macroblocks, neighbours, predictions, transforms};

#[derive(Clone, Copy, Debug, PartialEq, Eq)]
pub enum Kind {
    Y1Factors,
    DequantBlock,
    InverseWht,
    InverseWhtDcOnly,
    InverseDct,
    AddIntoBlock,
    AddResidue,
    PredictY16x16,
    PredictUv8x8,
    PredictB4x4,
    AllCoefficients,
    Gather,
    Planes,
    FewCoefficients,
    AddIntoPlane,
    WrongLengths,
    RightPixels,
}

// A number that is no kind's.
#[derive(Clone, Copy, Debug, PartialEq, Eq)]
pub struct UnknownKind;

impl TryFrom<u8> for Kind {
    type Error = UnknownKind;

    fn try_from(number: u8) -> Result<Self, UnknownKind> {
        match number {
            1 => Ok(Kind::Y1Factors),
            2 => Ok(Kind::DequantBlock),
            3 => Ok(Kind::InverseWht),
            4 => Ok(Kind::InverseWhtDcOnly),
            5 => Ok(Kind::InverseDct),
            6 => Ok(Kind::AddIntoBlock),
            7 => Ok(Kind::AddResidue),
            8 => Ok(Kind::PredictY16x16),
            9 => Ok(Kind::PredictUv8x8),
            10 => Ok(Kind::PredictB4x4),
            11 => Ok(Kind::AllCoefficients),
            12 => Ok(Kind::Gather),
            13 => Ok(Kind::Planes),
            14 => Ok(Kind::FewCoefficients),
            15 => Ok(Kind::AddIntoPlane),
            16 => Ok(Kind::WrongLengths),
            17 => Ok(Kind::RightPixels),
            _ => Err(UnknownKind),
        }
    }
}

impl Kind {
    // Input and expected bytes.
    pub fn length(self) -> usize
        ensures { result ≤ 2304 }
    {
        match self {
            Kind::Y1Factors => 13,
            Kind::DequantBlock => 69,
            Kind::InverseWht => 65,
            Kind::InverseWhtDcOnly => 35,
            Kind::InverseDct => 65,
            Kind::AddIntoBlock => 187,
            Kind::AddResidue => 100,
            Kind::PredictY16x16 => 293,
            Kind::PredictUv8x8 => 85,
            Kind::PredictB4x4 => 31,
            Kind::AllCoefficients => 1286,
            Kind::Gather => 124,
            Kind::Planes => 2304,
            Kind::FewCoefficients => 552,
            Kind::AddIntoPlane => 571,
            Kind::WrongLengths => 12,
            Kind::RightPixels => 31,
        }
    }

    // Whether the library answers a record's input by its expected bytes. Planes are kept for the records that follow.
    pub fn agrees(self, record: &[u8; 4096], planes: &mut [u8; 4096]) -> bool {
        match self {
            Kind::Y1Factors => transforms::y1_factors(record),
            Kind::DequantBlock => transforms::dequant_block(record),
            Kind::InverseWht => transforms::inverse_wht(record),
            Kind::InverseWhtDcOnly => transforms::inverse_wht_dc_only(record),
            Kind::InverseDct => transforms::inverse_dct(record),
            Kind::AddIntoBlock => transforms::add_into(record, 64),
            Kind::AddResidue => transforms::add_residue(record),
            Kind::PredictY16x16 => predictions::predict_y16x16(record),
            Kind::PredictUv8x8 => predictions::predict_uv8x8(record),
            Kind::PredictB4x4 => predictions::predict_b4x4(record),
            Kind::AllCoefficients => macroblocks::all_coefficients(record),
            Kind::Gather => neighbours::gather(record, planes),
            Kind::Planes => {
                *planes = *record;
                true
            }
            Kind::FewCoefficients => macroblocks::few_coefficients(record),
            Kind::AddIntoPlane => transforms::add_into(record, 256),
            Kind::WrongLengths => lengths::refused(record),
            Kind::RightPixels => neighbours::right_pixels(record, planes),
        }
    }
}
