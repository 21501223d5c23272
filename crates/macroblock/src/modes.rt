// The prediction modes, in the order of the Rust's enums, and their numbers: from 0 in that order. A byte that is no mode's
// number says nothing.
ghost use Rattle.std.specs.Prelude.{◌≡◌};
ghost use Rattle.macroblock.specs.Modes.{y_number, uv_number, b_number, y_answer, uv_answer, b_answer, y_mode_at, uv_mode_at, b_mode_at};

use crate::reply::Refusal;

// The luma mode of a macroblock (RFC 6386, 8.2 and 11.2).
#[derive(Clone, Copy, Debug, PartialEq, Eq)]
pub enum IntraYMode {
    Dc,
    V,
    H,
    Tm,
    B,
}

// The chroma mode of a macroblock (11.2).
#[derive(Clone, Copy, Debug, PartialEq, Eq)]
pub enum IntraUvMode {
    Dc,
    V,
    H,
    Tm,
}

// The mode of a 4x4 luma sub-block (11.2).
#[derive(Clone, Copy, Debug, PartialEq, Eq)]
pub enum IntraBmode {
    Dc,
    Tm,
    Ve,
    He,
    Ld,
    Rd,
    Vr,
    Vl,
    Hd,
    Hu,
}

// The modes of a macroblock, and whether its coefficients are skipped.
#[derive(Clone, Copy, Debug, PartialEq, Eq)]
pub struct MbModes {
    pub y: IntraYMode,
    pub uv: IntraUvMode,
    pub skip: bool,
}

impl From<IntraYMode> for u8 {
    ghost from_gives = { λ mode byte. byte ≡ y_number mode };

    fn from(mode: IntraYMode) -> u8 {
        match mode {
            IntraYMode::Dc => 0,
            IntraYMode::V => 1,
            IntraYMode::H => 2,
            IntraYMode::Tm => 3,
            IntraYMode::B => 4,
        }
    }
}

impl From<IntraUvMode> for u8 {
    ghost from_gives = { λ mode byte. byte ≡ uv_number mode };

    fn from(mode: IntraUvMode) -> u8 {
        match mode {
            IntraUvMode::Dc => 0,
            IntraUvMode::V => 1,
            IntraUvMode::H => 2,
            IntraUvMode::Tm => 3,
        }
    }
}

impl From<IntraBmode> for u8 {
    ghost from_gives = { λ mode byte. byte ≡ b_number mode };

    fn from(mode: IntraBmode) -> u8 {
        match mode {
            IntraBmode::Dc => 0,
            IntraBmode::Tm => 1,
            IntraBmode::Ve => 2,
            IntraBmode::He => 3,
            IntraBmode::Ld => 4,
            IntraBmode::Rd => 5,
            IntraBmode::Vr => 6,
            IntraBmode::Vl => 7,
            IntraBmode::Hd => 8,
            IntraBmode::Hu => 9,
        }
    }
}

impl TryFrom<u8> for IntraYMode {
    type Error = Refusal;

    ghost try_from_gives = { λ byte r. y_answer r ≡ y_mode_at byte };

    #[tactic(auto, unfolding(crate::specs::Modes::y_mode_at, crate::specs::Modes::mode_at))]
    fn try_from(byte: u8) -> Result<Self, Refusal> {
        match byte {
            0 => Ok(IntraYMode::Dc),
            1 => Ok(IntraYMode::V),
            2 => Ok(IntraYMode::H),
            3 => Ok(IntraYMode::Tm),
            4 => Ok(IntraYMode::B),
            5.. => Err(Refusal::UnknownByte),
        }
    }
}

impl TryFrom<u8> for IntraUvMode {
    type Error = Refusal;

    ghost try_from_gives = { λ byte r. uv_answer r ≡ uv_mode_at byte };

    #[tactic(auto, unfolding(crate::specs::Modes::uv_mode_at, crate::specs::Modes::mode_at))]
    fn try_from(byte: u8) -> Result<Self, Refusal> {
        match byte {
            0 => Ok(IntraUvMode::Dc),
            1 => Ok(IntraUvMode::V),
            2 => Ok(IntraUvMode::H),
            3 => Ok(IntraUvMode::Tm),
            4.. => Err(Refusal::UnknownByte),
        }
    }
}

impl TryFrom<u8> for IntraBmode {
    type Error = Refusal;

    ghost try_from_gives = { λ byte r. b_answer r ≡ b_mode_at byte };

    #[tactic(auto, unfolding(crate::specs::Modes::b_mode_at, crate::specs::Modes::mode_at))]
    fn try_from(byte: u8) -> Result<Self, Refusal> {
        match byte {
            0 => Ok(IntraBmode::Dc),
            1 => Ok(IntraBmode::Tm),
            2 => Ok(IntraBmode::Ve),
            3 => Ok(IntraBmode::He),
            4 => Ok(IntraBmode::Ld),
            5 => Ok(IntraBmode::Rd),
            6 => Ok(IntraBmode::Vr),
            7 => Ok(IntraBmode::Vl),
            8 => Ok(IntraBmode::Hd),
            9 => Ok(IntraBmode::Hu),
            10.. => Err(Refusal::UnknownByte),
        }
    }
}
