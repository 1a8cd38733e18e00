// The kinds of cases. oracle/README.md lists them.
ghost use Rattle.std.specs.Prelude.{⊤, MatchOption, ◌<◌};

use std::fmt;

// In the order of their numbers.
#[derive(Clone, Copy, Debug, PartialEq, Eq)]
pub enum Kind {
    ClampI16,
    ClampU8,
    T,
    RoundShiftRight,
    ShiftLeftClamp,
    ShiftRightFloor,
    AddScaled,
    SubScaled,
    SubClamp,
    Magnitude,
    WithSign,
    SignOf,
    Halves,
    Widen,
    SignUse,
    Band,
    Ll3Offset,
    BandOfPlace,
    WrongAnswer,
    SrlDecode,
    SrlEncode,
    SrlExhaustive,
    WrongCase,
    DecodeUpgrade,
    EncodeUpgrade,
    Dequantize,
    TileLoad,
    UpgradeLadder,
    DwtDecode,
    DwtImpulse,
    YcbcrToRgb,
    YcbcrRow,
    TilePixels,
    CutEverywhere,
    EncodeSymmetric,
}

// A number that no kind has.
#[derive(Clone, Copy, Debug, PartialEq, Eq)]
pub struct UnknownKind(pub u8);

impl TryFrom<u8> for Kind {
    type Error = UnknownKind;

    fn try_from(number: u8) -> Result<Self, UnknownKind> {
        Ok(match number {
            1 => Kind::ClampI16,
            2 => Kind::ClampU8,
            3 => Kind::T,
            4 => Kind::RoundShiftRight,
            5 => Kind::ShiftLeftClamp,
            6 => Kind::ShiftRightFloor,
            7 => Kind::AddScaled,
            8 => Kind::SubScaled,
            9 => Kind::SubClamp,
            10 => Kind::Magnitude,
            11 => Kind::WithSign,
            12 => Kind::SignOf,
            13 => Kind::Halves,
            14 => Kind::Widen,
            15 => Kind::SignUse,
            20 => Kind::Band,
            21 => Kind::Ll3Offset,
            22 => Kind::BandOfPlace,
            31 => Kind::WrongAnswer,
            32 => Kind::SrlDecode,
            33 => Kind::SrlEncode,
            34 => Kind::SrlExhaustive,
            35 => Kind::WrongCase,
            36 => Kind::DecodeUpgrade,
            37 => Kind::EncodeUpgrade,
            38 => Kind::Dequantize,
            39 => Kind::TileLoad,
            40 => Kind::UpgradeLadder,
            41 => Kind::DwtDecode,
            42 => Kind::DwtImpulse,
            43 => Kind::YcbcrToRgb,
            44 => Kind::YcbcrRow,
            45 => Kind::TilePixels,
            46 => Kind::CutEverywhere,
            47 => Kind::EncodeSymmetric,
            _ => return Err(UnknownKind(number)),
        })
    }
}

impl Kind {
    // The size of a case, if each has the same; else a record is one case, whatever its size.
    pub fn case_size(self) -> Option<usize>
        ensures { MatchOption result ⊤ (λ n. 0 < n) }
    {
        match self {
            Kind::SignUse => Some(2),
            Kind::SignOf | Kind::Ll3Offset => Some(3),
            Kind::Magnitude => Some(4),
            Kind::RoundShiftRight | Kind::ShiftLeftClamp | Kind::ShiftRightFloor | Kind::WithSign =>
                Some(5),
            Kind::ClampI16 | Kind::T | Kind::SubClamp => Some(6),
            Kind::AddScaled | Kind::SubScaled => Some(7),
            Kind::ClampU8 | Kind::YcbcrToRgb => Some(9),
            Kind::Band | Kind::BandOfPlace => Some(10),
            Kind::Halves | Kind::SrlExhaustive | Kind::DwtImpulse | Kind::YcbcrRow => Some(12),
            Kind::Widen => Some(14),
            Kind::CutEverywhere => Some(19),
            Kind::DwtDecode => Some(22),
            Kind::WrongAnswer => Some(24),
            Kind::SrlDecode
            | Kind::SrlEncode
            | Kind::WrongCase
            | Kind::DecodeUpgrade
            | Kind::EncodeUpgrade
            | Kind::Dequantize
            | Kind::TileLoad
            | Kind::UpgradeLadder
            | Kind::TilePixels
            | Kind::EncodeSymmetric => None,
        }
    }
}

impl fmt::Display for Kind {
    fn fmt<W: fmt::Write>(&self, f: &mut fmt::Formatter<W>) -> fmt::Result {
        f.write_str(match self {
            Kind::ClampI16 => "clamp_i16",
            Kind::ClampU8 => "clamp_u8",
            Kind::T => "t",
            Kind::RoundShiftRight => "round_shift_right",
            Kind::ShiftLeftClamp => "shift_left_clamp",
            Kind::ShiftRightFloor => "shift_right_floor",
            Kind::AddScaled => "add_scaled",
            Kind::SubScaled => "sub_scaled",
            Kind::SubClamp => "sub_clamp",
            Kind::Magnitude => "magnitude",
            Kind::WithSign => "with_sign",
            Kind::SignOf => "sign_of",
            Kind::Halves => "halves",
            Kind::Widen => "widen",
            Kind::SignUse => "sign_use",
            Kind::Band => "band",
            Kind::Ll3Offset => "ll3_offset",
            Kind::BandOfPlace => "band_of_place",
            Kind::WrongAnswer => "wrong_answer",
            Kind::SrlDecode => "srl_decode",
            Kind::SrlEncode => "srl_encode",
            Kind::SrlExhaustive => "srl_exhaustive",
            Kind::WrongCase => "wrong_case",
            Kind::DecodeUpgrade => "decode_upgrade",
            Kind::EncodeUpgrade => "encode_upgrade",
            Kind::Dequantize => "dequantize",
            Kind::TileLoad => "tile_load",
            Kind::UpgradeLadder => "upgrade_ladder",
            Kind::DwtDecode => "dwt_decode",
            Kind::DwtImpulse => "dwt_impulse",
            Kind::YcbcrToRgb => "ycbcr_to_rgb",
            Kind::YcbcrRow => "ycbcr_row",
            Kind::TilePixels => "tile_pixels",
            Kind::CutEverywhere => "cut_everywhere",
            Kind::EncodeSymmetric => "encode_symmetric",
        })
    }
}
