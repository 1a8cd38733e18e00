// Whether the port agrees with a case, by its kind. oracle/README.md lists the kinds.
use crate::{cuts, ladder, tiles};
use replay_input::kind::Kind;
use replay_kinds::{leaves, srl_decode, srl_encode, srl_exhaustive};
use replay_passes::upgrade;

// Whether the port's answer to a case is the recorded one. What is called for a kind with large arrays is not inlined: a call pays at its start for
// the arrays of all that is inlined into it.
fn same(kind: Kind, c: &[u8]) -> bool {
    match kind {
        Kind::SrlDecode => srl_decode::agrees(c),
        Kind::SrlEncode => srl_encode::agrees(c),
        Kind::SrlExhaustive => srl_exhaustive::agrees(c),
        Kind::DecodeUpgrade => upgrade::decode_agrees(c),
        Kind::EncodeUpgrade => upgrade::encode_agrees(false, c),
        Kind::EncodeSymmetric => upgrade::encode_agrees(true, c),
        Kind::Dequantize => upgrade::dequantize_agrees(c),
        Kind::TileLoad => tiles::load_agrees(c),
        Kind::UpgradeLadder => ladder::agrees(c),
        Kind::DwtDecode | Kind::DwtImpulse | Kind::YcbcrToRgb | Kind::YcbcrRow => {
            replay_pixels::agrees(kind, c)
        }
        Kind::TilePixels => tiles::pixels_agrees(c),
        Kind::CutEverywhere => cuts::agrees(c),
        _ => leaves::agrees(kind, c),
    }
}

// A case of another kind, after the kind's number, with a wrong answer: the port must not agree with it.
fn wrong_answer(c: &[u8]) -> bool {
    let Some((kind, case)) = of_kind(c) else {
        return false;
    };
    match kind.case_size() {
        Some(size) if size <= case.len() => !same(kind, &case[..size]),
        _ => false,
    }
}

// The same of a kind whose cases differ in size.
fn wrong_case(c: &[u8]) -> bool {
    let Some((kind, case)) = of_kind(c) else {
        return false;
    };
    kind != Kind::WrongCase && kind.case_size().is_none() && !same(kind, case)
}

// The kind whose number stands first, and the bytes behind it.
fn of_kind(c: &[u8]) -> Option<(Kind, &[u8])> {
    let (number, case) = c.split_first()?;
    let kind = Kind::try_from(*number).ok()?;
    Some((kind, case))
}

// Whether the port agrees with a case.
pub fn agrees(kind: Kind, c: &[u8]) -> bool {
    match kind {
        Kind::WrongAnswer => wrong_answer(c),
        Kind::WrongCase => wrong_case(c),
        _ => same(kind, c),
    }
}
