// Kinds 41 to 44: the inverse wavelet, and the colours of a pixel. Each function is proved safe and to end.
#![tactic(auto)]

use replay_input::kind::Kind;

pub mod colours;
pub mod wavelet;

// Whether the port agrees with a case of these kinds.
pub fn agrees(kind: Kind, c: &[u8]) -> bool {
    match kind {
        Kind::DwtDecode => wavelet::decode_agrees(c),
        Kind::DwtImpulse => wavelet::impulse_agrees(c),
        Kind::YcbcrToRgb => colours::pixel_agrees(c),
        Kind::YcbcrRow => colours::row_agrees(c),
        _ => false,
    }
}
