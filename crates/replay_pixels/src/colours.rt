// Kinds 43 and 44: the colours of a pixel, one by one and by rows.
use replay_input::{digests, number};

// Kind 43: whether the port agrees with a case.
pub fn pixel_agrees(c: &[u8]) -> bool {
    let y = number::i16_at(c, 0);
    let cb = number::i16_at(c, 2);
    let cr = number::i16_at(c, 4);
    color::ycbcr_to_rgb(y, cb, cr) == number::bytes_at(c, 6)
}

// The colours of a pixel as one number.
fn pixel(y: i16, cb: i16, cr: i16) -> u64 {
    let [red, green, blue] = color::ycbcr_to_rgb(y, cb, cr);
    u64::from(u32::from_le_bytes([red, green, blue, 0]))
}

// The digest of a row: every y, in the order of its bits.
fn row(cb: i16, cr: i16) -> u64 {
    (0..=u16::MAX).fold(0, |d, y| digests::mixed(d, pixel(y.cast_signed(), cb, cr)))
}

// Kind 44: whether the port agrees with a case.
pub fn row_agrees(c: &[u8]) -> bool {
    row(number::i16_at(c, 0), number::i16_at(c, 2)) == number::u64_at(c, 4)
}
