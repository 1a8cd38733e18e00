// Numbers in recorded bytes: little-endian, signed ones in two's complement. A byte past the end is 0.

// The bytes from a place on.
pub fn tail(s: &[u8], at: usize) -> &[u8] {
    &s[at.min(s.len())..]
}

// The bytes at a place.
pub fn bytes_at<const N: usize>(s: &[u8], at: usize) -> [u8; N] {
    let mut bytes = [0u8; N];
    for (byte, recorded) in bytes.iter_mut().zip(tail(s, at)) {
        *byte = *recorded;
    }
    bytes
}

pub fn u8_at(s: &[u8], at: usize) -> u8 {
    s.get(at).copied().unwrap_or(0)
}

// The row of ten at a place.
pub fn row_at(s: &[u8], at: usize) -> [u8; 10] {
    bytes_at(s, at)
}

pub fn flag_at(s: &[u8], at: usize) -> bool {
    u8_at(s, at) != 0
}

pub fn u16_at(s: &[u8], at: usize) -> u16 {
    u16::from_le_bytes(bytes_at(s, at))
}

pub fn u32_at(s: &[u8], at: usize) -> u32 {
    u32::from_le_bytes(bytes_at(s, at))
}

pub fn u64_at(s: &[u8], at: usize) -> u64 {
    u64::from_le_bytes(bytes_at(s, at))
}

pub fn i8_at(s: &[u8], at: usize) -> i8 {
    i8::from_le_bytes(bytes_at(s, at))
}

pub fn i16_at(s: &[u8], at: usize) -> i16 {
    i16::from_le_bytes(bytes_at(s, at))
}

pub fn i32_at(s: &[u8], at: usize) -> i32 {
    i32::from_le_bytes(bytes_at(s, at))
}

pub fn i64_at(s: &[u8], at: usize) -> i64 {
    i64::from_le_bytes(bytes_at(s, at))
}
