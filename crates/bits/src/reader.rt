// The reader: a place in a stream that the caller lends. Bits are read a word at a time; past the stream's end they are 0.
ghost use Rattle.std.specs.Prelude.{◌≡◌, cond, ◌+◌, ◌-◌, ◌*◌, ◌/◌, ◌%◌, ◌^◌, ◌≤◌, ◌<◌, min, ltb, length, get_or};
ghost use Rattle.std.specs.Int.Count.{count_leading_zeros};
ghost use Rattle.bits.specs.Bits.{num, zeros, bits_read, place_of, held};
ghost use Rattle.bits.specs.Inner.{Top, Front, CountsZeros};

// A place in a stream: a byte, and a bit of it, 0 to 7, counted from the highest.
#[derive(Clone, Copy, Debug, PartialEq, Eq)]
pub struct BitReader {
    pub byte_idx: usize,
    pub bit_idx: u8,
}

// Zeros that were counted, and how often the loop turned for them.
#[derive(Clone, Copy)]
pub struct ZerosCounted {
    pub zeros: u32,
    pub turns: u32,
}

// ---- places

// The place `count` bits further on.
pub fn skip(r: BitReader, count: usize) -> BitReader
    requires { (r.bit_idx ≤ 7) × (r.byte_idx + count < 2 ^ 63 + 2 ^ 62) }
    ensures { result ≡ place_of (bits_read r + count) }
{
    let bits = usize::from(r.bit_idx) + count;
    BitReader {
        byte_idx: r.byte_idx + bits / 8,
        bit_idx: (bits % 8) as u8,
    }
}

// The place of a count of bits.
pub fn place(count: usize) -> BitReader
    ensures { result ≡ place_of count }
{
    BitReader {
        byte_idx: count / 8,
        bit_idx: (count % 8) as u8,
    }
}

// The count of bits of a place.
pub fn count_of(r: BitReader) -> usize
    requires { (r.bit_idx ≤ 7) × (r.byte_idx < 2 ^ 60) }
    ensures { result ≡ bits_read r }
{
    8 * r.byte_idx + usize::from(r.bit_idx)
}

// The place, or the stream's end where it is past that.
pub fn hold(src: &[u8], r: BitReader) -> BitReader
    requires { r.bit_idx ≤ 7 }
    ensures { result ≡ place_of (held src.now (bits_read r)) }
{
    let len = src.len();
    if len <= r.byte_idx {
        return BitReader {
            byte_idx: len,
            bit_idx: 0,
        };
    }
    r
}

// How many bits past the stream's end were read up to a place, by a reader that began in the stream.
pub fn past_end(src: &[u8], r: BitReader) -> u64
    requires { (r.bit_idx ≤ 7) × (bits_read r < 8 * length src.now + 2 ^ 63) }
    ensures { result ≡ bits_read r - 8 * length src.now }
{
    let len = src.len();
    if r.byte_idx < len {
        return 0;
    }
    8 * ((r.byte_idx - len) as u64) + u64::from(r.bit_idx)
}

// ---- words

// A byte that is there.
fn byte_in(src: &[u8], i: usize) -> u64
    requires { i < length src.now }
    ensures { (result ≡ get_or src.now i 0) × (result < 256) }
{
    u64::from(src[i])
}

// A byte, 0 past the end.
fn byte_or_zero(src: &[u8], i: usize) -> u64
    ensures { (result ≡ get_or src.now i 0) × (result < 256) }
{
    u64::from(src.get(i).copied().unwrap_or(0))
}

// The 64 bits from a byte on that has seven behind it. In this form the compiler makes one load of it.
fn eight_in(src: &[u8], i: usize) -> u64
    requires { i + 8 ≤ length src.now }
    ensures { result ≡ num src.now (8 * i) 64 }
{
    let b = byte_in(src, i) * 256 + byte_in(src, i + 1);
    let c = b * 256 + byte_in(src, i + 2);
    let d = c * 256 + byte_in(src, i + 3);
    let e = d * 256 + byte_in(src, i + 4);
    let f = e * 256 + byte_in(src, i + 5);
    let g = f * 256 + byte_in(src, i + 6);
    g * 256 + byte_in(src, i + 7)
}

// The 64 bits from a byte on, near the end or past it.
fn eight_or_zero(src: &[u8], i: usize) -> u64
    ensures { result ≡ num src.now (8 * i) 64 }
{
    if src.len() <= i {
        return 0;
    }
    let mut bits: u64 = 0;
    for j in 0..8 {
        bits = bits * 256 + byte_or_zero(src, i + j);
    }
    bits
}

// The 64 bits from a byte on.
fn window(src: &[u8], i: usize) -> u64
    ensures { result ≡ num src.now (8 * i) 64 }
{
    let len = src.len();
    if 8 <= len && i <= len - 8 {
        return eight_in(src, i);
    }
    eight_or_zero(src, i)
}

// The bits from a place on, at the top of a word: 57 of them at least, and zeros behind them.
pub fn ahead(src: &[u8], r: BitReader) -> u64
    requires { r.bit_idx ≤ 7 }
    ensures { Top (64 - r.bit_idx) result src.now (bits_read r) }
{
    window(src, r.byte_idx) << r.bit_idx
}

// The bits from a count of bits on, likewise.
pub fn ahead_at(src: &[u8], count: usize) -> u64
    ensures { Top (64 - count % 8) result src.now count }
{
    ahead(src, place(count))
}

// The bits of a word behind its first `count`.
pub fn behind(a: u64, count: u32) -> u64
    requires { count ≤ 63 }
    ensures { result ≡ (a * 2 ^ count) % 2 ^ 64 }
{
    a << count
}

// The leading zeros of a word.
pub fn leading(a: u64) -> u32
    ensures { result ≡ count_leading_zeros 64 a }
{
    a.leading_zeros()
}

// The top `count` bits of a word, as a number.
pub fn top(a: u64, count: u8) -> u64
    requires { count ≤ 63 }
    ensures { result ≡ a / 2 ^ (64 - count) }
{
    (a >> 1) >> (63 - count)
}

// The leading zeros of a word, at most `limit`.
fn lead(a: u64, limit: u32) -> u32
    ensures { result ≡ min limit (count_leading_zeros 64 a) }
{
    limit.min(leading(a))
}

// ---- zeros before a 1

// How many zeros stand before a 1, of at most `limit` bits, all in one word.
fn zeros_ahead(src: &[u8], r: BitReader, limit: u32) -> u32
    requires { (r.bit_idx ≤ 7) × (limit ≤ 57) }
    ensures { result ≡ zeros src.now (bits_read r) limit }
{
    lead(ahead(src, r), limit)
}

// How many zeros stand before a 1, of at most `limit` bits. Past the end of the stream the answer is known, so the loop gives up there: it turns
// at most once for each bit that the stream still holds, and once more.
pub fn count_zeros(src: &[u8], r: BitReader, limit: u32) -> ZerosCounted
    requires { (r.bit_idx ≤ 7) × (r.byte_idx ≤ 2 ^ 63 + 2 ^ 61) }
    ensures { CountsZeros src.now (bits_read r) limit result }
{
    let mut z: u32 = 0;
    let mut turns: u32 = 0;
    while z < limit {
        turns += 1;
        let at = skip(r, z as usize);
        if src.len() <= at.byte_idx {
            return ZerosCounted {
                zeros: limit,
                turns,
            };
        }
        let part = (limit - z).min(56);
        let found = zeros_ahead(src, at, part);
        if found < part {
            return ZerosCounted {
                zeros: z + found,
                turns,
            };
        }
        z += part;
    }
    ZerosCounted {
        zeros: limit,
        turns,
    }
}

// How many zeros stand before a 1 behind the first bit, where `a` begins with `have` bits from that one on. Most often they end in it.
pub fn zeros_behind_first(src: &[u8], r: BitReader, a: u64, have: u32, limit: u32) -> u32
    requires { (r.bit_idx ≤ 7)
        × (r.byte_idx < 2 ^ 63 + 2 ^ 61)
        × (1 ≤ have)
        × Front have a src.now (bits_read r) }
    ensures { result ≡ zeros src.now (bits_read r + 1) limit }
{
    let part = limit.min(have - 1);
    let z = lead(behind(a, 1), part);
    if z < part {
        return z;
    }
    if limit <= part {
        return z;
    }
    count_zeros(src, skip(r, 1), limit).zeros
}

// How many bits `z` zeros take: with the 1 behind them, unless `limit` ended them.
pub fn zeros_length(z: u32, limit: u32) -> u32
    ensures { result ≡ cond (ltb z limit) (z + 1) limit }
{
    if z < limit {
        return z + 1;
    }
    limit
}
