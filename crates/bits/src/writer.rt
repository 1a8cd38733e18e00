// The writer: bits go into a slice that the caller lends. A byte past the slice's end is counted and not stored.
ghost use Rattle.std.specs.Prelude.{◌≡◌, false, ◌+◌, ◌%◌, ◌^◌, ◌≤◌, ◌<◌, length, set, replicate};
ghost use Rattle.bits.specs.Bits.{bit_of};
ghost use Rattle.bits.specs.Written.{bits_of, writer};
ghost use Rattle.bits.specs.Inner.{Sound, Room, write, pad_count, pad_out, counted, settled, settled_out, SoundWord, WroteWords, word_stored};

// Where bits go: `at` whole bytes are written, and `bit_count` bits, the number `current`, wait for the next byte.
#[derive(Clone, Copy)]
pub struct BitWriter {
    pub at: usize,
    pub current: u8,
    pub bit_count: u8,
}

// A writer that stores four bytes at a time: `at` bytes are stored, and `held` bits, the number `word`, wait: at most 31.
#[derive(Clone, Copy)]
pub struct WordWriter {
    pub at: usize,
    pub word: u64,
    pub held: u8,
}

// A writer's place without its bits, for measuring.
#[derive(Clone, Copy)]
pub struct BitCount {
    pub at: usize,
    pub bit_count: u8,
}

// A byte, unless it is past the end.
pub fn store(out: &mut [u8], at: usize, byte: u8)
    ensures { out.new ≡ set out.old at byte }
{
    if at < out.len() {
        out[at] = byte;
    }
}

// A bit as a number.
pub fn bit_of(b: bool) -> u8
    ensures { result ≡ bit_of b }
{
    u8::from(b)
}

// ---- bits by the word

// The low n bits of a number.
fn low_bits(x: u64, n: u8) -> u64
    requires { n < 64 }
    ensures { result ≡ x % 2 ^ n }
{
    x % (1u64 << n)
}

// The low byte of a number.
fn low_byte(x: u64) -> u8
    ensures { result ≡ x % 256 }
{
    (x % 256) as u8
}

// The low 32 bits of a number, inside the slice: the compiler makes one store of the four bytes.
fn store_four(out: &mut [u8], at: usize, x: u64)
    requires { at + 4 ≤ length out.old }
    ensures { out.new ≡ word_stored out.old at x }
{
    out[at] = low_byte(x >> 24);
    out[at + 1] = low_byte(x >> 16);
    out[at + 2] = low_byte(x >> 8);
    out[at + 3] = low_byte(x);
}

// The whole bytes of n bits, the number x, each by itself.
fn store_bytes(out: &mut [u8], at: usize, x: u64, n: u8)
    requires { (n ≤ 32) × (at + 8 < 2 ^ 64) }
    ensures { out.new ≡ write out.old (writer at 0 0) (bits_of n x) }
{
    let mut next = at;
    let mut left = n;
    while 8 <= left {
        left -= 8;
        store(out, next, low_byte(x >> left));
        next += 1;
    }
}

// The low 32 bits of a number. The bytes are made behind the test, else they would be four stores.
fn store_word(out: &mut [u8], at: usize, x: u64)
    requires { at + 8 < 2 ^ 64 }
    ensures { out.new ≡ write out.old (writer at 0 0) (bits_of 32 x) }
{
    if at + 4 <= out.len() {
        store_four(out, at, x);
        return;
    }
    store_bytes(out, at, x, 32);
}

// n bits, the number `value`: they wait with the others, or the first 32 bits are stored.
pub fn put_word(out: &mut [u8], k: WordWriter, value: u64, n: u8) -> WordWriter
    requires { SoundWord k × (k.at + 8 < 2 ^ 64) × (n ≤ 32) × (value < 2 ^ n) }
    ensures { WroteWords out.old k (bits_of n value) result out.new }
{
    let word = (k.word << n) + value;
    let held = k.held + n;
    let at = k.at;
    if held < 32 {
        return WordWriter { at, word, held };
    }
    let left = held - 32;
    store_word(out, at, word >> left);
    WordWriter {
        at: at + 4,
        word: low_bits(word, left),
        held: left,
    }
}

// n zeros.
pub fn put_zero_words(out: &mut [u8], k: WordWriter, n: usize) -> WordWriter
    requires { SoundWord k × (k.at + n + 16 < 2 ^ 64) }
    ensures { WroteWords out.old k (replicate n false) result out.new }
{
    let mut at = k.at;
    let mut word = k.word;
    let mut held = k.held;
    let mut left = n;
    while 32 < left {
        let next = put_word(out, WordWriter { at, word, held }, 0, 32);
        at = next.at;
        word = next.word;
        held = next.held;
        left -= 32;
    }
    put_word(out, WordWriter { at, word, held }, 0, left as u8)
}

// The whole bytes that wait are stored: fewer than 8 bits wait then.
pub fn settle(out: &mut [u8], k: WordWriter) -> BitWriter
    requires { SoundWord k × (k.at + 8 < 2 ^ 64) }
    ensures { (result ≡ settled k) × (out.new ≡ settled_out out.old k) }
{
    let at = k.at;
    let word = k.word;
    let held = k.held;
    store_bytes(out, at, word, held);
    let left = held % 8;
    BitWriter {
        at: at + usize::from(held / 8),
        current: low_bits(word, left) as u8,
        bit_count: left,
    }
}

// ---- the end, and measuring

// The bits of an unfinished byte, padded with zeros: how many bytes there are then.
pub fn put_pad(out: &mut [u8], k: BitWriter) -> usize
    requires { Sound k × Room k 1 }
    ensures { (result ≡ pad_count k) × (out.new ≡ pad_out out.old k) }
{
    let at = k.at;
    if k.bit_count == 0 {
        return at;
    }
    let left = 8 - k.bit_count;
    store(out, at, k.current << left);
    at + 1
}

// The last bits, padded with zeros: how many bytes there are then.
pub fn end_words(out: &mut [u8], k: WordWriter) -> usize
    requires { SoundWord k × (k.at + 8 < 2 ^ 64) }
    ensures { (result ≡ pad_count (settled k))
        × (out.new ≡ pad_out (settled_out out.old k) (settled k)) }
{
    let last = settle(out, k);
    put_pad(out, last)
}

// The place after n more bits, with nothing written.
pub fn count_bits(p: BitCount, n: usize) -> BitCount
    requires { (p.bit_count ≤ 7) × (p.at + n + 7 < 2 ^ 64) }
    ensures { result ≡ counted p n }
{
    let total = usize::from(p.bit_count) + n;
    BitCount {
        at: p.at + total / 8,
        bit_count: (total % 8) as u8,
    }
}
