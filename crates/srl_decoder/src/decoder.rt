// The decoder: code words, nonzero values, and calls, which go from one nonzero value to the next.
ghost use Rattle.std.specs.Prelude.{◌≡◌, true, false, List, ℕ, ◌*◌, ◌^◌, ◌+◌, ◌≤◌, ◌<◌, length};
ghost use Rattle.bits.specs.Bits.{bit_at, zeros, bits_read, reader_moved};
ghost use Rattle.bits.specs.Inner.{Top, Front};
ghost use Rattle.srl_decoder.specs.Srl.{most_zeros, behind, code_word};
ghost use Rattle.srl_decoder.specs.Decode.{opened, state_ok};
ghost use Rattle.srl_rules.specs.Inner.{Width};
ghost use Rattle.srl_decoder.specs.Inner.{SoundState, shut, StoresValues, StoresIfRoom, reads_on, FindsDue, read_behind, below, Brought};

use crate::{Decoded, SrlState};
use answer::Refusal;
use bits::reader::BitReader;

// A nonzero value: its magnitude, its sign, and how many bits it takes.
#[derive(Clone, Copy)]
pub struct NonzeroRead {
    pub magnitude: u16,
    pub negative: bool,
    pub taken: usize,
}

// Code words: how many bits they take, kp after them, the zeros that they bring, and whether a nonzero value follows these.
#[derive(Clone, Copy)]
pub struct CodesRead {
    pub taken: usize,
    pub kp: u8,
    pub run: usize,
    pub pending: bool,
}

// What storing values leaves: the state, whose place has run on past the stream's end, and how often the loop turned.
#[derive(Clone, Copy)]
pub struct Stored {
    pub state: SrlState,
    pub turns: usize,
}

// What a dry run finds: whether a nonzero value is due, and how often the loop turned.
#[derive(Clone, Copy)]
pub struct DryRun {
    pub due: bool,
    pub turns: usize,
}

// Whether a decoder can have the state.
pub fn state_ok(st: SrlState) -> bool
    ensures { result ≡ state_ok st }
{
    st.kp <= srl_rules::MAX_KP && st.reader.bit_idx <= 7 && st.zero_run_remaining <= 1024
}

// ---- a code word, and a nonzero value

// The code word that the word `a` begins with.
fn one_code(a: u64, kp: u8) -> CodesRead
    requires { kp ≤ 80 }
    ensures { ((s : List ℕ) (n v : ℕ) → Top v a s n → 57 ≤ v → read_behind n result ≡ code_word s n kp)
        × (result.taken ≤ 11) }
{
    if a < 0x8000_0000_0000_0000 {
        CodesRead {
            taken: 1,
            kp: srl_rules::raised(kp),
            run: srl_rules::run_size(kp),
            pending: false,
        }
    } else {
        let k = kp / 8;
        let zeros = bits::reader::top(bits::reader::behind(a, 1), k);
        CodesRead {
            taken: 1 + usize::from(k),
            kp: srl_rules::lowered(kp),
            run: zeros as usize,
            pending: true,
        }
    }
}

// One code word.
fn code_word(src: &[u8], st: SrlState) -> SrlState
    requires { SoundState st }
    ensures { result ≡ shut (code_word src.now (bits_read st.reader) st.kp) }
{
    let c = one_code(bits::reader::ahead(src, st.reader), st.kp);
    SrlState {
        reader: bits::reader::skip(st.reader, c.taken),
        kp: c.kp,
        zero_run_remaining: c.run,
        nonzero_pending: c.pending,
    }
}

// The nonzero value at a place, where `a` begins with `have` bits from there on.
pub fn decode_nonzero(src: &[u8], reader: BitReader, a: u64, have: u32, num_bits: u8) -> NonzeroRead
    requires { (reader.bit_idx ≤ 7)
        × (reader.byte_idx < 2 ^ 63 + 2 ^ 61)
        × Width num_bits
        × (1 ≤ have)
        × Front have a src.now (bits_read reader) }
    ensures { (result.negative ≡ bit_at src.now (bits_read reader))
        × (result.magnitude ≡ zeros src.now (bits_read reader + 1) (most_zeros num_bits) + 1)
        × (bits_read reader + result.taken ≡ behind src.now (bits_read reader) num_bits)
        × (result.taken ≤ 32769) }
{
    let limit = (srl_rules::max_magnitude(num_bits) - 1) as u32;
    let zeros = bits::reader::zeros_behind_first(src, reader, a, have, limit);
    let taken = bits::reader::zeros_length(zeros, limit);
    NonzeroRead {
        magnitude: (zeros + 1) as u16,
        negative: 0x8000_0000_0000_0000 <= a,
        taken: 1 + taken as usize,
    }
}

// ---- several code words

// The zeros that code words 0 bring while kp rises to `x`, and two more.
fn below(x: u8) -> usize
    requires { x ≤ 80 }
    ensures { result ≡ below x }
{
    usize::from(2 + (x / 4) % 2) << (x / 8)
}

// The code words that the word `a` begins with: those up to a nonzero value where it is among the next `left` values, and one where it is not.
fn code_words(a: u64, kp: u8, left: usize) -> CodesRead
    requires { (kp ≤ 80) × (1 ≤ left) }
    ensures { (s : List ℕ) (n v : ℕ) → Top v a s n → 57 ≤ v → Brought s n kp false left result }
{
    let c = a.leading_zeros();
    let high = u32::from(kp) + 4 * c;
    if 80 < high {
        return one_code(a, kp);
    }
    let high = high as u8;
    let k = high / 8;
    let last = bits::reader::top(bits::reader::behind(a, c + 1), k) as usize;
    let zeros = below(high) - below(kp) + last;
    if left <= zeros {
        return one_code(a, kp);
    }
    CodesRead {
        taken: c as usize + 1 + usize::from(k),
        kp: srl_rules::lowered(high),
        run: zeros,
        pending: true,
    }
}

// The same where a nonzero value may be at hand already: it needs no code word.
pub fn up_to_value(a: u64, kp: u8, pending: bool, left: usize) -> CodesRead
    requires { (kp ≤ 80) × (1 ≤ left) }
    ensures { (s : List ℕ) (n v : ℕ) → Top v a s n → 57 ≤ v → Brought s n kp pending left result }
{
    if pending {
        CodesRead {
            taken: 0,
            kp,
            run: 0,
            pending,
        }
    } else {
        code_words(a, kp, left)
    }
}

// Whether a nonzero value is at hand, at place `j`, and is among the first `n` values.
pub fn due(pending: bool, j: usize, n: usize) -> bool
    ensures { (result ≡ true → (pending ≡ true) × (j < n))
        × (result ≡ false → pending ≡ true → n ≤ j) }
{
    pending && j < n
}

// ---- a call

// Stores the next values in `out`, as many as it has places. It is cleared first, so that a run of zeros need not be stored: `j` is the place of the next
// nonzero value, or of the next code word. A turn reads code words and the value behind them from one word. The place runs on past the stream's end, so that
// at the end of the call it tells how many bits were missing. Each turn gives a value at least, past the end too, so there are no more turns than values. The
// loop keeps the state's parts: a struct would take its padding round.
fn store_values(src: &[u8], st: SrlState, out: &mut [i16], num_bits: u8) -> Stored
    requires { (st.reader.bit_idx ≤ 7)
        × (st.kp ≤ 80)
        × (bits_read st.reader ≤ 8 * length src.now)
        × Width num_bits }
    ensures { StoresValues src.now st (length out.old) num_bits result out.new }
{
    out.fill(0);
    let n = out.len();
    let mut byte_idx = st.reader.byte_idx;
    let mut bit_idx = st.reader.bit_idx;
    let mut kp = st.kp;
    let mut pending = st.nonzero_pending;
    let mut j = st.zero_run_remaining;
    let mut turns: usize = 0;
    while j < n {
        turns += 1;
        let place = BitReader { byte_idx, bit_idx };
        let a = bits::reader::ahead(src, place);
        let c = up_to_value(a, kp, pending, n - j);
        let mut taken = c.taken;
        kp = c.kp;
        pending = c.pending;
        j += c.run;
        if due(c.pending, j, n) {
            let codes = c.taken as u32;
            let have = 64 - u32::from(bit_idx) - codes;
            let at = bits::reader::skip(place, c.taken);
            let v = decode_nonzero(src, at, bits::reader::behind(a, codes), have, num_bits);
            out[j] = fixed::with_sign(v.magnitude, v.negative);
            taken += v.taken;
            pending = false;
            j += 1;
        }
        let next = bits::reader::skip(place, taken);
        byte_idx = next.byte_idx;
        bit_idx = next.bit_idx;
    }
    let state = SrlState {
        reader: BitReader { byte_idx, bit_idx },
        kp,
        zero_run_remaining: j - n,
        nonzero_pending: pending,
    };
    Stored { state, turns }
}

// Whether the dry run reads a code word.
fn reads_on(src: &[u8], st: SrlState, left: usize) -> bool
    ensures { result ≡ reads_on src.now st left }
{
    st.zero_run_remaining < left && !st.nonzero_pending && st.reader.byte_idx < src.len()
}

// Whether one of the next `num_values` values is nonzero. Each turn reads a code word, and past the stream's end no nonzero value comes,
// so the turns are no more than the bits that the stream still holds.
pub fn any_due(src: &[u8], st: SrlState, num_values: usize) -> DryRun
    requires { (st.reader.bit_idx ≤ 7) × (st.kp ≤ 80) }
    ensures { FindsDue src.now (opened st) num_values result }
{
    let mut cur = st;
    let mut left = num_values;
    let mut turns: usize = 0;
    while reads_on(src, cur, left) {
        turns += 1;
        left -= cur.zero_run_remaining;
        cur = code_word(src, cur);
    }
    DryRun {
        due: due(cur.nonzero_pending, cur.zero_run_remaining, left),
        turns,
    }
}

// The place after a call that began at a place and ends at another: held at the stream's end. A place at or past the end stays as it is.
fn moved(src: &[u8], from: BitReader, end: BitReader) -> BitReader
    requires { end.bit_idx ≤ 7 }
    ensures { result ≡ reader_moved src.now from (bits_read end) }
{
    if from.byte_idx < src.len() {
        bits::reader::hold(src, end)
    } else {
        from
    }
}

// Stores the next `num_values` values if there is room for them, and refuses if not.
pub fn store_if_room(
    src: &[u8],
    state: &mut SrlState,
    out: &mut [i16],
    num_values: usize,
    num_bits: u8,
) -> Result<Decoded, Refusal>
    requires { (state.old.reader.bit_idx ≤ 7) × (state.old.kp ≤ 80) × Width num_bits }
    ensures { StoresIfRoom src.now state.old out.old num_values num_bits result state.new out.new }
{
    if out.len() < num_values {
        return Err(Refusal::OutputTooShort);
    }
    let from = SrlState {
        reader: bits::reader::hold(src, state.reader),
        ..*state
    };
    let stored = store_values(src, from, &mut out[..num_values], num_bits);
    let end = stored.state.reader;
    *state = SrlState {
        reader: moved(src, state.reader, end),
        ..stored.state
    };
    Ok(Decoded {
        count: num_values,
        missing: bits::reader::past_end(src, end),
    })
}
