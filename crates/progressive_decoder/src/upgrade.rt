// The reader of a pass: band by band, with a reader for each stream. A band's places are split into those that have an SRL value and the others.
ghost use Rattle.std.specs.Prelude.{◌≡◌, true, not, List, ℕ, ◌+◌, ◌-◌, ◌*◌, ◌%◌, ◌^◌, ◌≤◌, ◌<◌, pos, length, get_or, set};
ghost use Rattle.bits.specs.Bits.{bit_at, zeros, bits_read};
ghost use Rattle.bits.specs.Inner.{Top, Front};
ghost use Rattle.srl_decoder.specs.Srl.{Reader, most_zeros, behind};
ghost use Rattle.srl_decoder.specs.Decode.{opened};
ghost use Rattle.srl_rules.specs.Inner.{Width};
ghost use Rattle.places.specs.Inner.{place_rows};
ghost use Rattle.bands.specs.Positions.{row_in_domain};
ghost use Rattle.upgrade_steps.specs.Steps.{steps, srl, raw};
ghost use Rattle.upgrade_steps.specs.Inner.{band_step};
ghost use Rattle.progressive_decoder.specs.Upgrade.{adds, raw_coefficient, missing_bits};
ghost use Rattle.progressive_decoder.specs.Inner.{walked, over, sign_by, PlacesWithin, Early, BandWalked, Upgrades, UpgradesAll};

use crate::MissingBits;

// A reader for each stream: the SRL decoder's state, and the count of raw bits read.
#[derive(Clone, Copy)]
pub struct Readers {
    pub srl: srl_decoder::SrlState,
    pub raw: usize,
}

// ---- one place

// The coefficient with `m` times 2 to the `position` added or subtracted. Both are worked out, since no branch can foretell which it is.
fn moved(c: i16, m: u16, position: u8, adds: bool) -> i16
    ensures { result ≡ raw_coefficient adds position m c }
{
    let sum = fixed::add_scaled(c, m, position);
    let difference = fixed::sub_scaled(c, m, position);
    if adds { sum } else { difference }
}

// Whether raw bits are added.
fn adds_raw(t: upgrade_steps::BandStep, s: i8) -> bool
    ensures { result ≡ adds (band_step t) s }
{
    t.bottom || fixed::is_positive_sign(s)
}

// The sign that a nonzero value sets.
fn sign_by(negative: bool) -> i8
    ensures { result ≡ sign_by negative }
{
    if negative { -1 } else { 1 }
}

// ---- the lists, read

// The next bits of a stream at the top of a word, and how many they are.
#[derive(Clone, Copy)]
pub struct Word {
    pub bits: u64,
    pub count: usize,
}

// The word, or where it has fewer than `width` bits those that the stream has from `at` on.
fn refill(raw_data: &[u8], at: usize, bits: u64, count: usize, width: u8) -> Word
    requires { (width ≤ 15) × Top count bits raw_data.now at }
    ensures { Top result.count result.bits raw_data.now at × (width ≤ result.count) }
{
    if count >= width as usize {
        return Word { bits, count };
    }
    Word {
        bits: bits::reader::ahead_at(raw_data, at),
        count: 64 - at % 8,
    }
}

// The raw bits of the places of a list; the count of bits read then.
fn raw_list(
    raw_data: &[u8],
    from: usize,
    t: upgrade_steps::BandStep,
    list: &[u16],
    coefficients: &mut [i16],
    sign: &[i8],
) -> usize
    requires { Width t.width
        × (from ≤ 2 ^ 60)
        × (length list.now ≤ 1024)
        × PlacesWithin list.now (length coefficients.old)
        × (length sign.now ≡ length coefficients.old) }
    ensures { (s : List ℕ) (q : Reader)
        → over raw s raw_data.now (band_step t) list.now (walked coefficients.old sign.now q from)
        ≡ walked coefficients.new sign.now q result }
{
    let width = t.width;
    let mut at = from;
    let mut bits: u64 = 0;
    let mut count: usize = 0;
    for place in list {
        let word = refill(raw_data, at, bits, count, width);
        let m = bits::reader::top(word.bits, width) as u16;
        bits = bits::reader::behind(word.bits, width as u32);
        count = word.count - width as usize;
        at += width as usize;
        let i = *place as usize;
        coefficients[i] = moved(coefficients[i], m, t.position, adds_raw(t, sign[i]));
    }
    at
}

// The nonzero value at `at`, behind the first `taken` bits of the word `a`.
fn value_behind(
    srl_data: &[u8],
    at: usize,
    a: u64,
    taken: usize,
    width: u8,
) -> srl_decoder::decoder::NonzeroRead
    requires { Width width
        × (taken ≤ 40)
        × (at ≤ 2 ^ 45)
        × Front (57 - taken) ((a * 2 ^ taken) % 2 ^ 64) srl_data.now at }
    ensures { (result.negative ≡ bit_at srl_data.now at)
        × (result.magnitude ≡ zeros srl_data.now (at + 1) (most_zeros width) + 1)
        × (at + result.taken ≡ behind srl_data.now at width)
        × (result.taken ≤ 32769) }
{
    let rest = bits::reader::behind(a, taken as u32);
    let place = bits::reader::place(at);
    srl_decoder::decoder::decode_nonzero(srl_data, place, rest, 57 - taken as u32, width)
}

// Moves the coefficient at a place by a nonzero value, and sets the sign.
fn put_value(
    coefficients: &mut [i16],
    sign: &mut [i8],
    i: usize,
    v: srl_decoder::decoder::NonzeroRead,
    position: u8,
)
    requires { (i < length coefficients.old) × (i < length sign.old) }
    ensures { (coefficients.new ≡ set coefficients.old i
        (raw_coefficient (not v.negative) position v.magnitude (get_or coefficients.old i (pos 0))))
        × (sign.new ≡ set sign.old i (sign_by v.negative)) }
{
    coefficients[i] = moved(coefficients[i], v.magnitude, position, !v.negative);
    sign[i] = sign_by(v.negative);
}

// The SRL values of the places of a list. `j` is the place of the next nonzero value, or of the next code word: it may lie past the list.
// A turn takes code words and the value behind them from one word of the stream.
fn srl_list(
    srl_data: &[u8],
    from: srl_decoder::SrlState,
    t: upgrade_steps::BandStep,
    list: &[u16],
    coefficients: &mut [i16],
    sign: &mut [i8],
) -> srl_decoder::SrlState
    requires { Width t.width
        × (from.reader.bit_idx ≤ 7)
        × (from.kp ≤ 80)
        × (bits_read from.reader ≤ 2 ^ 41)
        × (length list.now ≤ 1024)
        × PlacesWithin list.now (length coefficients.old)
        × (length sign.old ≡ length coefficients.old) }
    ensures { ((d : List ℕ) (m : ℕ)
        → over srl srl_data.now d (band_step t) list.now
        (walked coefficients.old sign.old (opened from) m)
        ≡ walked coefficients.new sign.new (opened result) m)
        × (result.reader.bit_idx ≤ 7) }
{
    let n = list.len();
    let mut at = bits::reader::count_of(from.reader);
    let mut kp = from.kp;
    let mut pending = from.nonzero_pending;
    let mut j = from.zero_run_remaining;
    while j < n {
        let a = bits::reader::ahead_at(srl_data, at);
        let codes = srl_decoder::decoder::up_to_value(a, kp, pending, n - j);
        at += codes.taken;
        kp = codes.kp;
        pending = codes.pending;
        j += codes.run;
        if srl_decoder::decoder::due(codes.pending, j, n) {
            let v = value_behind(srl_data, at, a, codes.taken, t.width);
            put_value(coefficients, sign, list[j] as usize, v, t.position);
            at += v.taken;
            pending = false;
            j += 1;
        }
    }
    srl_decoder::SrlState {
        reader: bits::reader::place(at),
        kp,
        zero_run_remaining: j - n,
        nonzero_pending: pending,
    }
}

// ---- a band

// A band: of width 0 it is skipped. Else all its places: the raw ones, and then the SRL ones. So neither loop has to ask at a place what it is.
fn upgrade_band(
    srl_data: &[u8],
    raw_data: &[u8],
    t: upgrade_steps::BandStep,
    from: Readers,
    coefficients: &mut [i16],
    sign: &mut [i8],
    zeros: &mut [u16],
    others: &mut [u16],
    rows: &[u8; 2304],
) -> Readers
    requires { (t.width ≤ 15)
        × Early from (2 ^ 40)
        × (length sign.old ≡ length coefficients.old)
        × (length coefficients.old ≤ 1024)
        × (1024 ≤ length zeros.old)
        × (1024 ≤ length others.old)
        × (rows.now ≡ place_rows) }
    ensures { BandWalked srl_data.now raw_data.now (band_step t)
        coefficients.old sign.old from coefficients.new sign.new result }
{
    if t.width == 0 {
        return from;
    }
    let n = crate::split::split(t, sign, zeros, others, rows);
    let raw = raw_list(
        raw_data,
        from.raw,
        t,
        &others[..sign.len() - n],
        coefficients,
        sign,
    );
    let srl = srl_list(srl_data, from.srl, t, &zeros[..n], coefficients, sign);
    Readers { srl, raw }
}

// ---- all bands

// All places, from band to band by the table of places, with both readers at the start of their streams; where the readers end. The tables are at hand
// before the loop, since the compiler builds one at each use.
fn upgrade_bands(
    srl_data: &[u8],
    raw_data: &[u8],
    prev: [u8; 10],
    curr: [u8; 10],
    use_reduce_extrapolate: bool,
    coefficients: &mut [i16],
    sign: &mut [i8],
) -> Readers
    requires { (row_in_domain prev ≡ true) × (4096 ≤ length coefficients.old) × (4096 ≤ length sign.old) }
    ensures { Upgrades (steps use_reduce_extrapolate prev curr) srl_data.now raw_data.now
        coefficients.old sign.old coefficients.new sign.new result }
{
    let rows = places::place_rows();
    let table = bands::bands_of_places(use_reduce_extrapolate);
    let ends = bands::band_ends(use_reduce_extrapolate);
    let mut zeros: [u16; 1024] = [0; 1024];
    let mut others: [u16; 1024] = [0; 1024];
    let mut readers = Readers {
        srl: srl_decoder::SrlState::new(),
        raw: 0,
    };
    let mut i: usize = 0;
    while i < bands::COEFFICIENTS_PER_COMPONENT {
        let stretch = upgrade_steps::stretch_at(&table, ends, prev, curr, i);
        let t = stretch.step;
        let to = stretch.to;
        readers = upgrade_band(
            srl_data,
            raw_data,
            t,
            readers,
            &mut coefficients[i..to],
            &mut sign[i..to],
            &mut zeros,
            &mut others,
            &rows,
        );
        i = to;
    }
    readers
}

// How many bits were missing of both streams, by where the readers end.
fn missing_by(srl_data: &[u8], raw_data: &[u8], ends: Readers) -> MissingBits
    requires { (ends.srl.reader.bit_idx ≤ 7)
        × (bits_read ends.srl.reader < 8 * length srl_data.now + 2 ^ 32)
        × (ends.raw < 2 ^ 32) }
    ensures { result ≡ missing_bits (bits_read ends.srl.reader - 8 * length srl_data.now) (ends.raw - 8 * length raw_data.now) }
{
    let srl = bits::reader::past_end(srl_data, ends.srl.reader);
    let raw = bits::reader::past_end(raw_data, bits::reader::place(ends.raw));
    MissingBits {
        srl: srl as u32,
        raw: raw as u32,
    }
}

// A pass over all places; the bits that were missing. A part of `decode_upgrade_pass` and of a tile's pass, which have seen that no position is above 15.
pub fn upgrade_all(
    srl_data: &[u8],
    raw_data: &[u8],
    prev: [u8; 10],
    curr: [u8; 10],
    use_reduce_extrapolate: bool,
    coefficients: &mut [i16],
    sign: &mut [i8],
) -> MissingBits
    requires { (row_in_domain prev ≡ true) × (4096 ≤ length coefficients.old) × (4096 ≤ length sign.old) }
    ensures { UpgradesAll (steps use_reduce_extrapolate prev curr) srl_data.now raw_data.now
        coefficients.old sign.old coefficients.new sign.new result }
{
    let ends = upgrade_bands(
        srl_data,
        raw_data,
        prev,
        curr,
        use_reduce_extrapolate,
        coefficients,
        sign,
    );
    missing_by(srl_data, raw_data, ends)
}
