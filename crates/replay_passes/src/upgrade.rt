// Kinds 36 to 38 and 47: a pass over one component that is read, one that is written, by either rule, and read back, and a component that is
// dequantized.
ghost use Rattle.std.specs.Prelude.{◌≤◌};

use answer::Refusal;
use progressive_decoder::MissingBits;
use progressive_encoder::Written;
use replay_input::component::Component;
use replay_input::{digests, number, outputs};

pub const NONE_MISSING: MissingBits = MissingBits { srl: 0, raw: 0 };

// The coefficients and the signs as one number.
pub fn digest(coefficients: &[i16], signs: &[i8]) -> u64 {
    digests::with(digests::with(0, coefficients), signs)
}

// How many elements a case lends of a list: the number at a place, and no more than there are.
fn lent(c: &[u8], at: usize, most: usize) -> usize
    ensures { result ≤ most }
{
    usize::from(number::u16_at(c, at)).min(most)
}

// The counts of missing bits in the first 8 bytes.
pub fn missing_of(c: &[u8]) -> MissingBits {
    MissingBits {
        srl: number::u32_at(c, 0),
        raw: number::u32_at(c, 4),
    }
}

// Reads a pass into the elements that the case lends.
fn read(
    c: &[u8],
    srl_data: &[u8],
    raw_data: &[u8],
    befores: &mut [i16; 4352],
    signs: &mut [i8; 4352],
) -> Result<MissingBits, Refusal> {
    let n = lent(c, 35, 4352);
    let m = lent(c, 37, 4352);
    progressive_decoder::decode_upgrade_pass(
        srl_data,
        raw_data,
        number::row_at(c, 13),
        number::row_at(c, 23),
        number::flag_at(c, 12),
        &mut befores[..n],
        &mut signs[..m],
    )
}

// Kind 36: whether the port agrees with a case.
#[inline(never)]
pub fn decode_agrees(c: &[u8]) -> bool {
    let srl_len = usize::from(number::u16_at(c, 39));
    let raw_len = usize::from(number::u16_at(c, 41));
    if c.len() != 60 + srl_len + raw_len {
        return false;
    }
    let (srl_data, raw_data) = c[60..].split_at(srl_len);
    let mut made = Component::ZEROS;
    made.fill(c);
    let answer = read(c, srl_data, raw_data, &mut made.befores, &mut made.signs);
    number::u8_at(c, 43) == outputs::refusal(answer)
        && answer.unwrap_or(NONE_MISSING) == missing_of(&c[52..])
        && digest(&made.befores, &made.signs) == number::u64_at(c, 44)
}

// Writes a pass from the elements that the case lends into the bytes that it lends.
fn write(
    symmetric: bool,
    c: &[u8],
    made: &Component,
    srl_out: &mut [u8; 16384],
    raw_out: &mut [u8; 16384],
) -> Result<Written, Refusal> {
    let l = lent(c, 33, 4352);
    let n = lent(c, 35, 4352);
    let m = lent(c, 37, 4352);
    let srl_room = lent(c, 39, 16384);
    let raw_room = lent(c, 41, 16384);
    pass_by_rule::write(
        symmetric,
        &made.targets[..l],
        &made.befores[..n],
        number::row_at(c, 13),
        number::row_at(c, 23),
        &made.signs[..m],
        number::flag_at(c, 12),
        &mut srl_out[..srl_room],
        &mut raw_out[..raw_room],
    )
}

// Whether the coefficients and signs, and the bits that were missing, are the recorded ones after what was written is read back.
fn same_read(c: &[u8], missing: MissingBits, made: &Component) -> bool {
    missing == missing_of(number::tail(c, 64))
        && digest(&made.befores, &made.signs) == number::u64_at(c, 56)
}

// Reads what was written back, and compares.
fn read_back_agrees(
    c: &[u8],
    written: Written,
    srl_out: &[u8],
    raw_out: &[u8],
    made: &mut Component,
) -> bool {
    if written.srl > srl_out.len() || written.raw > raw_out.len() {
        return false;
    }
    let srl_data = &srl_out[..written.srl];
    let raw_data = &raw_out[..written.raw];
    match read(c, srl_data, raw_data, &mut made.befores, &mut made.signs) {
        Ok(missing) => same_read(c, missing, made),
        Err(_) => false,
    }
}

// Whether an answer and both outputs are the recorded ones.
fn same_written(
    c: &[u8],
    answer: Result<Written, Refusal>,
    srl_out: &[u8],
    raw_out: &[u8],
) -> bool {
    let written = answer.unwrap_or(Written { srl: 0, raw: 0 });
    number::u8_at(c, 43) == outputs::refusal(answer)
        && usize::from(number::u16_at(c, 44)) == written.srl
        && usize::from(number::u16_at(c, 46)) == written.raw
        && digests::with(digests::with(0, srl_out), raw_out) == number::u64_at(c, 48)
}

// Kinds 37 and 47, which is by the symmetric rule: whether the port agrees with a case. A pass that is written is read back.
#[inline(never)]
pub fn encode_agrees(symmetric: bool, c: &[u8]) -> bool {
    if c.len() != 72 {
        return false;
    }
    let mut made = Component::ZEROS;
    made.fill(c);
    let mut srl_out = [0u8; 16384];
    let mut raw_out = [0u8; 16384];
    outputs::fill(&mut srl_out);
    outputs::fill(&mut raw_out);
    let answer = write(symmetric, c, &made, &mut srl_out, &mut raw_out);
    same_written(c, answer, &srl_out, &raw_out)
        && match answer {
            Ok(written) => read_back_agrees(c, written, &srl_out, &raw_out, &mut made),
            Err(_) => same_read(c, NONE_MISSING, &made),
        }
}

// Kind 38: whether the port agrees with a case, which lends some elements.
#[inline(never)]
pub fn dequantize_agrees(c: &[u8]) -> bool {
    if c.len() != 48 {
        return false;
    }
    let mut made = Component::ZEROS;
    made.fill(c);
    let n = lent(c, 33, 4352);
    let quant = number::row_at(c, 23);
    let extrapolate = number::flag_at(c, 12);
    let answer = dequantizer::dequantize_component_ccq(&mut made.targets[..n], quant, extrapolate);
    number::u8_at(c, 39) == outputs::refusal(answer)
        && digests::with(0, &made.targets) == number::u64_at(c, 40)
}
