// Kind 33: calls of `srl::encode`, each from the state that the one before left, and then of `srl::finish`.
use replay_input::{number, outputs};
use srl_encoder::SrlWriter;

// The state in the first 11 bytes.
fn state_of(c: &[u8]) -> SrlWriter {
    SrlWriter {
        kp: number::u8_at(c, 0),
        pending_zeros: number::u64_at(c, 1) as usize,
        current: number::u8_at(c, 9),
        bit_count: number::u8_at(c, 10),
    }
}

// Makes a call with an output of its size, and compares what it answered and left with what is recorded.
fn call_with(
    c: &[u8],
    num_bits: u8,
    values: &[i16],
    state: &mut SrlWriter,
    out: &mut [u8],
) -> bool {
    outputs::fill(out);
    let answer = srl_encoder::encode(values, state, out, num_bits);
    let count = answer.unwrap_or(0);
    number::u8_at(c, 0) == outputs::refusal(answer)
        && usize::from(number::u16_at(c, 1)) == count
        && state_of(number::tail(c, 3)) == *state
        && outputs::holds(out, count, c, 14)
}

// Makes a call, and compares. What is recorded behind it, if the port agrees and the call is whole.
fn behind<'a>(
    c: &'a [u8],
    values: &mut [i16],
    state: &mut SrlWriter,
    out: &mut [u8],
) -> Option<&'a [u8]> {
    let num_bits = number::u8_at(c, 0);
    let len = usize::from(number::u16_at(c, 1));
    let count = usize::from(number::u16_at(c, 3));
    if len > out.len() || count > values.len() {
        return None;
    }
    outputs::load(c, 5, &mut values[..count]);
    let answer = c.get(5 + 2 * count..)?;
    if !call_with(answer, num_bits, &values[..count], state, &mut out[..len]) {
        return None;
    }
    answer.get(14 + usize::from(number::u16_at(answer, 1))..)
}

// Makes the call of `finish` with an output of its size, and compares. The case ends with it.
fn finish_with(c: &[u8], state: &SrlWriter, out: &mut [u8]) -> bool {
    outputs::fill(out);
    let answer = srl_encoder::finish(state, out);
    let count = answer.unwrap_or(0);
    number::u8_at(c, 2) == outputs::refusal(answer)
        && usize::from(number::u16_at(c, 3)) == count
        && c.len() == 5 + count
        && outputs::holds(out, count, c, 5)
}

// Makes the call of `finish`, and compares.
fn finish_agrees(c: &[u8], state: &SrlWriter, out: &mut [u8]) -> bool {
    let len = usize::from(number::u16_at(c, 0));
    len <= out.len() && finish_with(c, state, &mut out[..len])
}

// Makes the calls, and then the one of `finish`.
fn calls_agree(c: &[u8], values: &mut [i16], out: &mut [u8]) -> bool {
    let mut state = state_of(number::tail(c, 1));
    let mut rest = number::tail(c, 12);
    for _ in 0..number::u8_at(c, 0) {
        let Some(next) = behind(rest, values, &mut state, out) else {
            return false;
        };
        rest = next;
    }
    finish_agrees(rest, &state, out)
}

// Whether the port agrees with a case.
#[inline(never)]
pub fn agrees(c: &[u8]) -> bool {
    let mut values = [0i16; 8192];
    let mut out = [0u8; 8192];
    calls_agree(c, &mut values, &mut out)
}
