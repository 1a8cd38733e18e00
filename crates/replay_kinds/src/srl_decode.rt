// Kind 32: calls of `srl::decode` on one stream, each from the state that the one before left.
use answer::Refusal;
use replay_input::{number, outputs};
use srl_decoder::{Decoded, SrlState};

// The state in the first 19 bytes.
fn state_of(c: &[u8]) -> SrlState {
    SrlState {
        reader: bits::reader::BitReader {
            byte_idx: number::u64_at(c, 0) as usize,
            bit_idx: number::u8_at(c, 8),
        },
        kp: number::u8_at(c, 9),
        zero_run_remaining: number::u64_at(c, 10) as usize,
        nonzero_pending: number::flag_at(c, 18),
    }
}

// Whether a call's answer, and what it left, are those recorded.
fn same_answer(c: &[u8], answer: Result<Decoded, Refusal>, state: SrlState, out: &[i16]) -> bool {
    let none = Decoded {
        count: 0,
        missing: 0,
    };
    let decoded = answer.unwrap_or(none);
    number::u8_at(c, 0) == outputs::refusal(answer)
        && usize::from(number::u16_at(c, 1)) == decoded.count
        && state_of(number::tail(c, 3)) == state
        && number::u64_at(c, 22) == decoded.missing
        && outputs::holds(out, decoded.count, c, 30)
}

// Makes a call with an output of its size, and compares.
fn call_with(c: &[u8], src: &[u8], state: &mut SrlState, out: &mut [i16]) -> bool {
    let num_values = number::u64_at(c, 0) as usize;
    let num_bits = number::u8_at(c, 8);
    outputs::fill(out);
    let answer = srl_decoder::decode(src, state, out, num_values, num_bits);
    same_answer(number::tail(c, 11), answer, *state, out)
}

// Makes a call, and compares.
fn call_agrees(c: &[u8], src: &[u8], state: &mut SrlState, out: &mut [i16]) -> bool {
    let len = usize::from(number::u16_at(c, 9));
    len <= out.len() && call_with(c, src, state, &mut out[..len])
}

// What is recorded behind a call, if it is whole.
fn behind(c: &[u8]) -> Option<&[u8]> {
    let count = usize::from(number::u16_at(c, 12));
    c.get(41 + 2 * count..)
}

// Makes the calls, which end with the case.
fn calls_agree(calls: u8, first: &[u8], src: &[u8], mut state: SrlState, out: &mut [i16]) -> bool {
    let mut rest = first;
    for _ in 0..calls {
        if !call_agrees(rest, src, &mut state, out) {
            return false;
        }
        let Some(next) = behind(rest) else {
            return false;
        };
        rest = next;
    }
    rest.is_empty()
}

// Whether the port agrees with a case.
#[inline(never)]
pub fn agrees(c: &[u8]) -> bool {
    let mut out = [0i16; 8192];
    let calls = number::u8_at(c, 0);
    let state = state_of(number::tail(c, 1));
    let len = usize::from(number::u16_at(c, 20));
    match c.get(22..).and_then(|rest| rest.split_at_checked(len)) {
        Some((src, first)) => calls_agree(calls, first, src, state, &mut out),
        None => false,
    }
}
