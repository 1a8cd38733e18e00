// Kind 34: every stream of one byte, or of two bytes with the same first, as one number.
use replay_input::{digests, number};
use srl_decoder::SrlState;

// A digest with a state more.
fn with_state(digest: u64, state: SrlState) -> u64 {
    digests::with(
        digest,
        &[
            state.reader.byte_idx as u64,
            u64::from(state.reader.bit_idx),
            u64::from(state.kp),
            state.zero_run_remaining as u64,
            u64::from(state.nonzero_pending),
        ],
    )
}

// A digest with what the port decodes from a stream into an output; a refusal counts as no number that a recording has.
pub fn with_decoded(digest: u64, src: &[u8], out: &mut [i16], count: usize, width: u8) -> u64 {
    let mut state = SrlState::new();
    match srl_decoder::decode(src, &mut state, out, count, width) {
        Ok(decoded) => {
            let values = digests::with(digest, &out[..decoded.count.min(out.len())]);
            digests::mixed(with_state(values, state), decoded.missing)
        }
        Err(refusal) => digests::mixed(digest, u64::MAX - u64::from(refusal.number())),
    }
}

// A digest with the stream of one byte, or of two, that ends so.
fn with_last(digest: u64, width: u8, count: u8, length: u8, first: u8, last: u8) -> u64 {
    let both = [first, last];
    let src = if length == 1 { &both[1..] } else { &both };
    with_decoded(digest, src, &mut [0; 255], usize::from(count), width)
}

// The digest of the streams that end in each of the 256 bytes.
fn digest(width: u8, count: u8, length: u8, first: u8) -> u64 {
    (0..=u8::MAX).fold(0, |d, last| with_last(d, width, count, length, first, last))
}

// Whether the port agrees with a case.
#[inline(never)]
pub fn agrees(c: &[u8]) -> bool {
    let [width, count, length, first]: [u8; 4] = number::bytes_at(c, 0);
    digest(width, count, length, first) == number::u64_at(c, 4)
}
