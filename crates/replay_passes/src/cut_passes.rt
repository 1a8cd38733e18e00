// Kind 46, `decode_upgrade_pass`: what a pass makes of streams that are cut.
use crate::upgrade;
use answer::Refusal;
use progressive_decoder::MissingBits;
use replay_input::{digests, outputs};

// A digest with an answer more: the refusal, the digest of what a call left, and the bits that were missing.
pub fn with_answer(digest: u64, answer: Result<MissingBits, Refusal>, left: u64) -> u64 {
    let missing = answer.unwrap_or(upgrade::NONE_MISSING);
    digests::with(
        digest,
        &[
            u64::from(outputs::refusal(answer)),
            left,
            u64::from(missing.srl),
            u64::from(missing.raw),
        ],
    )
}

// A digest with a pass more, over zeros, from positions 15 to 0.
pub fn with_pass(digest: u64, extrapolate: bool, srl: &[u8], raw: &[u8]) -> u64 {
    let mut coefficients = [0i16; 4096];
    let mut signs = [0i8; 4096];
    let answer = progressive_decoder::decode_upgrade_pass(
        srl,
        raw,
        [15; 10],
        [0; 10],
        extrapolate,
        &mut coefficients,
        &mut signs,
    );
    with_answer(digest, answer, upgrade::digest(&coefficients, &signs))
}
