// For programs: a pass over one component, written by either rule. Proved safe and to end.

#![tactic(auto)]

use answer::Refusal;
use progressive_encoder::{Written, encode_upgrade_pass, encode_upgrade_pass_symmetric};

// By the symmetric rule, or by the source's.
pub fn write(
    symmetric: bool,
    target: &[i16],
    before: &[i16],
    prev: [u8; 10],
    curr: [u8; 10],
    sign: &[i8],
    e: bool,
    srl: &mut [u8],
    raw: &mut [u8],
) -> Result<Written, Refusal> {
    if symmetric {
        return encode_upgrade_pass_symmetric(target, before, prev, curr, sign, e, srl, raw);
    }
    encode_upgrade_pass(target, before, prev, curr, sign, e, srl, raw)
}
