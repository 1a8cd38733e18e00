// Simplified Run-Length (SRL) coding, written: the encoder of srl.rs. `srl` hands it on under the source's name.
// The caller lends a coder's state, streams and values; a refusal (docs/SCOPE.md, "Refusals") alters none of them.

#![tactic(auto)]

ghost use Rattle.std.specs.Prelude.{◌≡◌};
ghost use Rattle.srl_encoder.specs.Encode.{fresh_writer, EncodesSrl};
ghost use Rattle.srl_encoder.specs.Finish.{FinishesSrl};

use answer::Refusal;

pub mod encoder;

// The most zeros that an encoder keeps pending.
pub const MAX_ZERO_RUN: usize = 4096;

// The encoder between two calls: `bit_count` bits, the number `current`, wait for the next byte.
#[derive(Clone, Copy, Debug, PartialEq, Eq)]
pub struct SrlWriter {
    pub kp: u8,
    pub pending_zeros: usize,
    pub current: u8,
    pub bit_count: u8,
}

impl SrlWriter {
    // The encoder at the start of a stream.
    pub fn new() -> SrlWriter
        ensures { result ≡ fresh_writer }
    {
        SrlWriter {
            kp: srl_rules::INITIAL_KP,
            pending_zeros: 0,
            current: 0,
            bit_count: 0,
        }
    }
}

// Writes the whole bytes that the values complete, from the start of `out`: how many there are.
pub fn encode(
    values: &[i16],
    state: &mut SrlWriter,
    out: &mut [u8],
    num_bits: u8,
) -> Result<usize, Refusal>
    ensures { EncodesSrl state.old values.now out.old num_bits result state.new out.new }
{
    if !encoder::writer_ok(*state) {
        return Err(Refusal::ImpossibleState);
    }
    if !srl_rules::width_ok(num_bits) {
        return Err(Refusal::InvalidBitCount);
    }
    encoder::values_fault(values, state.pending_zeros, num_bits)?;
    if encoder::exceeds(values, *state, num_bits, out.len()) {
        return Err(Refusal::OutputTooShort);
    }
    let done = encoder::put_call(values, *state, out, num_bits);
    *state = done.state;
    Ok(done.count)
}

// Writes the end of the stream from the start of `out`: the pending zeros, the padding and a byte 0. How many bytes there are.
pub fn finish(state: &SrlWriter, out: &mut [u8]) -> Result<usize, Refusal>
    ensures { FinishesSrl state.now out.old result out.new }
{
    if !encoder::writer_ok(*state) {
        return Err(Refusal::ImpossibleState);
    }
    let need = encoder::end_length(*state);
    if out.len() < need {
        return Err(Refusal::OutputTooShort);
    }
    encoder::put_end(out, *state);
    Ok(need)
}
