// SRL streams as srl.rs holds them: a decoder that keeps its lent stream beside its places, and a whole stream in one call.
// The decoder's functions are thin: the work is done on the slice and the plain state (`srl_decoder`). `srl` hands them on.

#![tactic(auto)]

ghost use Rattle.std.specs.Prelude.{◌≡◌};
ghost use Rattle.srl_decoder.specs.Decode.{start_state};
ghost use Rattle.srl_held.specs.Held.{decoder_at, DecodesHeld, DecodesStream};
ghost use Rattle.srl_held.specs.Stream.{EncodesStream};

use answer::Refusal;
use srl_decoder::{Decoded, SrlState};
use srl_encoder::{SrlWriter, encoder};

// The decoder of a stream: the stream, and where it stands.
#[derive(Clone, Copy)]
pub struct SrlDecoder<'a> {
    pub src: &'a [u8],
    pub state: SrlState,
}

impl<'a> SrlDecoder<'a> {
    // The decoder at the start of a stream.
    pub fn new(src: &'a [u8]) -> SrlDecoder<'a>
        ensures { result ≡ decoder_at src.entry start_state }
    {
        SrlDecoder {
            src,
            state: SrlState::new(),
        }
    }

    // Stores the next `num_values` values at the front of `out`.
    pub fn decode(
        &mut self,
        out: &mut [i16],
        num_values: usize,
        num_bits: u8,
    ) -> Result<Decoded, Refusal>
        ensures { DecodesHeld self.old out.old num_values num_bits result self.new out.new }
    {
        srl_decoder::decode(self.src, &mut self.state, out, num_values, num_bits)
    }
}

// The first `num_values` values of a stream, at the front of `out`; with what was stored, the decoder's state behind them.
pub fn decode_srl(
    src: &[u8],
    out: &mut [i16],
    num_values: usize,
    num_bits: u8,
) -> Result<(Decoded, SrlState), Refusal>
    ensures { DecodesStream src.now out.old num_values num_bits result out.new }
{
    let mut state = SrlState::new();
    let decoded = srl_decoder::decode(src, &mut state, out, num_values, num_bits)?;
    Ok((decoded, state))
}

// Writes the whole stream of the values, of `num_bits` bits where they are nonzero, from the start of `out`: how many bytes there are.
// The end is stored first, where it will stand, so that a stream that is too long is refused before any value is stored.
pub fn encode_srl(values: &[i16], out: &mut [u8], num_bits: u8) -> Result<usize, Refusal>
    ensures { EncodesStream values.now out.old num_bits result out.new }
{
    let fresh = SrlWriter::new();
    if !srl_rules::width_ok(num_bits) {
        return Err(Refusal::InvalidBitCount);
    }
    encoder::values_fault(values, 0, num_bits)?;
    if encoder::exceeds(values, fresh, num_bits, out.len()) {
        return Err(Refusal::OutputTooShort);
    }
    // What the values leave, found out over a scratch byte.
    let mut scratch = [0u8; 1];
    let done = encoder::put_call(values, fresh, &mut scratch, num_bits);
    let (front, rest) = out.split_at_mut(done.count);
    let end = srl_encoder::finish(&done.state, rest)?;
    encoder::put_call(values, fresh, front, num_bits);
    Ok(done.count + end)
}
