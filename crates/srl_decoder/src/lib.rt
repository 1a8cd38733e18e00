// Simplified Run-Length (SRL) coding, read: the decoder of srl.rs. `srl` hands it on under the source's name.
// A coder's state, streams and values are lent by the caller. A call that is refused (docs/SCOPE.md, "Refusals") alters none of them.

#![tactic(auto)]

ghost use Rattle.std.specs.Prelude.{◌≡◌};
ghost use Rattle.srl_decoder.specs.Decode.{start_state, DecodesSrl};

use answer::Refusal;

pub mod decoder;

// The decoder between two calls.
#[derive(Clone, Copy, Debug, PartialEq, Eq)]
pub struct SrlState {
    pub reader: bits::reader::BitReader,
    pub kp: u8,
    pub zero_run_remaining: usize,
    pub nonzero_pending: bool,
}

// What `decode` stored: how many values, and how many of the bits read came from past the stream's end.
#[derive(Clone, Copy, Debug, PartialEq, Eq)]
pub struct Decoded {
    pub count: usize,
    pub missing: u64,
}

impl SrlState {
    // The decoder at the start of a stream.
    pub fn new() -> SrlState
        ensures { result ≡ start_state }
    {
        SrlState {
            reader: bits::reader::BitReader {
                byte_idx: 0,
                bit_idx: 0,
            },
            kp: srl_rules::INITIAL_KP,
            zero_run_remaining: 0,
            nonzero_pending: false,
        }
    }
}

// Stores the next `num_values` values, of `num_bits` bits where they are nonzero, at the front of `out`.
// A width that no nonzero value can have is refused only where one is due, which is found out before anything is stored.
pub fn decode(
    src: &[u8],
    state: &mut SrlState,
    out: &mut [i16],
    num_values: usize,
    num_bits: u8,
) -> Result<Decoded, Refusal>
    ensures { DecodesSrl src.now state.old out.old num_values num_bits result state.new out.new }
{
    if !decoder::state_ok(*state) {
        return Err(Refusal::ImpossibleState);
    }
    if srl_rules::width_ok(num_bits) {
        return decoder::store_if_room(src, state, out, num_values, num_bits);
    }
    if decoder::any_due(src, *state, num_values).due {
        return Err(Refusal::InvalidBitCount);
    }
    decoder::store_if_room(src, state, out, num_values, 1)
}
