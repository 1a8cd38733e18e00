// Simplified Run-Length (SRL) coding, both ways: a port of srl.rs. The decoder and the encoder are crates of their own, so that each is
// proved by itself, and so is the decoder that holds its stream; here they are handed on, and here are the laws of both coders.

#![tactic(auto)]

ghost use Rattle.srl.specs.Laws.{Refusals, HeldRefusals, DecodedMagnitudes, RoundTrip, DecoderResumes, EncoderResumes};
ghost use Rattle.srl.specs.Missing.{SrlMissingBits};
ghost use Rattle.srl.specs.Turns.{SrlBoundedTurns};

pub use answer::Refusal;
pub use srl_decoder::{Decoded, SrlState, decode};
pub use srl_encoder::{MAX_ZERO_RUN, SrlWriter, encode, finish};
pub use srl_held::{SrlDecoder, decode_srl, encode_srl};
pub use srl_rules::{INITIAL_KP, MAX_KP};

// ---- laws: each is what its function ensures

// A refused call gives the refusal's number, no counts and the state handed in, and leaves the output as it was; an accepted one gives
// the counts and the state of the definitions.
pub fn refusals()
    ensures { Refusals }
{}

// The same of a decoder that holds its stream, and of a whole stream.
pub fn held_refusals()
    ensures { HeldRefusals }
{}

// Whatever the stream holds, a decoded value is 0 or has a magnitude of 1 to 2^w - 1, where w is its width.
pub fn decoded_magnitudes()
    ensures { DecodedMagnitudes }
{}

// What `encode` and `finish` wrote `decode` gives back, however both sides split the values into calls.
pub fn round_trip()
    ensures { RoundTrip }
{}

// A state that `decode` hands back is one that it accepts, where the state handed in was.
pub fn decoder_resumes()
    ensures { DecoderResumes }
{}

// A state that `encode` hands back with bytes is one that it accepts.
pub fn encoder_resumes()
    ensures { EncoderResumes }
{}

// A count of missing bits is that of the bits read past the end: 0 if and only if every bit that was read lies in the stream. What
// `encode` and `finish` wrote misses nothing; zero bytes behind a stream change no value, and once it is long enough nothing is missing.
pub fn missing_bits()
    ensures { SrlMissingBits }
{}

// Where the bytes are spent the count of a nonzero value's zeros is given up: the loop turns at most once for each bit that the stream still
// holds behind the sign bit, and once more. Value, place and missing bits are those of the count bit by bit. The dry run over code words
// turns at most once for each bit that the stream still holds.
pub fn bounded_turns()
    ensures { SrlBoundedTurns }
{}
