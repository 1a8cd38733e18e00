// Upgrade passes over one component, read and written, and dequantizing: a port of progressive.rs. Each is a crate of its own, so that each
// is proved by itself; here they are handed on, and here are their laws.
// Positions and quantizers go in by value, a row of ten in band order; coefficients, signs and streams are slices that the caller lends.
// A refused call alters nothing (docs/SCOPE.md, "Refusals").

#![tactic(auto)]

ghost use Rattle.progressive.specs.Laws.{PassRoundTrip};
ghost use Rattle.progressive.specs.Refused.{PassRefusals};
ghost use Rattle.progressive.specs.OwnCuts.{OwnCutsSent};
ghost use Rattle.progressive.specs.Missing.{PassMissingBits};
ghost use Rattle.progressive.specs.CutTrip.{CutRoundTrip};
ghost use Rattle.progressive.specs.Room.{RoomSuffices};
ghost use Rattle.progressive.specs.SmallCases.{SmallCases};

pub use answer::Refusal;
pub use dequantizer::dequantize_component_ccq;
pub use progressive_decoder::{MissingBits, decode_upgrade_pass};
pub use progressive_encoder::{Written, encode_upgrade_pass, encode_upgrade_pass_symmetric};

// What a writer wrote is read back, by whatever rule, and where the source's rule brings a component to its target.
pub fn pass_round_trip()
    ensures { PassRoundTrip }
{}

// By the symmetric rule, over a component that is the target cut at the previous positions, no value is refused by 5, and the reader comes to exactly the
// target cut at the current positions: for every target of sixteen-bit numbers, and every two rows without a raise.
pub fn cut_round_trip()
    ensures { CutRoundTrip }
{}

// A refused call gives the refusal's number and counts of 0, and leaves every slice as it was; an accepted writer gives the counts of both streams.
pub fn refusals()
    ensures { PassRefusals }
{}

// Where a pass by the source's rule goes on from the coefficients' own cut at the previous positions, every value fits its width: it is never refused by 5.
pub fn own_cuts_sent()
    ensures { OwnCutsSent }
{}

// A pass that the writer wrote misses no bit of either stream. A count is 0 if and only if every bit that was read lies in the stream; zero
// bytes behind both streams change nothing but the counts, which go down by 8 for each.
pub fn missing_bits()
    ensures { PassMissingBits }
{}

// A pass that lowers each position by at most w is never refused by 7, by either rule, where its outputs have 504 * 2^w + 2 bytes for the SRL stream and
// 512 * w for the raw stream. At w = 15 these are 16,515,074 and 7,680 bytes, which suffice for every pass.
pub fn room_suffices()
    ensures { RoomSuffices }
{}

// What both rules give for some passes of one place, as a table: -7 over 0 from position 3 to 1 is -3 by the symmetric rule, and -4, which is refused
// by 5, by the source's.
pub fn small_cases()
    ensures { SmallCases }
{}
