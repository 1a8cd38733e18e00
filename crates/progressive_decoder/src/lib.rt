// Upgrade passes over one component, read: a part of progressive.rs. `progressive` hands it on under the source's name.
// Positions go in by value, a row of ten in band order; coefficients, signs and streams are slices that the caller lends.
// A refusal (docs/SCOPE.md, "Refusals") alters nothing.

#![tactic(auto)]

ghost use Rattle.progressive_decoder.specs.Upgrade.{DecodesPass};

mod split;
pub mod upgrade;

use answer::Refusal;

// How many of the bits that a pass reads came from past the end of each stream.
#[derive(Clone, Copy, Debug, PartialEq, Eq)]
pub struct MissingBits {
    pub srl: u32,
    pub raw: u32,
}

// Reads a pass: the coefficients of each band go from its position in `prev` to that in `curr`. It gives the bits that were missing.
pub fn decode_upgrade_pass(
    srl_data: &[u8],
    raw_data: &[u8],
    prev: [u8; 10],
    curr: [u8; 10],
    use_reduce_extrapolate: bool,
    coefficients: &mut [i16],
    sign: &mut [i8],
) -> Result<MissingBits, Refusal>
    ensures { DecodesPass srl_data.now raw_data.now prev curr use_reduce_extrapolate
        coefficients.old sign.old result coefficients.new sign.new }
{
    if coefficients.len() < bands::COEFFICIENTS_PER_COMPONENT
        || sign.len() < bands::COEFFICIENTS_PER_COMPONENT
    {
        return Err(Refusal::SliceTooShort);
    }
    if !upgrade_steps::positions::rows_ok(prev, curr) {
        return Err(Refusal::OutOfDomain);
    }
    Ok(upgrade::upgrade_all(
        srl_data,
        raw_data,
        prev,
        curr,
        use_reduce_extrapolate,
        coefficients,
        sign,
    ))
}
