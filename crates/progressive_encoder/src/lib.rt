// Upgrade passes over one component, written: a part of progressive.rs. `progressive` hands it on under the source's name.
// Positions go in by value, a row of ten in band order; coefficients, signs and streams are slices that the caller lends.
// A refused call alters nothing (docs/SCOPE.md, "Refusals").

#![tactic(auto)]

ghost use Rattle.progressive_encoder.specs.Encode.{floor_rule, symmetric_rule, EncodesPass};
ghost use Rattle.progressive_encoder.specs.Pending.{FewPendingZeros};

mod classes;
mod events;
mod look;
mod measure;
mod numbers;
pub mod rule;
mod store;
pub mod writer;

use answer::Refusal;
use rule::{FloorRule, SymmetricRule};

// How many bytes of the SRL stream and of the raw stream a writer of a pass wrote.
#[derive(Clone, Copy, Debug, PartialEq, Eq)]
pub struct Written {
    pub srl: usize,
    pub raw: usize,
}

// Writes a pass by a rule: what brings a component from `prev_coefficients`, at the positions `prev`, nearer to `coefficients`, at the positions
// `curr`. Nothing is stored before all of it is measured.
fn encode_by<R: rule::Rule>(
    coefficients: &[i16],
    prev_coefficients: &[i16],
    prev: [u8; 10],
    curr: [u8; 10],
    sign: &[i8],
    use_reduce_extrapolate: bool,
    srl_out: &mut [u8],
    raw_out: &mut [u8],
) -> Result<Written, Refusal>
    ensures { EncodesPass R.rule coefficients.now prev_coefficients.now prev curr sign.now
        use_reduce_extrapolate srl_out.old raw_out.old result srl_out.new raw_out.new }
{
    if coefficients.len() < bands::COEFFICIENTS_PER_COMPONENT
        || prev_coefficients.len() < bands::COEFFICIENTS_PER_COMPONENT
        || sign.len() < bands::COEFFICIENTS_PER_COMPONENT
    {
        return Err(Refusal::SliceTooShort);
    }
    if !upgrade_steps::positions::rows_ok(prev, curr) {
        return Err(Refusal::OutOfDomain);
    }
    writer::write_pass::<R>(
        coefficients,
        prev_coefficients,
        prev,
        curr,
        sign,
        use_reduce_extrapolate,
        srl_out,
        raw_out,
    )
}

// Writes a pass as the source does: at a zero sign by floors, and elsewhere by magnitudes, in the bottom too.
pub fn encode_upgrade_pass(
    coefficients: &[i16],
    prev_coefficients: &[i16],
    prev: [u8; 10],
    curr: [u8; 10],
    sign: &[i8],
    use_reduce_extrapolate: bool,
    srl_out: &mut [u8],
    raw_out: &mut [u8],
) -> Result<Written, Refusal>
    ensures { EncodesPass floor_rule coefficients.now prev_coefficients.now prev curr sign.now
        use_reduce_extrapolate srl_out.old raw_out.old result srl_out.new raw_out.new }
{
    encode_by::<FloorRule>(
        coefficients,
        prev_coefficients,
        prev,
        curr,
        sign,
        use_reduce_extrapolate,
        srl_out,
        raw_out,
    )
}

// Writes a pass that cuts a negative coefficient as its positive twin: at a zero sign the difference with its sign kept and its magnitude shifted, in
// the bottom the difference of the floors.
pub fn encode_upgrade_pass_symmetric(
    coefficients: &[i16],
    prev_coefficients: &[i16],
    prev: [u8; 10],
    curr: [u8; 10],
    sign: &[i8],
    use_reduce_extrapolate: bool,
    srl_out: &mut [u8],
    raw_out: &mut [u8],
) -> Result<Written, Refusal>
    ensures { EncodesPass symmetric_rule coefficients.now prev_coefficients.now prev curr sign.now
        use_reduce_extrapolate srl_out.old raw_out.old result srl_out.new raw_out.new }
{
    encode_by::<SymmetricRule>(
        coefficients,
        prev_coefficients,
        prev,
        curr,
        sign,
        use_reduce_extrapolate,
        srl_out,
        raw_out,
    )
}

// While a pass is written, never more zeros are pending than it can have SRL values, of which there are fewer than 4,096.
pub fn few_pending_zeros()
    ensures { FewPendingZeros }
{}
