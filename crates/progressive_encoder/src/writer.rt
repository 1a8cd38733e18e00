// The writer of a pass: one look at each place, both streams measured, and then stored. A refusal alters nothing, so nothing is stored before all of it
// is measured.
ghost use Rattle.std.specs.Prelude.{◌≡◌, true};
ghost use Rattle.bands.specs.Positions.{row_in_domain};
ghost use Rattle.upgrade_steps.specs.Steps.{steps};
ghost use Rattle.progressive_encoder.specs.Inner.{Lists, pass_lists, Slices, looked_by, FewFound, FoundAll, Roomy, MeasuresStreams, WritesStreams};

use crate::look::Found;
use crate::measure::Lengths;
use crate::rule::Rule;
use crate::{Written, look, measure, store};
use answer::Refusal;

// Both streams, from the lists of a look.
fn write_lists(
    raws: &[u32],
    words: &[u64],
    found: Found,
    srl_out: &mut [u8],
    raw_out: &mut [u8],
) -> Result<Written, Refusal>
    requires { Roomy raws.now words.now × FewFound (looked_by raws.now words.now found) 4096 }
    ensures { (l : Lists) → FoundAll l (looked_by raws.now words.now found)
        → WritesStreams l srl_out.old raw_out.old result srl_out.new raw_out.new }
{
    let lengths = measure::measure_lists(raws, words, found);
    if lengths.too_large {
        return Err(Refusal::MagnitudeOutOfRange);
    }
    if raw_out.len() < lengths.raw || srl_out.len() < lengths.srl {
        return Err(Refusal::OutputTooShort);
    }
    Ok(store::store_lists(raws, words, found, srl_out, raw_out))
}

// A pass over a component, at positions in the domain.
pub fn write_pass<R: Rule>(
    coefficients: &[i16],
    prev_coefficients: &[i16],
    prev: [u8; 10],
    curr: [u8; 10],
    sign: &[i8],
    use_reduce_extrapolate: bool,
    srl_out: &mut [u8],
    raw_out: &mut [u8],
) -> Result<Written, Refusal>
    requires { (row_in_domain prev ≡ true) × (row_in_domain curr ≡ true) × Slices coefficients.now prev_coefficients.now sign.now }
    ensures { WritesStreams
        (pass_lists R.rule (steps use_reduce_extrapolate prev curr) coefficients.now prev_coefficients.now sign.now)
        srl_out.old raw_out.old result srl_out.new raw_out.new }
{
    let mut raws = [0u32; 4096];
    let mut words = [0u64; 4096];
    let found = look::look_bands::<R>(
        coefficients,
        prev_coefficients,
        prev,
        curr,
        sign,
        use_reduce_extrapolate,
        &mut raws,
        &mut words,
    );
    write_lists(&raws, &words, found, srl_out, raw_out)
}

// How long both streams of such a pass are, with nothing written.
pub fn measure_pass<R: Rule>(
    coefficients: &[i16],
    prev_coefficients: &[i16],
    prev: [u8; 10],
    curr: [u8; 10],
    sign: &[i8],
    use_reduce_extrapolate: bool,
) -> Lengths
    requires { (row_in_domain prev ≡ true) × (row_in_domain curr ≡ true) × Slices coefficients.now prev_coefficients.now sign.now }
    ensures { MeasuresStreams
        (pass_lists R.rule (steps use_reduce_extrapolate prev curr) coefficients.now prev_coefficients.now sign.now) result }
{
    let mut raws = [0u32; 4096];
    let mut words = [0u64; 4096];
    let found = look::look_bands::<R>(
        coefficients,
        prev_coefficients,
        prev,
        curr,
        sign,
        use_reduce_extrapolate,
        &mut raws,
        &mut words,
    );
    measure::measure_lists(&raws, &words, found)
}
