// One look at each place of a pass, from band to band by the table of places: what it leaves are the numbers for the raw stream, and the values
// for the SRL stream that are not 0.
ghost use Rattle.std.specs.Prelude.{◌≡◌, true, ◌≤◌, length};
ghost use Rattle.bands.specs.Positions.{row_in_domain};
ghost use Rattle.upgrade_steps.specs.Steps.{steps};
ghost use Rattle.upgrade_steps.specs.Inner.{band_step};
ghost use Rattle.progressive_encoder.specs.Inner.{pass_lists, Slices, Part, GoesOverBand, Before, looked_by, nothing_found, Looks, FewFound, FoundAll};

use crate::events::Events;
use crate::rule::Rule;
use crate::{classes, events, numbers};

// What a look has found: how many numbers, and the values that are not 0.
#[derive(Clone, Copy)]
pub struct Found {
    pub numbers: usize,
    pub events: Events,
}

// One band more: of width 0 it is skipped.
fn look_band<R: Rule>(
    coefficients: &[i16],
    prev_coefficients: &[i16],
    sign: &[i8],
    t: upgrade_steps::BandStep,
    raws: &mut [u32],
    words: &mut [u64],
    done: Found,
) -> Found
    requires { Part coefficients.now prev_coefficients.now sign.now
        × (t.width ≤ 15)
        × (t.position ≤ 15)
        × (4096 ≤ length raws.old)
        × (4096 ≤ length words.old)
        × Before FewFound (looked_by raws.old words.old done) (length coefficients.now) }
    ensures { GoesOverBand R.rule Looks FewFound (band_step t)
        coefficients.now prev_coefficients.now sign.now
        (looked_by raws.old words.old done) (looked_by raws.new words.new result) }
{
    if t.width == 0 {
        return done;
    }
    let mut classes = [0u8; 1024];
    classes::classify::<R>(coefficients, prev_coefficients, sign, t, &mut classes);
    Found {
        numbers: numbers::list_numbers::<R>(
            coefficients,
            prev_coefficients,
            t,
            &classes,
            raws,
            done.numbers,
        ),
        events: events::list_events::<R>(
            coefficients,
            prev_coefficients,
            t,
            &classes,
            words,
            done.events,
        ),
    }
}

// The ten bands.
pub fn look_bands<R: Rule>(
    coefficients: &[i16],
    prev_coefficients: &[i16],
    prev: [u8; 10],
    curr: [u8; 10],
    sign: &[i8],
    use_reduce_extrapolate: bool,
    raws: &mut [u32],
    words: &mut [u64],
) -> Found
    requires { (row_in_domain prev ≡ true)
        × (row_in_domain curr ≡ true)
        × Slices coefficients.now prev_coefficients.now sign.now
        × (4096 ≤ length raws.old)
        × (4096 ≤ length words.old) }
    ensures { FoundAll
        (pass_lists R.rule (steps use_reduce_extrapolate prev curr) coefficients.now prev_coefficients.now sign.now)
        (looked_by raws.new words.new result) }
{
    let table = bands::bands_of_places(use_reduce_extrapolate);
    let ends = bands::band_ends(use_reduce_extrapolate);
    let mut done = Found {
        numbers: 0,
        events: Events { count: 0, zeros: 0 },
    };
    // From band to band, which have different lengths.
    let mut i: usize = 0;
    while i < bands::COEFFICIENTS_PER_COMPONENT {
        let stretch = upgrade_steps::stretch_at(&table, ends, prev, curr, i);
        let t = stretch.step;
        let to = stretch.to;
        done = look_band::<R>(
            &coefficients[i..to],
            &prev_coefficients[i..to],
            &sign[i..to],
            t,
            raws,
            words,
            done,
        );
        i = to;
    }
    done
}
