// What the places of a band give: a value 0 for the SRL stream (class 0), a number for the raw stream (1), or a value that is not 0 (2). A class is a
// byte, and no enum, since the loops add classes up and join them by `|`, many at a time.
ghost use Rattle.std.specs.Prelude.{◌≡◌, cond, ℕ, ◌+◌, ◌≤◌, ◌<◌, length, get_or};
ghost use Rattle.upgrade_steps.specs.Inner.{band_step};
ghost use Rattle.progressive_encoder.specs.Inner.{Part, class_of, Classed, sum_from};

use crate::rule::Rule;

// By whether a place has an SRL value, and whether that is 0.
fn class_by(given: bool, zero: bool) -> u8
    ensures { result ≡ cond given (cond zero 0 2) 1 }
{
    if given {
        return if zero { 0 } else { 2 };
    }
    1
}

// The class of a place. Both tests are made first: a branch before the second would keep the compiler from doing several places at a time.
fn class_of<R: Rule>(t: upgrade_steps::BandStep, c: i16, p: i16, s: i8) -> u8
    requires { t.position ≤ 15 }
    ensures { result ≡ class_of R.rule (band_step t) c p s }
{
    let zero = R::value_is_zero(c, p, t.position);
    class_by(upgrade_steps::from_srl(t, s), zero)
}

// The class of each place. There is no branch, so the compiler does several places at a time.
pub fn classify<R: Rule>(
    coefficients: &[i16],
    prev_coefficients: &[i16],
    sign: &[i8],
    t: upgrade_steps::BandStep,
    classes: &mut [u8],
)
    requires { Part coefficients.now prev_coefficients.now sign.now
        × (length coefficients.now ≤ length classes.old)
        × (t.position ≤ 15) }
    ensures { Classed R.rule (band_step t)
        coefficients.now prev_coefficients.now sign.now classes.new }
{
    for i in 0..coefficients.len() {
        classes[i] = class_of::<R>(t, coefficients[i], prev_coefficients[i], sign[i]);
    }
}

// A number that none of the eight classes from `i` on exceeds; it is below 2 where all of them are. They are written out, so that one load takes all eight.
pub fn at_most(classes: &[u8], i: usize) -> u8
    requires { i + 8 ≤ length classes.now }
    ensures { (k : ℕ) → k < 8 → get_or classes.now (i + k) 0 ≤ result }
{
    let low = classes[i] | classes[i + 1] | classes[i + 2] | classes[i + 3];
    let high = classes[i + 4] | classes[i + 5] | classes[i + 6] | classes[i + 7];
    low | high
}

fn wide(x: u8) -> usize
    ensures { (result ≡ x) × (result < 256) }
{
    x as usize
}

// How many of the eight classes from `i` on are 0, where none is above 1.
pub fn zeros_of_eight(classes: &[u8], i: usize) -> usize
    requires { (i + 8 ≤ length classes.now) × ((k : ℕ) → k < 8 → get_or classes.now (i + k) 0 ≤ 1) }
    ensures { result + sum_from classes.now i 8 ≡ 8 }
{
    let low = wide(classes[i]) + wide(classes[i + 1]) + wide(classes[i + 2]) + wide(classes[i + 3]);
    let high = wide(classes[i + 4])
        + wide(classes[i + 5])
        + wide(classes[i + 6])
        + wide(classes[i + 7]);
    8 - (low + high)
}
