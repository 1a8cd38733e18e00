// The numbers of a band for the raw stream: first the number that each place would give, several places at a time, and then those of the places that
// give one go into the list.
ghost use Rattle.std.specs.Prelude.{◌≡◌, ◌+◌, ◌-◌, ◌*◌, ◌%◌, ◌^◌, ◌≤◌, List, ℤ, length};
ghost use Rattle.upgrade_steps.specs.Inner.{band_step};
ghost use Rattle.progressive_encoder.specs.Inner.{Part, GoesOverBand, words_of, ListsNumbers, FewWords, Classed, Numbered, TakesNumbers, number_of, number_width_of};

use crate::classes;
use crate::rule::Rule;

// The low bits of a number.
fn low_bits(m: u16, width: u8) -> u16
    requires { width ≤ 15 }
    ensures { result ≡ m % 2 ^ width }
{
    m % (1u16 << width)
}

// The low bits of what each place would give. There is no branch, so the compiler does several places at a time.
fn number_places<R: Rule>(
    coefficients: &[i16],
    prev_coefficients: &[i16],
    t: upgrade_steps::BandStep,
    numbers: &mut [u16],
)
    requires { (length prev_coefficients.now ≡ length coefficients.now)
        × (length coefficients.now ≤ length numbers.old)
        × (t.width ≤ 15)
        × (t.position ≤ 15) }
    ensures { Numbered R.rule (band_step t) coefficients.now prev_coefficients.now numbers.new }
{
    for i in 0..coefficients.len() {
        let m = R::number(t.bottom, coefficients[i], prev_coefficients[i], t.position);
        numbers[i] = low_bits(m, t.width);
    }
}

// A number with its width, as a word.
fn number_word(m: u16, width: u8) -> u32
    requires { width ≤ 15 }
    ensures { result ≡ m + 65536 * width }
{
    (m as u32) + 65536 * (width as u32)
}

// The places from `from` up to `to`. Each number is stored, and counts where the place has class 1: no branch depends on the signs.
fn take_places(
    classes: &[u8],
    numbers: &[u16],
    t: upgrade_steps::BandStep,
    from: usize,
    to: usize,
    raws: &mut [u32],
    start: usize,
) -> usize
    requires { (from ≤ to)
        × (to ≤ length classes.now)
        × (to ≤ length numbers.now)
        × (1 ≤ t.width)
        × (t.width ≤ 15)
        × (4096 ≤ length raws.old)
        × (start + (to - from) ≤ 4096) }
    ensures { TakesNumbers (band_step t) classes.now numbers.now from to
        (words_of raws.old start) (words_of raws.new result) }
{
    let mut n = start;
    for i in from..to {
        raws[n] = number_word(numbers[i], t.width);
        n += (classes[i] % 2) as usize;
    }
    n
}

// Eight places: often none of them gives a number.
fn take_eight(
    classes: &[u8],
    numbers: &[u16],
    t: upgrade_steps::BandStep,
    i: usize,
    raws: &mut [u32],
    start: usize,
) -> usize
    requires { (i + 8 ≤ length classes.now)
        × (i + 8 ≤ length numbers.now)
        × (1 ≤ t.width)
        × (t.width ≤ 15)
        × (4096 ≤ length raws.old)
        × (start + 8 ≤ 4096) }
    ensures { TakesNumbers (band_step t) classes.now numbers.now i (i + 8)
        (words_of raws.old start) (words_of raws.new result) }
{
    if classes::at_most(classes, i) == 0 {
        return start;
    }
    take_places(classes, numbers, t, i, i + 8, raws, start)
}

// All places of a band.
fn take_all(
    classes: &[u8],
    numbers: &[u16],
    t: upgrade_steps::BandStep,
    len: usize,
    raws: &mut [u32],
    start: usize,
) -> usize
    requires { (len ≤ length classes.now)
        × (len ≤ length numbers.now)
        × (1 ≤ t.width)
        × (t.width ≤ 15)
        × (4096 ≤ length raws.old)
        × (start + len ≤ 4096) }
    ensures { TakesNumbers (band_step t) classes.now numbers.now 0 len
        (words_of raws.old start) (words_of raws.new result) }
{
    let eights = len / 8;
    let mut n = start;
    for k in 0..eights {
        n = take_eight(classes, numbers, t, 8 * k, raws, n);
    }
    take_places(classes, numbers, t, 8 * eights, len, raws, n)
}

// The numbers of a band that is not skipped, whose places have these classes: how many are in the list then.
pub fn list_numbers<R: Rule>(
    coefficients: &[i16],
    prev_coefficients: &[i16],
    t: upgrade_steps::BandStep,
    classes: &[u8],
    raws: &mut [u32],
    start: usize,
) -> usize
    requires { (length prev_coefficients.now ≡ length coefficients.now)
        × (length coefficients.now ≤ 1024)
        × (length coefficients.now ≤ length classes.now)
        × (1 ≤ t.width)
        × (t.width ≤ 15)
        × (t.position ≤ 15)
        × (4096 ≤ length raws.old)
        × (start + length coefficients.now ≤ 4096) }
    ensures { (ss : List ℤ) → Part coefficients.now prev_coefficients.now ss
        → Classed R.rule (band_step t) coefficients.now prev_coefficients.now ss classes.now
        → GoesOverBand R.rule ListsNumbers FewWords (band_step t)
        coefficients.now prev_coefficients.now ss
        (words_of raws.old start) (words_of raws.new result) }
{
    let mut numbers = [0u16; 1024];
    number_places::<R>(coefficients, prev_coefficients, t, &mut numbers);
    take_all(classes, &numbers, t, coefficients.len(), raws, start)
}

// ---- the parts of a word

pub fn number_of(x: u32) -> u64
    ensures { result ≡ number_of x }
{
    (x % 65536) as u64
}

pub fn width_of(x: u32) -> u16
    ensures { result ≡ number_width_of x }
{
    (x / 65536) as u16
}
