// The values of a band for the SRL stream that are not 0, each a word with the zeros before it. Most values are 0, and are only counted.
ghost use Rattle.std.specs.Prelude.{◌≡◌, List, ◌+◌, ◌-◌, ◌*◌, ◌<◌, ◌≤◌, ℤ, length};
ghost use Rattle.bits.specs.Bits.{bit_of};
ghost use Rattle.upgrade_steps.specs.Inner.{band_step};
ghost use Rattle.progressive_encoder.specs.Inner.{place_lists, GoesOver, listed_by, ListsEvents, FewEvents, class_of, TakesEvents, event_magnitude, event_negative, event_width, event_zeros};

use crate::classes;
use crate::rule::Rule;

// How many events are in the list, and how many zeros are pending behind them.
#[derive(Clone, Copy)]
pub struct Events {
    pub count: usize,
    pub zeros: usize,
}

// A value as a word: its magnitude, whether it is negative, its width, and the zeros before it. In one word each value is one store and one load.
fn event_word(m: u16, negative: bool, width: u8, zeros: usize) -> u64
    requires { (width ≤ 15) × (zeros ≤ 4096) }
    ensures { result ≡ m + 65536 * (bit_of negative + 2 * (width + 16 * zeros)) }
{
    let sign = bits::writer::bit_of(negative) as u64;
    let info = sign + 2 * ((width as u64) + 16 * (zeros as u64));
    (m as u64) + 65536 * info
}

// One place, of a known class.
fn list_place<R: Rule>(
    c: i16,
    p: i16,
    class: u8,
    t: upgrade_steps::BandStep,
    words: &mut [u64],
    done: Events,
) -> Events
    requires { (1 ≤ t.width)
        × (t.width ≤ 15)
        × (t.position ≤ 15)
        × (4096 ≤ length words.old)
        × (done.count < 4096)
        × (done.zeros < 4096) }
    ensures { ((s : ℤ) → class ≡ class_of R.rule (band_step t) c p s
        → GoesOver ListsEvents FewEvents (place_lists R.rule (band_step t) c p s) 1
        (listed_by words.old done) (listed_by words.new result))
        × (result.count ≤ done.count + 1)
        × (result.zeros ≤ done.zeros + 1) }
{
    if class < 2 {
        return Events {
            zeros: done.zeros + 1 - (class as usize),
            ..done
        };
    }
    let m = R::value_magnitude(c, p, t.position);
    let negative = R::value_is_negative(c, p, t.position);
    words[done.count] = event_word(m, negative, t.width, done.zeros);
    Events {
        count: done.count + 1,
        zeros: 0,
    }
}

// The places from `from` up to `to`.
fn list_places<R: Rule>(
    coefficients: &[i16],
    prev_coefficients: &[i16],
    t: upgrade_steps::BandStep,
    classes: &[u8],
    from: usize,
    to: usize,
    words: &mut [u64],
    start: Events,
) -> Events
    requires { (from ≤ to)
        × (to ≤ length coefficients.now)
        × (to ≤ length prev_coefficients.now)
        × (to ≤ length classes.now)
        × (1 ≤ t.width)
        × (t.width ≤ 15)
        × (t.position ≤ 15)
        × (4096 ≤ length words.old)
        × (start.count + (to - from) ≤ 4096)
        × (start.zeros + (to - from) ≤ 4096) }
    ensures { TakesEvents R.rule (band_step t)
        coefficients.now prev_coefficients.now classes.now from to
        (listed_by words.old start) (listed_by words.new result) }
{
    let mut done = start;
    for i in from..to {
        let c = coefficients[i];
        let p = prev_coefficients[i];
        done = list_place::<R>(c, p, classes[i], t, words, done);
    }
    done
}

// Eight places: where none has a value other than 0, the zeros are only counted.
fn list_eight<R: Rule>(
    coefficients: &[i16],
    prev_coefficients: &[i16],
    t: upgrade_steps::BandStep,
    classes: &[u8],
    i: usize,
    words: &mut [u64],
    start: Events,
) -> Events
    requires { (i + 8 ≤ length coefficients.now)
        × (i + 8 ≤ length prev_coefficients.now)
        × (i + 8 ≤ length classes.now)
        × (1 ≤ t.width)
        × (t.width ≤ 15)
        × (t.position ≤ 15)
        × (4096 ≤ length words.old)
        × (start.count + 8 ≤ 4096)
        × (start.zeros + 8 ≤ 4096) }
    ensures { TakesEvents R.rule (band_step t)
        coefficients.now prev_coefficients.now classes.now i (i + 8)
        (listed_by words.old start) (listed_by words.new result) }
{
    if classes::at_most(classes, i) < 2 {
        return Events {
            zeros: start.zeros + classes::zeros_of_eight(classes, i),
            ..start
        };
    }
    list_places::<R>(
        coefficients,
        prev_coefficients,
        t,
        classes,
        i,
        i + 8,
        words,
        start,
    )
}

// All places of a band that is not skipped and whose places have these classes.
pub fn list_events<R: Rule>(
    coefficients: &[i16],
    prev_coefficients: &[i16],
    t: upgrade_steps::BandStep,
    classes: &[u8],
    words: &mut [u64],
    start: Events,
) -> Events
    requires { (length prev_coefficients.now ≡ length coefficients.now)
        × (length coefficients.now ≤ length classes.now)
        × (1 ≤ t.width)
        × (t.width ≤ 15)
        × (t.position ≤ 15)
        × (4096 ≤ length words.old)
        × (start.count + length coefficients.now ≤ 4096)
        × (start.zeros + length coefficients.now ≤ 4096) }
    ensures { TakesEvents R.rule (band_step t)
        coefficients.now prev_coefficients.now classes.now 0 (length coefficients.now)
        (listed_by words.old start) (listed_by words.new result) }
{
    let len = coefficients.len();
    let eights = len / 8;
    let mut done = start;
    for k in 0..eights {
        done = list_eight::<R>(
            coefficients,
            prev_coefficients,
            t,
            classes,
            8 * k,
            words,
            done,
        );
    }
    list_places::<R>(
        coefficients,
        prev_coefficients,
        t,
        classes,
        8 * eights,
        len,
        words,
        done,
    )
}

// ---- the parts of a word

pub fn magnitude_of(x: u64) -> u16
    ensures { result ≡ event_magnitude x }
{
    (x % 65536) as u16
}

pub fn is_negative_of(x: u64) -> bool
    ensures { result ≡ event_negative x }
{
    (x / 65536) % 2 == 1
}

pub fn width_of(x: u64) -> u8
    ensures { (result ≡ event_width x) × (result ≤ 15) }
{
    ((x / 131072) % 16) as u8
}

pub fn zeros_of(x: u64) -> usize
    ensures { result ≡ event_zeros x }
{
    (x / 2097152) as usize
}
