// Random targets: what ladders bring a tile nearer to.
ghost use Rattle.std.specs.Prelude.{◌≡◌, ◌≤◌, length};

use crate::words;

// A magnitude outside the bottom, by the component's sort: sparse, small, dense, and of all sizes up to 255. An SRL value takes as many bits as its
// magnitude, so that these fit their streams.
fn magnitude(sort: u64, word: u64) -> u16 {
    let m = (word / 256 % 1024) as u16;
    match sort {
        0 if word / 1048576 % 32 > 0 => 0,
        0 => m,
        1 => m % 8,
        2 => m % 64,
        _ => m % 256 >> (word / 1048576 % 9),
    }
}

// A coefficient: in the bottom any number.
fn coefficient(is_bottom: bool, sort: u64, word: u64) -> i16 {
    let negative = word / 1099511627776 % 2 == 1;
    if is_bottom {
        return fixed::with_sign((word / 256 % 32769) as u16, negative);
    }
    fixed::with_sign(magnitude(sort, word), negative)
}

// The numbers that every component has, inside and outside of the bottom: the ends of the range, and some near 0.
fn edge(n: u64) -> i16 {
    match n % 5 {
        0 => -32768,
        1 => 32767,
        2 => 1,
        3 => -1,
        _ => -7,
    }
}

// Puts each of those numbers at two places outside the bottom and at two of its last 60, no two at the same place, in either layout.
fn put_edges(word: u64, into: &mut [i16])
    requires { length into.old ≡ 4096 }
{
    let mut w = word;
    for n in 0..10 {
        w = words::next(w);
        let value = edge(n as u64 + word / 256 % 5);
        let outside = 400 * n + (w / 256 % 400) as usize;
        into[outside] = value;
        let inside = 4095 - 6 * n - (w / 1048576 % 6) as usize;
        into[inside] = value;
    }
}

// Makes a component.
fn fill(word: u64, bottom: usize, into: &mut [i16]) {
    let sort = word / 256 % 4;
    let mut w = word;
    for (i, value) in into.iter_mut().enumerate() {
        w = words::next(w);
        *value = coefficient(i >= bottom, sort, w);
    }
}

// Makes the component with a number.
fn fill_at(word: u64, k: usize, e: bool, into: &mut [i16])
    requires { (k ≤ 2) × (length into.old ≡ 12288) }
{
    let bottom = bands::ll3_offset(e);
    let from = bands::COEFFICIENTS_PER_COMPONENT * k;
    let to = from + bands::COEFFICIENTS_PER_COMPONENT;
    fill(word, bottom, &mut into[from..to]);
    put_edges(words::next(word), &mut into[from..to]);
}

// Makes the target of a case.
pub fn make(seed: u64, case: u64, into: &mut [i16])
    requires { length into.old ≡ 12288 }
{
    let e = words::is_extrapolate(case);
    for k in 0..3 {
        fill_at(words::first(seed, case, k), k as usize, e, into);
    }
}

// Any signs, of which those of the bottom stay.
pub fn any_signs(word: u64, into: &mut [i8]) {
    let mut w = word;
    for sign in into.iter_mut() {
        w = words::next(w);
        *sign = ((w / 256 % 256) as u8).cast_signed();
    }
}
