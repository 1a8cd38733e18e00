// Rows of positions: thirty numbers, ten for each component.
ghost use Rattle.std.specs.Prelude.{◌≤◌};

use crate::words;

// Any positions, 0 to 15.
pub fn any(word: u64) -> [u8; 30] {
    let mut rows = [0; 30];
    let mut w = word;
    for position in rows.iter_mut() {
        w = words::next(w);
        *position = (w / 256 % 16) as u8;
    }
    rows
}

// A number up to a largest one.
fn up_to(most: u8, word: u64) -> u8
    ensures { result ≤ most }
{
    (word % (most as u64 + 1)) as u8
}

// A position between two, either of them included: often the first, so that a band is skipped.
fn between(from: u8, to: u8, word: u64) -> u8 {
    if from <= to {
        return to;
    }
    if word / 65536 % 4 == 0 {
        return from;
    }
    from - up_to(from - to, word / 256)
}

// Rows between two, chosen band by band. None is above the first ones where the others are not.
pub fn lower(from: [u8; 30], to: [u8; 30], word: u64) -> [u8; 30] {
    let mut rows = from;
    let mut w = word;
    for (position, last) in rows.iter_mut().zip(&to) {
        w = words::next(w);
        *position = between(*position, *last, w);
    }
    rows
}

// Whether a case ends at position 0 everywhere: two of eight do, one in each layout.
pub fn is_whole(case: u64) -> bool {
    case % 8 < 2
}

// The last rows of a case.
pub fn last(case: u64, start: [u8; 30], word: u64) -> [u8; 30] {
    if is_whole(case) {
        return [0; 30];
    }
    lower(start, [0; 30], word)
}

// The rows of a pass with so many passes left behind it: the last rows where none is left, else any on the way; one pass of eight moves nothing.
pub fn rung(left: u16, from: [u8; 30], to: [u8; 30], word: u64) -> [u8; 30] {
    if left == 0 {
        return to;
    }
    if word / 16 % 8 == 0 {
        return from;
    }
    lower(from, to, word)
}
