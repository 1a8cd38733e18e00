// Outputs: what they hold before a call, so that what lies behind an answer is seen to be as it was, and what is recorded of them.
use crate::number;
use answer::Refusal;

// An element of an output.
pub trait Element: Copy + PartialEq {
    // What an output holds at a place before a call.
    fn before(place: usize) -> Self;

    // The element of a number among those that are recorded from a place on.
    fn recorded(c: &[u8], at: usize, i: usize) -> Self;
}

impl Element for u8 {
    fn before(place: usize) -> u8 {
        (place % 200) as u8 + 55
    }

    fn recorded(c: &[u8], at: usize, i: usize) -> u8 {
        number::u8_at(c, at.saturating_add(i))
    }
}

impl Element for i16 {
    fn before(place: usize) -> i16 {
        -32000 - (place % 256) as i16
    }

    fn recorded(c: &[u8], at: usize, i: usize) -> i16 {
        number::i16_at(c, at.saturating_add(i).saturating_add(i))
    }
}

// Fills an output before a call. Where it is inlined early, the loop over an array becomes one of vector instructions.
#[inline(always)]
pub fn fill<T: Element>(out: &mut [T]) {
    for place in 0..out.len() {
        out[place] = T::before(place);
    }
}

// Fills a list with what is recorded from a place on.
pub fn load<T: Element>(c: &[u8], at: usize, list: &mut [T]) {
    for (i, x) in list.iter_mut().enumerate() {
        *x = T::recorded(c, at, i);
    }
}

// Whether an output begins with as many elements as a call counted, those recorded from a place on, and is as it was behind them.
pub fn holds<T: Element>(out: &[T], count: usize, c: &[u8], at: usize) -> bool {
    count <= out.len()
        && out.iter().enumerate().all(|(i, x)| {
            if i < count {
                *x == T::recorded(c, at, i)
            } else {
                *x == T::before(i)
            }
        })
}

// The number of the refusal in an answer, 0 where there is none.
pub fn refusal<T: Copy>(answer: Result<T, Refusal>) -> u8 {
    match answer {
        Ok(_) => 0,
        Err(refusal) => refusal.number(),
    }
}
