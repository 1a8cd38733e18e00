// Numbers among the arguments: whole numbers of at most nine digits.
use std::env::{Env, FillError};
use std::str;

// The largest number of nine digits.
const MOST: u64 = 999999999;

// The number that some digits give.
fn parsed(digits: &[u8]) -> Option<u64> {
    if !digits.iter().all(|digit| digit.is_ascii_digit()) {
        return None;
    }
    let number = str::from_utf8(digits).ok()?.parse::<u64>().ok()?;
    if number <= MOST { Some(number) } else { None }
}

// Whether there is an argument with a number.
pub fn is_there(rt: &impl Env, i: usize) -> bool {
    !matches!(rt.arg(i, &mut []), Err(FillError::NotPresent))
}

// The argument with a number, if it is a number; a default where there is none.
pub fn number(rt: &impl Env, i: usize, default: u64) -> Option<u64> {
    let mut word = [0; 16];
    match rt.arg(i, &mut word) {
        Ok(n) => parsed(&word[..n]),
        Err(FillError::NotPresent) => Some(default),
        Err(FillError::TooLong) => None,
    }
}
