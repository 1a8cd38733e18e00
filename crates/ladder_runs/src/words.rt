// Random words, and what is chosen by them.
ghost use Rattle.std.specs.Prelude.{◌≤◌};

use replay_input::{component, digests};

// The first word of a case, by what it is for. It is not 0, which would stay 0.
pub fn first(seed: u64, case: u64, purpose: u64) -> u64 {
    let a = digests::mixed(digests::mixed(0, seed), seed);
    let b = digests::mixed(digests::mixed(a, case), case);
    let c = digests::mixed(digests::mixed(b, purpose), purpose);
    component::next(c | 1)
}

pub fn next(word: u64) -> u64 {
    component::next(word)
}

// How many passes a ladder has: 1 to 8.
pub fn passes(word: u64) -> u16
    ensures { result ≤ 8 }
{
    1 + (word / 4096 % 8) as u16
}

// Whether a case has the reduce-extrapolate layout.
pub fn is_extrapolate(case: u64) -> bool {
    case % 2 == 0
}
