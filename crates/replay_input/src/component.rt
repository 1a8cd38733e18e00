// The components of kinds 36 to 40, 45 and 47: what a seed and a case's shape give. oracle/README.md has the rule.
ghost use Rattle.std.specs.Prelude.{◌≤◌};

use crate::{digests, number};
use bands::span::{self, Span};

// The next word: a step of xorshift64.
pub fn next(word: u64) -> u64 {
    let a = word ^ (word << 13);
    let b = a ^ (a >> 7);
    b ^ (b << 17)
}

// The words after one, without an end.
#[derive(Clone, Copy)]
pub struct Words(pub u64);

impl Words {
    pub fn next_word(&mut self) -> u64 {
        self.0 = next(self.0);
        self.0
    }
}

impl Iterator for Words {
    type Item = u64;

    fn next(&mut self) -> Option<u64> {
        Some(self.next_word())
    }
}

// A seed that the case's seed gives, by its number.
pub fn seed(c: &[u8], n: u64) -> u64 {
    digests::with(number::u64_at(c, 0), &[n, n, n])
}

// A magnitude, shifted down so far.
pub fn shifted(magnitude: u16, shift: u8) -> u16 {
    magnitude.unbounded_shr(u32::from(shift))
}

// A magnitude without its lowest bits.
fn cut(magnitude: u16, bits: u8) -> u16 {
    let bits = u32::from(bits);
    magnitude.unbounded_shr(bits).unbounded_shl(bits)
}

// How the coefficients of a case are made: its fields of these names.
#[derive(Clone, Copy)]
struct Shape {
    density: u8,
    drop: u8,
    spread: u8,
    mode: u8,
}

impl Shape {
    fn of(c: &[u8]) -> Shape {
        let [density, drop, spread, mode]: [u8; 4] = number::bytes_at(c, 8);
        Shape {
            density,
            drop,
            spread,
            mode,
        }
    }

    // The coefficient that a writer writes.
    fn target(self, word: u64, curr: u8) -> i16 {
        if word % 256 > u64::from(self.density) {
            return 0;
        }
        let negative = word / 268435456 % 2 == 1;
        let shift = (word / 16777216 % 16) as u8 & self.spread;
        let m = shifted(shifted((word / 256 % 65536) as u16, self.drop), shift);
        if self.mode / 16 % 2 == 1 {
            return fixed::with_sign(cut(m, curr), negative);
        }
        fixed::with_sign(m, negative)
    }

    // The sort of the coefficients before the pass of a band: the case's, but for the bottom where it is to be cut with floor.
    fn sort(self, band: usize) -> u8 {
        if self.mode / 32 % 2 == 1 && band == 9 {
            return 1;
        }
        self.mode % 4
    }

    // The coefficient before the pass, by its sort.
    fn before(self, sort: u8, word: u64, target: i16, prev: u8) -> i16 {
        let negative = word / 536870912 % 2 == 1;
        match sort {
            0 => fixed::with_sign(cut(target.unsigned_abs(), prev), target < 0),
            1 => fixed::shift_left_clamp(fixed::shift_right_floor(target, prev), prev),
            2 => fixed::with_sign(
                shifted((word / 4294967296 % 65536) as u16, self.drop),
                negative,
            ),
            _ => fixed::with_sign(65535, negative),
        }
    }

    // The sign before the pass.
    fn sign(self, word: u64, target: i16, before: i16) -> i8 {
        match self.mode / 4 % 4 {
            0 => fixed::sign_of(before),
            1 => ((word / 281474976710656 % 256) as u8).cast_signed(),
            2 => 0,
            _ => fixed::sign_of(target),
        }
    }
}

// What a band's pass goes by: the sort of its coefficients before it, and its positions.
#[derive(Clone, Copy)]
struct BandPass {
    sort: u8,
    prev: u8,
    curr: u8,
}

// A component before a pass, with the coefficients that a writer writes. It has 256 places more than a pass takes.
#[derive(Drop)]
pub struct Component {
    pub targets: [i16; 4352],
    pub befores: [i16; 4352],
    pub signs: [i8; 4352],
}

impl Component {
    pub const ZEROS: Component = Component {
        targets: [0; 4352],
        befores: [0; 4352],
        signs: [0; 4352],
    };

    // Makes the places of a band.
    fn fill_band(&mut self, shape: Shape, pass: BandPass, at: Span, words: &mut Words)
        requires { at.to ≤ 4352 }
    {
        for place in at.from..at.to {
            let word = words.next_word();
            let target = shape.target(word, pass.curr);
            let before = shape.before(pass.sort, word, target, pass.prev);
            self.targets[place] = target;
            self.befores[place] = before;
            self.signs[place] = shape.sign(word, target, before);
        }
    }

    // Makes the component of a seed: the places of the ten bands, each with its positions, and the others behind them.
    pub fn fill_rows(
        &mut self,
        c: &[u8],
        seed: u64,
        extrapolate: bool,
        prev: [u8; 10],
        curr: [u8; 10],
    ) {
        let shape = Shape::of(c);
        let mut words = Words(seed);
        for band in 0..10 {
            let at = span::band_span(extrapolate, band);
            let pass = BandPass {
                sort: shape.sort(band),
                prev: prev[band],
                curr: curr[band],
            };
            self.fill_band(shape, pass, at, &mut words);
        }
        let behind = BandPass {
            sort: shape.sort(10),
            prev: 0,
            curr: 0,
        };
        let rest = Span {
            from: 4096,
            to: 4352,
        };
        self.fill_band(shape, behind, rest, &mut words);
    }

    // Makes the component of a case of kinds 36 to 38 and 47.
    pub fn fill(&mut self, c: &[u8]) {
        let seed = number::u64_at(c, 0);
        let extrapolate = number::flag_at(c, 12);
        self.fill_rows(
            c,
            seed,
            extrapolate,
            number::row_at(c, 13),
            number::row_at(c, 23),
        );
    }
}
