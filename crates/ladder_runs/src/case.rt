// One case: a target, a tile cut from it, and two ladders from that tile to the same last rows, by either rule.
ghost use Rattle.std.specs.Prelude.{◌≡◌, length};

use crate::counts::Counts;
use crate::{climb, cut, judge, report, rows, targets, words};
use answer::Refusal;
use std::io;
use tile::TileState;

// What a case came to, by the symmetric rule and by the source's.
#[derive(Clone, Copy)]
pub struct Both {
    pub symmetric: Counts,
    pub source: Counts,
}

// What a case's ladders have in common.
#[derive(Clone, Copy)]
struct Case<'a> {
    seed: u64,
    case: u64,
    // What they go towards, the tile that they start from, and the rows that they end at.
    full: &'a [i16; bands::COEFFICIENTS_PER_TILE],
    start: &'a TileState,
    last: [u8; 30],
    // What they are to end at.
    expected: &'a [i16; bands::COEFFICIENTS_PER_TILE],
    expected_signs: &'a [i8; bands::COEFFICIENTS_PER_TILE],
}

// A ladder's end, if no pass was refused, and what it counts as.
#[derive(Clone, Copy)]
struct Ended {
    end: Option<TileState>,
    counts: Counts,
}

impl Case<'_> {
    fn which(self, symmetric: bool, ladder: report::Ladder) -> report::Which {
        report::Which {
            symmetric,
            seed: self.seed,
            case: self.case,
            ladder,
        }
    }

    // The ladder with a number, its passes and its rows chosen by its own word.
    fn ladder(self, rt: &impl Print, symmetric: bool, number: u64) -> io::Result<Ended> {
        let w = self.which(symmetric, report::Ladder::Number(number));
        let Case {
            seed,
            case,
            full,
            start,
            last,
            expected,
            expected_signs,
        } = self;
        let word = words::first(seed, case, number.wrapping_add(5));
        let passes = words::passes(word);
        match climb::climb(symmetric, full, start, last, passes, word) {
            Ok(end) => {
                let n = judge::ladder(rt, w, &end, passes, last, expected, expected_signs)?;
                Ok(Ended {
                    end: Some(end),
                    counts: Counts::one(passes, Ok(n)),
                })
            }
            Err(climb::Refused { refusal, passes }) => {
                report::refused(rt, w, refusal, passes)?;
                Ok(Ended {
                    end: None,
                    counts: Counts::one(passes, Err(refusal)),
                })
            }
        }
    }

    // Two ladders by a rule, and the differences of their ends.
    fn two(self, rt: &impl Print, symmetric: bool) -> io::Result<Counts> {
        let a = self.ladder(rt, symmetric, 1)?;
        let b = self.ladder(rt, symmetric, 2)?;
        let counts = a.counts.plus(b.counts);
        let (Some(one), Some(other)) = (a.end, b.end) else {
            return Ok(counts);
        };
        let w = self.which(symmetric, report::Ladder::Beside);
        Ok(counts.with_differences(judge::pair(rt, w, &one, &other)?))
    }

    fn by_both_rules(self, rt: &impl Print) -> io::Result<Both> {
        let symmetric = self.two(rt, true)?;
        let source = self.two(rt, false)?;
        Ok(Both { symmetric, source })
    }
}

// A case that begins with a tile: what is expected is the target cut at the last rows with the tile's signs in the bottom, and where these rows are 0
// the target itself.
fn from_tile(
    rt: &impl Print,
    seed: u64,
    case: u64,
    full: &[i16; bands::COEFFICIENTS_PER_TILE],
    start: &TileState,
) -> io::Result<Both> {
    let last = rows::last(case, start.prog_quant, words::first(seed, case, 5));
    let mut cut = [0; bands::COEFFICIENTS_PER_TILE];
    let mut expected_signs = start.sign;
    cut::cut_tile(
        full,
        last,
        start.use_reduce_extrapolate,
        &mut cut,
        &mut expected_signs,
    );
    let expected = if rows::is_whole(case) { full } else { &cut };
    let common = Case {
        seed,
        case,
        full,
        start,
        last,
        expected,
        expected_signs: &expected_signs,
    };
    common.by_both_rules(rt)
}

// A tile that is not loaded counts as a ladder that is refused.
fn not_loaded(rt: &impl Print, seed: u64, case: u64, refusal: Refusal) -> io::Result<Both> {
    let w = report::Which {
        symmetric: true,
        seed,
        case,
        ladder: report::Ladder::Number(1),
    };
    report::refused(rt, w, refusal, 0)?;
    Ok(Both {
        symmetric: Counts::one(0, Err(refusal)),
        source: Counts::default(),
    })
}

pub fn run(rt: &impl Print, seed: u64, case: u64) -> io::Result<Both> {
    let mut full = [0; bands::COEFFICIENTS_PER_TILE];
    targets::make(seed, case, &mut full);
    match climb::start(seed, case, &full) {
        Ok(start) => from_tile(rt, seed, case, &full, &start),
        Err(refusal) => not_loaded(rt, seed, case, refusal),
    }
}
