// What the program writes.
use crate::counts::Counts;
use answer::Refusal;
use std::{fmt, io};

pub fn usage(rt: &impl Eprint) -> io::Result<()> {
    eprintln!(rt;
        "usage: ladder_runs [SEED [CASES]]\nSEED and CASES are whole numbers of one to nine digits, CASES not 0; without them 1 and 1000"
    )
}

// One of a case's two ladders, or the second beside the first.
#[derive(Clone, Copy)]
pub enum Ladder {
    Number(u64),
    Beside,
}

impl fmt::Display for Ladder {
    fn fmt<W: fmt::Write>(&self, f: &mut fmt::Formatter<W>) -> fmt::Result {
        match self {
            Ladder::Number(n) => write!(f, "ladder {n}"),
            Ladder::Beside => f.write_str("ladder 2 beside 1"),
        }
    }
}

// Which ladder a line speaks of. A line is written of the symmetric rule only, by which none is expected.
#[derive(Clone, Copy)]
pub struct Which {
    pub symmetric: bool,
    pub seed: u64,
    pub case: u64,
    pub ladder: Ladder,
}

impl fmt::Display for Which {
    fn fmt<W: fmt::Write>(&self, f: &mut fmt::Formatter<W>) -> fmt::Result {
        let Which {
            symmetric: _,
            seed,
            case,
            ladder,
        } = self;
        write!(f, "seed {seed}, case {case}, {ladder}")
    }
}

fn component(k: usize) -> &'static str {
    match k {
        0 => "Y",
        1 => "Cb",
        _ => "Cr",
    }
}

// A coefficient or a sign that differs, at a place of the tile.
pub fn difference<T: fmt::Display + Drop>(
    rt: &impl Print,
    w: Which,
    what: &str,
    place: usize,
    expected: T,
    found: T,
) -> io::Result<()> {
    if !w.symmetric {
        return Ok(());
    }
    let k = component(place / bands::COEFFICIENTS_PER_COMPONENT);
    let at = place % bands::COEFFICIENTS_PER_COMPONENT;
    println!(rt; "difference: {w}: {k}, {what} at place {at}: expected {expected}, found {found}")
}

// Something else that differs.
pub fn unlike(rt: &impl Print, w: Which, what: &str) -> io::Result<()> {
    if !w.symmetric {
        return Ok(());
    }
    println!(rt; "difference: {w}: {what}")
}

// A ladder with a pass that is refused, after so many that are not.
pub fn refused(rt: &impl Print, w: Which, refusal: Refusal, passes: u16) -> io::Result<()> {
    if !w.symmetric {
        return Ok(());
    }
    println!(rt;
        "refused: {w}: after {passes} passes, with {}",
        refusal.number()
    )
}

// ---- what all of it came to

fn symmetric(rt: &impl Print, seed: u64, cases: u64, c: Counts) -> io::Result<()> {
    let Counts {
        ladders,
        passes,
        refused_by_5,
        refused,
        elsewhere: _,
        good: _,
        differences,
    } = c;
    let refusals = refused_by_5.wrapping_add(refused);
    println!(rt;
        "seed {seed}: {cases} targets, {ladders} ladders of 1 to 8 passes, {passes} passes: {refusals} refusals, {differences} differences"
    )
}

fn source(rt: &impl Print, c: Counts) -> io::Result<()> {
    let Counts {
        ladders: _,
        passes: _,
        refused_by_5,
        refused,
        elsewhere,
        good,
        differences: _,
    } = c;
    println!(rt;
        "The same ladders by the source's rule: {refused_by_5} refused with 5, {refused} with another number, {elsewhere} end elsewhere, {good} end at the cut."
    )
}

pub fn all(
    rt: &impl Print,
    seed: u64,
    cases: u64,
    by_symmetric: Counts,
    by_source: Counts,
) -> io::Result<()> {
    println!(rt;
        "Two ladders for each target, from the same cut of it to the same last rows. Each is to end at the target cut at these rows, which\nis the target itself where they are 0, in a fourth of the cases; and both at the same tile."
    )?;
    symmetric(rt, seed, cases, by_symmetric)?;
    source(rt, by_source)?;
    println!(rt;
        "That rule cuts by floor, so its ladders are expected to fail. That they do shows that this run sees a failure."
    )
}
