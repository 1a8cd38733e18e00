// What the program writes.
use crate::kind::Kind;
use std::fmt::Display;
use std::io;

// How many cases of a kind there were, and in how many the port does not agree.
#[derive(Clone, Copy, Debug, Default)]
pub struct Tally {
    pub cases: u64,
    pub differences: u64,
}

impl Tally {
    // Both together.
    fn plus(self, other: Tally) -> Tally {
        Tally {
            cases: self.cases.wrapping_add(other.cases),
            differences: self.differences.wrapping_add(other.differences),
        }
    }
}

// A case in which the port does not agree, by its number within the kind, with its bytes.
pub fn difference(rt: &impl Print, kind: Kind, number: u64, case: &[u8]) -> io::Result<()> {
    print!(rt; "difference: {kind}, case {number}:")?;
    for byte in case {
        print!(rt; " {byte:02x}")?;
    }
    println!(rt)
}

// A name, and the counts.
fn line(rt: &impl Print, name: &impl Display, tally: Tally) -> io::Result<()> {
    println!(rt;
        "{name}: {} cases, {} differences",
        tally.cases, tally.differences
    )
}

// A line for each kind, and one for all.
pub fn kinds(rt: &impl Print, tallies: &[Tally; 256]) -> io::Result<()> {
    for (number, tally) in (0..=255u8).zip(tallies) {
        if let Ok(kind) = Kind::try_from(number) {
            line(rt, &kind, *tally)?;
        }
    }
    let all = tallies
        .iter()
        .fold(Tally::default(), |sum, tally| sum.plus(*tally));
    line(rt, &"all", all)
}
