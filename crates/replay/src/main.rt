// Replays recorded answers of the Rust. Reads recorded cases from standard input (oracle/README.md has the format), calls the port on each and
// compares; writes a line for each kind with the number of cases and of differences, and shows the first case of each kind that differs.
#![tactic(auto)]

use replay_input::kind::Kind;
use replay_input::report::{self, Tally};
use std::fmt;
use std::io::{self, Read};

mod cuts;
mod kinds;
mod ladder;
mod tiles;

// How a run ends.
#[derive(Clone, Copy, Debug)]
enum Ending {
    // At the record that ends a recording.
    Whole,
    // Before that record, where the turns are used up.
    GoesOn,
    // At the input's end, before that record or within one, or at a payload that ends within a case.
    Cut,
    // At a record of a kind that is not known here.
    Unknown,
    // At a record with a payload of more than 65,536 bytes.
    Long,
}

impl fmt::Display for Ending {
    fn fmt<W: fmt::Write>(&self, f: &mut fmt::Formatter<W>) -> fmt::Result {
        f.write_str(match self {
            Ending::Whole => "the recording was read to its end",
            Ending::GoesOn => "the recording goes on",
            Ending::Cut => "the recording is cut",
            Ending::Unknown => "a record of an unknown kind: nothing after it was read",
            Ending::Long => "a record of more than 65536 bytes: nothing after it was read",
        })
    }
}

// Why no record after this one is replayed.
#[derive(Debug, Drop)]
enum Stop {
    Ended(Ending),
    Failed(io::Error),
}

impl From<Ending> for Stop {
    fn from(ending: Ending) -> Stop {
        Stop::Ended(ending)
    }
}

impl From<io::Error> for Stop {
    fn from(error: io::Error) -> Stop {
        Stop::Failed(error)
    }
}

// Replays one case, which is counted.
fn replay_case(rt: &impl Print, kind: Kind, case: &[u8], tally: &mut Tally) -> io::Result<()> {
    tally.cases = tally.cases.wrapping_add(1);
    if kinds::agrees(kind, case) {
        return Ok(());
    }
    if tally.differences == 0 {
        report::difference(rt, kind, tally.cases, case)?;
    }
    tally.differences = tally.differences.wrapping_add(1);
    Ok(())
}

// Replays the cases of a payload, which lie one after another unless it is one case, up to one that is cut.
fn replay_cases(
    rt: &impl Print,
    kind: Kind,
    payload: &[u8],
    tally: &mut Tally,
) -> Result<(), Stop> {
    let Some(size) = kind.case_size() else {
        replay_case(rt, kind, payload, tally)?;
        return Ok(());
    };
    for case in payload.chunks(size) {
        if case.len() < size {
            return Err(Stop::Ended(Ending::Cut));
        }
        replay_case(rt, kind, case, tally)?;
    }
    Ok(())
}

// Reads so many bytes of the input.
fn read(input: &mut impl Read, buffer: &mut [u8]) -> Result<(), Ending> {
    input.read_exact(buffer).map_err(|_| Ending::Cut)
}

// Reads one record into `buffer` and replays it.
fn replay_record(
    rt: &impl Print,
    input: &mut impl Read,
    buffer: &mut [u8; 65536],
    tallies: &mut [Tally; 256],
) -> Result<(), Stop> {
    let mut head = [0u8; 5];
    read(input, &mut head)?;
    let [number, a, b, c, d] = head;
    if number == 0 {
        return Err(Stop::Ended(Ending::Whole));
    }
    let kind = Kind::try_from(number).map_err(|_| Ending::Unknown)?;
    let len = u32::from_le_bytes([a, b, c, d]) as usize;
    if len > buffer.len() {
        return Err(Stop::Ended(Ending::Long));
    }
    read(input, &mut buffer[..len])?;
    replay_cases(rt, kind, &buffer[..len], &mut tallies[usize::from(number)])
}

// Replays records up to the end of the input, or up to what cannot be replayed. A proved loop has to end, so it has a number of turns that no
// run uses up.
fn replay_all(
    rt: &impl Print,
    input: &mut impl Read,
    tallies: &mut [Tally; 256],
) -> io::Result<Ending> {
    let mut buffer = [0u8; 65536];
    for _ in 0..u64::MAX {
        match replay_record(rt, input, &mut buffer, tallies) {
            Ok(()) => {}
            Err(Stop::Ended(ending)) => return Ok(ending),
            Err(Stop::Failed(error)) => return Err(error),
        }
    }
    Ok(Ending::GoesOn)
}

fn main(rt: HostRuntime) -> io::Result<()> {
    let mut tallies = [Tally::default(); 256];
    let ending = replay_all(&rt, &mut rt.reader(), &mut tallies)?;
    report::kinds(&rt, &tallies)?;
    println!(rt; "{ending}")
}
