// `ladder_runs [SEED [CASES]]` runs ladders: passes that bring a tile nearer to a target, each written from the target and the tile as it then is.
// For each random target two ladders of 1 to 8 passes go from the same tile, the target cut at some rows of positions, to the same last rows. Both
// are to end at the target cut at the last rows, with no pass refused. What differs is shown and counted.
#![tactic(auto)]

use counts::Counts;
use std::io;

mod arguments;
mod case;
mod climb;
mod counts;
mod cut;
mod judge;
mod report;
mod rows;
mod targets;
mod words;

// Runs cases 0 up to a number, and reports.
fn run(rt: &impl Print, seed: u64, cases: u64) -> io::Result<()> {
    let mut by_symmetric = Counts::default();
    let mut by_source = Counts::default();
    for n in 0..cases {
        let done = case::run(rt, seed, n)?;
        by_symmetric = by_symmetric.plus(done.symmetric);
        by_source = by_source.plus(done.source);
    }
    report::all(rt, seed, cases, by_symmetric, by_source)
}

fn main(rt: HostRuntime) -> io::Result<()> {
    if arguments::is_there(&rt, 3) {
        return report::usage(&rt);
    }
    match (
        arguments::number(&rt, 1, 1),
        arguments::number(&rt, 2, 1000),
    ) {
        (Some(seed), Some(cases)) if cases != 0 => run(&rt, seed, cases),
        _ => report::usage(&rt),
    }
}
