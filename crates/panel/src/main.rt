// `panel demo [FOLDER]` shows a picture that sharpens: a panel with the lens power -0.75 is drawn, its coefficients are cut to a first picture,
// and three upgrade passes bring the rest, once whole and once cut half-way in the second pass. Each stage is written as a PNG image, with a
// line of figures; the last image has the places of a component, coloured by band. Two other ladders, of one pass and of six, are compared with the
// whole stream. FOLDER is where the images go, the folder `pictures` if none is named; it is made where it is not there.
#![tactic(auto)]

use panel_output::report;
use std::env::{Env, FillError};
use std::io;
use std::rt::Files;

mod demo;
mod ladders;
mod passes;

// Whether there is an argument with a number.
fn has_argument(rt: &impl Env, i: usize) -> bool {
    !matches!(rt.arg(i, &mut []), Err(FillError::NotPresent))
}

// Whether the first argument is the word `demo`.
fn is_demo(rt: &impl Env) -> bool {
    let mut word = [0; 8];
    match rt.arg(1, &mut word) {
        Ok(n) => &word[..n] == b"demo".as_slice(),
        Err(_) => false,
    }
}

// Runs the demo in the folder that the second argument names.
fn demo_in_folder(rt: &(impl Env + Files + Print + Eprint)) -> io::Result<()> {
    let mut folder = [0; 3072];
    match rt.arg(2, &mut folder) {
        Ok(0) => rt.eprint("panel: FOLDER is empty\n"),
        Ok(n) => demo::demo(rt, &folder[..n]),
        Err(_) => rt.eprint("panel: FOLDER: File name too long\n"),
    }
}

fn main(rt: HostRuntime) -> io::Result<()> {
    if !has_argument(&rt, 1) || has_argument(&rt, 3) || !is_demo(&rt) {
        return report::usage(&rt);
    }
    if has_argument(&rt, 2) {
        return demo_in_folder(&rt);
    }
    demo::demo(&rt, b"pictures")
}
