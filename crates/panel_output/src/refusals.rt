// Refusals of the port, in words (docs/SCOPE.md, "Refusals").
use answer::Refusal;
use std::io;

// One line on standard error.
pub fn say(rt: &impl Eprint, refusal: Refusal) -> io::Result<()> {
    eprintln!(rt; "panel: refused with {}: {refusal}", refusal.number())
}
