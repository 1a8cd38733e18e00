// What the program writes to standard output and to standard error.
use std::fmt::Write;
use std::{fmt, io, str};

// Bytes as text, which is all that std writes to standard error.
fn words(bytes: &[u8]) -> &str {
    str::from_utf8(bytes).unwrap_or("(not UTF-8)")
}

// Writes the words of a failure to standard error, and not the number that std puts behind them.
#[derive(Drop)]
struct Reason<'a, R> {
    rt: &'a R,
    is_over: bool,
}

impl<'a, R: Eprint> fmt::Write for Reason<'a, R> {
    fn write_str(&mut self, text: &str) -> fmt::Result {
        if self.is_over || text.starts_with(" (os error ") {
            self.is_over = true;
            return Ok(());
        }
        self.rt.eprint(text).map_err(|_| fmt::Error)
    }
}

// One line on standard error: what failed, and why.
pub fn failure<R: Eprint>(rt: &R, what: &[u8], why: &io::Error) -> io::Result<()> {
    eprint!(rt; "{}: ", words(what))?;
    let mut reason = Reason { rt, is_over: false };
    write!(reason, "{why}")?;
    rt.eprint("\n")
}

pub fn usage(rt: &impl Eprint) -> io::Result<()> {
    eprintln!(rt;
        "usage: panel demo [FOLDER]\nwrites nine PNG images to FOLDER, or to the folder pictures, which is made where it is not there,\nand a line for each stage and for each of two other ladders to standard output"
    )
}

// Bytes that need not be text.
pub fn text(rt: &impl Print, bytes: &[u8]) -> io::Result<()> {
    rt.write_all(bytes)
}

// A row of positions, after its name.
fn positions(rt: &impl Print, name: &str, row: [u8; 10]) -> io::Result<()> {
    print!(rt; "{name:<10}")?;
    for position in row {
        print!(rt; "{position:>4}")?;
    }
    println!(rt)
}

// The figures of a stage.
#[derive(Clone, Copy, Default)]
pub struct Figures {
    // Bits that arrived in this stage, and in all.
    pub bits: u64,
    pub all_bits: u64,
    // Bits that the stage read past the end of its streams.
    pub missing: u64,
    // Places outside the bottom bands with a zero sign and bits to come.
    pub undecided: u64,
    // The mean grey of the minus stroke, and of as much ground above it.
    pub stroke: u64,
    pub ground: u64,
    // The largest difference of a byte of a pixel from the uncut panel's.
    pub difference: u64,
}

// A stage's line, which ends with the name of its file.
pub fn stage(rt: &impl Print, run: &str, stage: &str, f: Figures, file: &[u8]) -> io::Result<()> {
    let Figures {
        bits,
        all_bits,
        missing,
        undecided,
        stroke,
        ground,
        difference,
    } = f;
    print!(rt;
        "{run:<7}{stage:<12}{bits:>7}{all_bits:>9}{missing:>9}{undecided:>11}{stroke:>7}{ground:>8}{difference:>8}  "
    )?;
    text(rt, file)?;
    println!(rt)
}

// What the columns are.
fn legend(rt: &impl Print) -> io::Result<()> {
    println!(rt;
        "\nbits: of upgrade passes, in this stage and in all; the first cut is loaded\nmissing: bits that the stage read past the end of its SRL and raw streams, as zeros\nundecided: places outside LL3 with sign 0 and bits to come, of 12045\nminus, ground: mean grey of the minus stroke, and of as much ground above it\noff by: the largest difference of a colour byte from the uncut panel"
    )
}

// The beginning: the positions of the four stages, and the head of the lines.
pub fn introduce(rt: &impl Print, rows: [[u8; 10]; 4]) -> io::Result<()> {
    print!(rt;
        "panel: -0.75 on one tile of 64 x 64 pixels, sharpened by three upgrade passes\n\npositions  HL1 LH1 HH1 HL2 LH2 HH2 HL3 LH3 HH3 LL3\n"
    )?;
    let [first, one, two, three] = rows;
    positions(rt, "first cut", first)?;
    positions(rt, "pass 1", one)?;
    positions(rt, "pass 2", two)?;
    positions(rt, "pass 3", three)?;
    println!(rt;
        "\nrun    stage          bits   in all  missing  undecided  minus  ground  off by  file"
    )
}

impl Figures {
    // How many greys darker than the ground the minus is.
    fn contrast(self) -> u64 {
        self.ground.saturating_sub(self.stroke)
    }
}

// What both runs came to.
pub fn summary(rt: &impl Print, whole: Figures, cut: Figures, folder: &[u8]) -> io::Result<()> {
    legend(rt)?;
    print!(rt;
        "\nThe whole stream ends {} off the uncut panel at most, with the minus {} greys darker than the ground;\nthe stream that is cut half-way in pass 2 ends {} off, with the minus {} darker. All stages side by side: ",
        whole.difference,
        whole.contrast(),
        cut.difference,
        cut.contrast()
    )?;
    text(rt, folder)?;
    println!(rt; "/sharpening.png")
}
