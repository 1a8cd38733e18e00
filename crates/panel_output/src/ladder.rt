// What is said of ladders: several numbers of passes from the same tile to the same positions.
use std::io;

// How many elements of two tiles and of their pixels differ.
#[derive(Clone, Copy)]
pub struct Unlike {
    pub coefficients: u64,
    pub signs: u64,
    pub bytes: u64,
}

// What the lines are compared with.
pub fn heading(rt: &impl Print, bits: u64) -> io::Result<()> {
    println!(rt;
        "\nLadders from the same first cut to the same last positions, beside the whole stream of 3 passes, {bits} bits:"
    )
}

// A ladder's line.
pub fn line(rt: &impl Print, n: u8, bits: u64, unlike: Unlike) -> io::Result<()> {
    let passes = if n == 1 { "pass,   " } else { "passes, " };
    print!(rt; "{n} {passes}{bits:>5} bits: ")?;
    match unlike {
        Unlike {
            coefficients: 0,
            signs: 0,
            bytes: 0,
        } => println!(rt;
            "the same tile, all 12288 coefficients, 12288 signs and 16384 bytes of the picture"
        ),
        Unlike {
            coefficients,
            signs,
            bytes,
        } => println!(rt;
            "ANOTHER tile, {coefficients} coefficients, {signs} signs and {bytes} bytes of the picture differ"
        ),
    }
}
