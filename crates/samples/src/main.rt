// The bench samples: a line for each with what was asked and what came out. The tables that `bench_samples` proves come first; the other lines
// are tried by this run alone.
#![tactic(auto)]

ghost use Rattle.std.specs.Prelude.{◌<◌};
ghost use Rattle.samples.specs.Samples.{BenchSamples};

use answer::Refusal;
use bands::COEFFICIENTS_PER_COMPONENT;
use progressive::{MissingBits, Written};
use srl::{SrlState, SrlWriter};
use std::fmt::Display;
use std::io;

// What the definitions give for the samples of the tables.
fn bench_samples()
    ensures { BenchSamples }
{}

// The first numbers of a list, each after a space.
fn some<T: Display>(rt: &impl Print, list: &[T], count: usize) -> io::Result<()> {
    for x in list.iter().take(count) {
        print!(rt; " {x}")?;
    }
    Ok(())
}

// The first bytes of a list, in hexadecimal.
fn some_bytes(rt: &impl Print, bytes: &[u8], count: usize) -> io::Result<()> {
    for byte in bytes.iter().take(count) {
        print!(rt; " {byte:02x}")?;
    }
    Ok(())
}

fn refused(rt: &impl Print, refusal: Refusal) -> io::Result<()> {
    println!(rt; " refused with {}", refusal.number())
}

// The end of a stream.
fn show_end(rt: &impl Print, state: &SrlWriter) -> io::Result<()> {
    let mut out = [0u8; 16];
    match srl::finish(state, &mut out) {
        Ok(count) => {
            some_bytes(rt, &out, count)?;
            println!(rt)
        }
        Err(refusal) => refused(rt, refusal),
    }
}

// One call of `encode` from the start, and the end of the stream.
fn show_written(rt: &impl Print, values: &[i16], num_bits: u8) -> io::Result<()> {
    print!(rt; "encode")?;
    some(rt, values, values.len())?;
    print!(rt; ", width {num_bits}:")?;
    let mut state = SrlWriter::new();
    let mut out = [0u8; 16];
    match srl::encode(values, &mut state, &mut out, num_bits) {
        Ok(count) => {
            some_bytes(rt, &out, count)?;
            show_end(rt, &state)
        }
        Err(refusal) => refused(rt, refusal),
    }
}

// One call of `encode` from the start with zeros: how many bytes are whole then, and how many zeros wait.
fn show_zeros(rt: &impl Print, values: &[i16]) -> io::Result<()> {
    let zeros = values.len();
    print!(rt; "encode {zeros} zeros, width 1:")?;
    let mut state = SrlWriter::new();
    match srl::encode(values, &mut state, &mut [0; 16], 1) {
        Ok(count) => println!(rt; " bytes {count}, zeros held {}", state.pending_zeros),
        Err(refusal) => refused(rt, refusal),
    }
}

// One call of `decode` from a state: the values, and how many bits were missing, where any were.
fn show_decoded(
    rt: &impl Print,
    src: &[u8],
    mut state: SrlState,
    count: usize,
    num_bits: u8,
) -> io::Result<()> {
    print!(rt; ", values {count}, width {num_bits}:")?;
    let mut out = [7i16; 16];
    let decoded = match srl::decode(src, &mut state, &mut out, count, num_bits) {
        Ok(decoded) => decoded,
        Err(refusal) => return refused(rt, refusal),
    };
    some(rt, &out, decoded.count)?;
    if decoded.missing > 0 {
        print!(rt; ", bits missing {}", decoded.missing)?;
    }
    println!(rt)
}

// One call of `decode` from the start.
fn show_read(rt: &impl Print, src: &[u8], count: usize, num_bits: u8) -> io::Result<()> {
    print!(rt; "decode")?;
    some_bytes(rt, src, src.len())?;
    show_decoded(rt, src, SrlState::new(), count, num_bits)
}

// One call of `decode` from a later bit of the first byte.
fn show_read_from(
    rt: &impl Print,
    bit_idx: u8,
    src: &[u8],
    count: usize,
    num_bits: u8,
) -> io::Result<()> {
    print!(rt; "decode")?;
    some_bytes(rt, src, src.len())?;
    print!(rt; " from bit {bit_idx}")?;
    let mut state = SrlState::new();
    state.reader.bit_idx = bit_idx;
    show_decoded(rt, src, state, count, num_bits)
}

// What a call that works in place made of a value.
fn show_answer(rt: &impl Print, answer: Result<(), Refusal>, value: i16) -> io::Result<()> {
    match answer {
        Ok(()) => println!(rt; " {value}"),
        Err(refusal) => refused(rt, refusal),
    }
}

// What a pass made of a value, and the bits that were missing of both streams.
fn show_pass_answer(
    rt: &impl Print,
    answer: Result<MissingBits, Refusal>,
    value: i16,
) -> io::Result<()> {
    match answer {
        Ok(missing) => {
            println!(rt;
                " {value}, bits missing: SRL {}, raw {}",
                missing.srl, missing.raw
            )
        }
        Err(refusal) => refused(rt, refusal),
    }
}

// A pass with the raw bits 11 for its first place; every coefficient is the same, and every sign -1.
fn show_pass(
    rt: &impl Print,
    prev: [u8; 10],
    curr: [u8; 10],
    place: usize,
    coefficient: i16,
) -> io::Result<()>
    requires { place < 4096 }
{
    print!(rt; "positions 3 to 1, raw c0, place {place}, sign -1: {coefficient} gives")?;
    let mut coefficients = [coefficient; COEFFICIENTS_PER_COMPONENT];
    let mut sign = [-1i8; COEFFICIENTS_PER_COMPONENT];
    let answer = progressive::decode_upgrade_pass(
        b"",
        b"\xc0",
        prev,
        curr,
        false,
        &mut coefficients,
        &mut sign,
    );
    show_pass_answer(rt, answer, coefficients[place])
}

// A pass over a zero component with both streams empty, and the first place after it.
fn show_empty_pass(rt: &impl Print, use_reduce_extrapolate: bool) -> io::Result<()> {
    let layout = if use_reduce_extrapolate {
        "reduce-extrapolate"
    } else {
        "standard layout"
    };
    print!(rt; "positions 15 to 0, empty streams, {layout}:")?;
    let mut coefficients = [0i16; COEFFICIENTS_PER_COMPONENT];
    let mut sign = [0i8; COEFFICIENTS_PER_COMPONENT];
    let answer = progressive::decode_upgrade_pass(
        b"",
        b"",
        [15; 10],
        [0; 10],
        use_reduce_extrapolate,
        &mut coefficients,
        &mut sign,
    );
    show_pass_answer(rt, answer, coefficients[0])
}

// A pass of the first band from positions 3 to 1, written over zeros.
fn show_upgrade(rt: &impl Print, coefficient: i16) -> io::Result<()> {
    print!(rt; "positions 3 to 1, writing {coefficient} over 0:")?;
    let mut coefficients = [0i16; COEFFICIENTS_PER_COMPONENT];
    coefficients[0] = coefficient;
    let mut srl_out = [0u8; 16];
    let mut raw_out = [0u8; 16];
    match progressive::encode_upgrade_pass(
        &coefficients,
        &[0; COEFFICIENTS_PER_COMPONENT],
        [3, 0, 0, 0, 0, 0, 0, 0, 0, 0],
        [1, 0, 0, 0, 0, 0, 0, 0, 0, 0],
        &[0; COEFFICIENTS_PER_COMPONENT],
        false,
        &mut srl_out,
        &mut raw_out,
    ) {
        Ok(Written { srl, raw }) => {
            some_bytes(rt, &srl_out, srl)?;
            some_bytes(rt, &raw_out, raw)?;
            println!(rt)
        }
        Err(refusal) => refused(rt, refusal),
    }
}

// A component with one value, dequantized.
fn show_dequantized(rt: &impl Print, quantizer: u8, value: i16) -> io::Result<()> {
    print!(rt; "quantizer {quantizer}: {value} gives")?;
    let mut coefficients = [0i16; COEFFICIENTS_PER_COMPONENT];
    coefficients[0] = value;
    let answer = progressive::dequantize_component_ccq(&mut coefficients, [quantizer; 10], false);
    show_answer(rt, answer, coefficients[0])
}

// The colours of a pixel.
fn show_colours(rt: &impl Print) -> io::Result<()> {
    let [red, green, blue] = color::ycbcr_to_rgb(0, 0, 100);
    println!(rt; "y 0, cb 0, cr 100: {red} {green} {blue}")
}

// The first sample of a component that has -32768 in the first place of LL3, 1 in the first place of HL1, and else zeros. The two inner
// blocks leave -32768 in the first place of their picture, which is the LL of the last block: so these are L0 and H0 of its first row, whose
// first sample stands in the scratch. The first column has no high value, and leaves the sample as it is.
fn show_transformed(rt: &impl Print) -> io::Result<()> {
    let mut buffer = [0i16; COEFFICIENTS_PER_COMPONENT];
    let mut temp = [0i16; COEFFICIENTS_PER_COMPONENT];
    buffer[4015] = -32768;
    buffer[0] = 1;
    let answer = dwt_extrapolate::decode(&mut buffer, &mut temp);
    print!(rt;
        "L0 -32768, H0 1: first sample, in the scratch and in the picture: {}",
        temp[0]
    )?;
    show_answer(rt, answer, buffer[0])
}

// How many pixels are the first one before another.
fn alike(bytes: &[u8; bands::PIXEL_BYTES]) -> usize {
    let first = &bytes[..4];
    bytes
        .chunks_exact(4)
        .take_while(|pixel| *pixel == first)
        .count()
}

// The pixels of a tile of zeros, with positions 0 and base quantizers 6. `TileState::reconstruct_to_rgba` hands its fields to this call.
fn show_zero_tile(rt: &impl Print) -> io::Result<()> {
    print!(rt; "a zero extrapolate tile:")?;
    let mut bytes = [7u8; bands::PIXEL_BYTES];
    match pixels::reconstruct_to_rgba(
        [0; bands::COEFFICIENTS_PER_TILE],
        [0; 30],
        [6; 30],
        true,
        &mut bytes,
    ) {
        Ok(()) => {
            some(rt, &bytes, 4)?;
            println!(rt; ", in {} pixels", alike(&bytes))
        }
        Err(refusal) => refused(rt, refusal),
    }
}

// SRL streams, written and read.
fn show_srl(rt: &impl Print) -> io::Result<()> {
    show_written(rt, &[1i16], 1)?;
    show_written(rt, &[-1i16], 1)?;
    show_written(rt, &[0i16], 1)?;
    show_written(rt, &[0i16, 0], 1)?;
    show_written(rt, &[1i16], 2)?;
    show_written(rt, &[2i16], 2)?;
    show_written(rt, &[3i16], 2)?;
    show_read(rt, b"\xff", 2, 1)?;
    show_read(rt, b"", 5, 1)?;
    print!(rt; "finish, nothing written:")?;
    show_end(rt, &SrlWriter::new())?;
    show_written(rt, &[], 16)?;
    show_read(rt, b"", 3, 16)?;
    show_read(rt, b"\xff", 2, 16)?;
    show_read_from(rt, 7, b"\x01", 1, 2)?;
    show_read_from(rt, 7, b"\x01", 1, 16)?;
    show_read(rt, b"\x80", 1, 15)?;
    show_zeros(rt, &[0i16; COEFFICIENTS_PER_COMPONENT])?;
    show_zeros(rt, &[0i16; 4097])
}

// Passes over a component.
fn show_passes(rt: &impl Print) -> io::Result<()> {
    show_pass(rt, [3; 10], [1; 10], 0, -8)?;
    show_pass(
        rt,
        [0, 0, 0, 0, 0, 0, 0, 0, 0, 3],
        [0, 0, 0, 0, 0, 0, 0, 0, 0, 1],
        4032,
        -8,
    )?;
    show_pass(rt, [3; 10], [1; 10], 0, -32768)?;
    show_empty_pass(rt, false)?;
    show_empty_pass(rt, true)?;
    show_upgrade(rt, 7)?;
    show_upgrade(rt, -7)
}

fn main(rt: HostRuntime) -> io::Result<()> {
    bench_samples();
    show_srl(&rt)?;
    show_passes(&rt)?;
    show_dequantized(&rt, 5, -1)?;
    show_dequantized(&rt, 5, 1)?;
    show_dequantized(&rt, 5, -3)?;
    show_dequantized(&rt, 7, 20000)?;
    show_colours(&rt)?;
    show_transformed(&rt)?;
    show_zero_tile(&rt)
}
