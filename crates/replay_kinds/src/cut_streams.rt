// The SRL and raw streams of kind 46, before they are cut: what a seed and a sort give. oracle/README.md has the rule.
use replay_input::component::Words;
use srl_encoder::SrlWriter;

// A byte of a stream that no writer made, by its place and the place's word.
fn byte(sort: u8, i: usize, word: u64) -> u8 {
    let [a, b, d, e, _, _, _, _] = word.to_le_bytes();
    match sort {
        0 => a,
        1 => a & b & d & e,
        2 => a | b | d | e,
        _ if i == 0 => 128 + a / 64 * 32,
        _ => 0,
    }
}

// Makes a stream that no writer made.
fn fill_bytes(sort: u8, seed: u64, out: &mut [u8]) {
    for ((i, x), word) in out.iter_mut().enumerate().zip(Words(seed)) {
        *x = byte(sort, i, word);
    }
}

// A value that is written, by its word: of sort 4 one of four, of sort 5 each is not zero.
fn value(sort: u8, word: u64) -> i16 {
    if sort == 4 && word % 4 != 0 {
        return 0;
    }
    fixed::with_sign((word / 256 % 512) as u16 + 1, word / 268435456 % 2 == 1)
}

// Makes a stream as the port writes it: the whole bytes of 200 values of 15 bits. A refusal leaves it as it is.
fn write(sort: u8, seed: u64, out: &mut [u8]) {
    let mut values = [0i16; 200];
    for (x, word) in values.iter_mut().zip(Words(seed)) {
        *x = value(sort, word);
    }
    let _ = srl_encoder::encode(&values, &mut SrlWriter::new(), out, 15);
}

// Makes a stream of a sort.
pub fn fill(sort: u8, seed: u64, out: &mut [u8]) {
    match sort {
        4 | 5 => write(sort, seed, out),
        _ => fill_bytes(sort, seed, out),
    }
}
