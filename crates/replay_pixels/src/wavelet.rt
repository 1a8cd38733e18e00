// Kinds 41 and 42: the inverse wavelet, on lists made of a seed and on impulses. oracle/README.md has the rule.
use replay_input::component::{self, Words};
use replay_input::{digests, number, outputs};

const EXTREMES: [i16; 6] = [-32768, -32767, -1, 0, 1, 32767];

// Any magnitude, shifted down so far, with any sign.
fn any(word: u64, drop: u8) -> i16 {
    fixed::with_sign(
        component::shifted((word / 256 % 65536) as u16, drop),
        word / 268435456 % 2 == 1,
    )
}

// A sample of a list, by the list's sort and seed and the place's word.
fn sample(sort: u8, seed: u64, word: u64) -> i16 {
    let drop = sort % 32;
    match sort / 32 {
        0 => any(word, drop),
        1 if word % 16 != 0 => 0,
        1 => any(word, drop),
        2 => EXTREMES[(word / 4294967296 % 6) as usize],
        _ => ((seed % 65536) as u16).cast_signed(),
    }
}

// Makes a list.
fn fill(sort: u8, seed: u64, list: &mut [i16]) {
    for (x, word) in list.iter_mut().zip(Words(seed)) {
        *x = sample(sort, seed, word);
    }
}

// Transforms the elements that are lent of a buffer and of the scratch: the refusal.
fn decode(buffer: &mut [i16], temp: &mut [i16], n: u16, m: u16) -> u8 {
    let n = usize::from(n).min(buffer.len());
    let m = usize::from(m).min(temp.len());
    outputs::refusal(dwt_extrapolate::decode(&mut buffer[..n], &mut temp[..m]))
}

// The buffer and the scratch as one number.
fn digest(buffer: &[i16], temp: &[i16]) -> u64 {
    digests::with(digests::with(0, buffer), temp)
}

// Kind 41: whether the port agrees with a case.
#[inline(never)]
pub fn decode_agrees(c: &[u8]) -> bool {
    let seed = number::u64_at(c, 0);
    let mut buffer = [0i16; 4352];
    let mut temp = [0i16; 4352];
    fill(number::u8_at(c, 8), seed, &mut buffer);
    fill(1, digests::mixed(seed, 1), &mut temp);
    let n = number::u16_at(c, 9);
    let m = number::u16_at(c, 11);
    decode(&mut buffer, &mut temp, n, m) == number::u8_at(c, 13)
        && digest(&buffer, &temp) == number::u64_at(c, 14)
}

// Kind 42: whether the port agrees with a case.
#[inline(never)]
pub fn impulse_agrees(c: &[u8]) -> bool {
    let mut buffer = [0i16; 4352];
    let mut temp = [0i16; 4352];
    if let Some(x) = buffer.get_mut(usize::from(number::u16_at(c, 0))) {
        *x = number::i16_at(c, 2);
    }
    fill(1, digests::mixed(0, 1), &mut temp);
    decode(&mut buffer, &mut temp, 4096, 4096) == 0
        && digest(&buffer, &temp) == number::u64_at(c, 4)
}
