// The tiles of kinds 39, 40 and 45: what a case's seed, shape and other fields give; kind 39, a tile that is loaded; and kind 45, a tile's
// pixels.
use answer::Refusal;
use replay_input::component::{self, Component};
use replay_input::{digests, number, outputs};
use tile::TileState;

// The three rows at a place.
fn rows_at(c: &[u8], at: u8) -> [[u8; 10]; 3] {
    [0u8, 10, 20].map(|row| number::row_at(c, usize::from(at) + usize::from(row)))
}

// Makes the component with a number as the tile starts from it.
fn fill(c: &[u8], k: u8, made: &mut Component) {
    let seed = component::seed(c, u64::from(k));
    let extrapolate = number::flag_at(c, 79);
    let prev = number::row_at(c, 12 + 10 * usize::from(k));
    made.fill_rows(c, seed, extrapolate, prev, [0; 10]);
}

// The elements that are lent of a component's coefficients and signs.
fn lent(made: &Component, lengths: [usize; 2]) -> tile::Component<'_> {
    let [coefficients, signs] = lengths;
    tile::Component {
        coefficients: &made.befores[..coefficients.min(4352)],
        sign: &made.signs[..signs.min(4352)],
    }
}

// Loads the components of a case, of which some elements are lent.
fn loaded(
    c: &[u8],
    lengths: [[usize; 2]; 3],
    prog_quants: [[u8; 10]; 3],
    base_quants: [[u8; 10]; 3],
) -> Result<TileState, Refusal> {
    let mut y = Component::ZEROS;
    let mut cb = Component::ZEROS;
    let mut cr = Component::ZEROS;
    fill(c, 0, &mut y);
    fill(c, 1, &mut cb);
    fill(c, 2, &mut cr);
    TileState::load(
        lent(&y, lengths[0]),
        lent(&cb, lengths[1]),
        lent(&cr, lengths[2]),
        prog_quants,
        base_quants,
        number::flag_at(c, 79),
    )
}

// The tile, a fresh one where the call refuses.
pub fn loaded_or_fresh(answer: Result<TileState, Refusal>) -> TileState {
    match answer {
        Ok(tile) => tile,
        Err(_) => TileState::new(),
    }
}

// The numbers of zero signs that the case's tile has: the right ones, one of them wrong, or those of the other layout.
fn zero_signs_of(c: &[u8], sign: &[i8; 12288]) -> [u16; 30] {
    let extrapolate = number::flag_at(c, 79);
    let wrong = usize::from(number::u8_at(c, 82));
    if wrong > 30 {
        return zero_signs::count(sign, !extrapolate);
    }
    let mut numbers = zero_signs::count(sign, extrapolate);
    if wrong > 0 {
        numbers[wrong - 1] = numbers[wrong - 1].wrapping_add(number::u16_at(c, 83));
    }
    numbers
}

// The tile with all fields of the case, whatever they are.
fn built(c: &[u8]) -> TileState {
    let start = loaded_or_fresh(loaded(c, [[4096; 2]; 3], [[0; 10]; 3], [[0; 10]; 3]));
    TileState {
        zero_signs: zero_signs_of(c, &start.sign),
        prog_quant: number::bytes_at(c, 12),
        quant_idx: number::bytes_at(c, 42),
        base_quant: number::bytes_at(c, 45),
        pass: number::u16_at(c, 75),
        is_difference: number::flag_at(c, 77),
        quality: number::u8_at(c, 78),
        use_reduce_extrapolate: number::flag_at(c, 79),
        ..start
    }
}

// The tile that a ladder starts from: fresh, loaded or built.
pub fn start(c: &[u8]) -> Result<TileState, Refusal> {
    match number::u8_at(c, 80) {
        0 => Ok(TileState::new()),
        1 => loaded(c, [[4096; 2]; 3], rows_at(c, 12), rows_at(c, 45)),
        _ => Ok(built(c)),
    }
}

// A digest with what a tile has beside its coefficients, signs and numbers of zero signs.
fn with_fields(digest: u64, t: &TileState) -> u64 {
    let positions = digests::with(digest, &t.prog_quant);
    let indices = digests::with(positions, &t.quant_idx);
    let quants = digests::with(indices, &t.base_quant);
    let pass = digests::with(quants, &t.pass.to_le_bytes());
    digests::with(
        pass,
        &[
            u8::from(t.is_difference),
            t.quality,
            u8::from(t.use_reduce_extrapolate),
        ],
    )
}

// A whole tile as one number.
pub fn digest(t: &TileState) -> u64 {
    let coefficients = digests::with(0, &t.coefficients);
    let signs = digests::with(coefficients, &t.sign);
    with_fields(digests::with(signs, &t.zero_signs), t)
}

// Whether an answer and the tile are those in the first 9 bytes.
pub fn same_answer<T: Copy>(c: &[u8], answer: Result<T, Refusal>, t: &TileState) -> bool {
    number::u8_at(c, 0) == outputs::refusal(answer) && number::u64_at(c, 1) == digest(t)
}

// How many elements of each slice a case of kind 39 lends.
fn lengths(c: &[u8]) -> [[usize; 2]; 3] {
    let length = |at: usize| usize::from(number::u16_at(c, at));
    [
        [length(80), length(82)],
        [length(84), length(86)],
        [length(88), length(90)],
    ]
}

// Kind 39: whether the port agrees with a case.
#[inline(never)]
pub fn load_agrees(c: &[u8]) -> bool {
    if c.len() != 101 {
        return false;
    }
    let answer = loaded(c, lengths(c), rows_at(c, 12), rows_at(c, 45));
    same_answer(&c[92..], answer, &loaded_or_fresh(answer))
}

// Kind 45: whether the port agrees with a case, which lends some of the bytes for the pixels.
#[inline(never)]
pub fn pixels_agrees(c: &[u8]) -> bool {
    if c.len() != 94 {
        return false;
    }
    let mut pixels = [0u8; 16640];
    outputs::fill(&mut pixels);
    let n = usize::from(number::u16_at(c, 80)).min(16640);
    let answer = built(c).reconstruct_to_rgba(&mut pixels[..n]);
    number::u8_at(c, 85) == outputs::refusal(answer)
        && digests::with(0, &pixels) == number::u64_at(c, 86)
}
