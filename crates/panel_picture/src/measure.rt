// What the report says of a tile and of its pixels.
ghost use Rattle.std.specs.Prelude.{◌+◌, ◌≤◌, length};

// The places of a tile of which nothing is known yet, by its numbers of zero signs and its positions: the zero signs of the bands that lie above the
// bottom and have bits to come.
pub fn undecided(zero_signs: [u16; 30], positions: [u8; 30]) -> u64 {
    let mut n = 0;
    for place in 0..30 {
        if place % 10 != 9 && positions[place] != 0 {
            n += u64::from(zero_signs[place]);
        }
    }
    n
}

// ---- pixels of four bytes: red, green, blue and 255

// The colours of ten pixels from a byte on, added up.
fn ten_pixels(pixels: &[u8], at: usize) -> u64
    requires { at + 40 ≤ length pixels.now }
    ensures { result ≤ 7650 }
{
    let (ten, _) = pixels[at..at + 40].as_chunks::<4>();
    let mut sum = 0;
    for [red, green, blue, _] in ten {
        sum += u64::from(*red) + u64::from(*green) + u64::from(*blue);
    }
    sum
}

// The mean grey of a rectangle as large as the minus stroke, ten columns and four rows.
pub fn grey(pixels: &[u8], left: usize, top: usize) -> u64
    requires { (left ≤ 54) × (top ≤ 60) × (16384 ≤ length pixels.now) }
    ensures { result ≤ 255 }
{
    let mut sum = 0;
    for row in top..top + 4 {
        sum += ten_pixels(pixels, 256 * row + 4 * left);
    }
    sum / 120
}

// The largest difference of a byte from the one at its place.
pub fn largest_difference(a: &[u8], b: &[u8]) -> u8
    requires { length a.now ≤ length b.now }
{
    a.iter()
        .zip(b)
        .map(|(x, y)| x.abs_diff(*y))
        .max()
        .unwrap_or(0)
}
