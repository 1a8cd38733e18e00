// From luma and chroma to red, green and blue: `ycbcr_to_rgb` of progressive.rs.
#![tactic(auto)]

ghost use Rattle.std.specs.Prelude.{◌≡◌, ◌++◌, ℕ, ◌+◌, ◌*◌, ◌<◌, ◌≤◌, pos, ◌+ℤ◌, length, get_or, drop};
ghost use Rattle.fixed.specs.Fixed.{clamp_u8};
ghost use Rattle.color.specs.Color.{rounded, red, green, blue, rgb, picture};
ghost use Rattle.color.specs.Inner.{Within, red_green, blue_full, four_at, PixelRoom, PixelsWritten};

// Red.
pub fn red(y: i16, cr: i16) -> u8
    ensures { result ≡ red y cr }
{
    fixed::clamp_u8(y as i64 + 128 + ((cr as i64 * 91881 + 32768) >> 16))
}

// Green.
pub fn green(y: i16, cb: i16, cr: i16) -> u8
    ensures { result ≡ green y cb cr }
{
    fixed::clamp_u8(y as i64 + 128 - ((cb as i64 * 22554 + cr as i64 * 46802 + 32768) >> 16))
}

// Blue.
pub fn blue(y: i16, cb: i16) -> u8
    ensures { result ≡ blue y cb }
{
    fixed::clamp_u8(y as i64 + 128 + ((cb as i64 * 116130 + 32768) >> 16))
}

// A pixel's three bytes.
pub fn ycbcr_to_rgb(y: i16, cb: i16, cr: i16) -> [u8; 3]
    ensures { result ≡ rgb y cb cr }
{
    [red(y, cr), green(y, cb, cr), blue(y, cb)]
}

// ---- the same in sixteen bits, for loops that are done eight at a time. Each factor fits, a product's halves are two numbers, and a sum that
// leaves sixteen bits is clamped. 91881 is 65536 + 26345, 46802 is 65536 - 18734, 116130 is 2 * 65536 - 14942, and a multiple of 65536 comes out
// of a shift by 16 whole

// `p` with 32768 added, shifted right 16 with floor: its high half, and 1 more where the low half has its top bit set.
fn rounded_half(p: i32) -> i16
    requires { Within 2147450880 p }
    ensures { result ≡ rounded p }
{
    let low = (p & 65535) as u16;
    (p >> 16) as i16 + (low >> 15) as i16
}

// The byte nearest to a + m + 128. Where a sum clamps, what is added to it is too small to bring it back to 0 ..= 255.
fn toned(a: i32, m: i16) -> u8
    requires { Within 32384 m }
    ensures { result ≡ clamp_u8 (a +ℤ (m +ℤ pos 128)) }
{
    fixed::clamp_u8(fixed::clamp_i16(fixed::clamp_i16(a) as i32 + (m + 128) as i32) as i64)
}

fn lane_red(y: i16, cr: i16) -> u8
    ensures { result ≡ red y cr }
{
    toned(y as i32 + cr as i32, rounded_half(cr as i32 * 26345))
}

fn lane_green(y: i16, cb: i16, cr: i16) -> u8
    ensures { result ≡ green y cb cr }
{
    toned(
        y as i32 - cr as i32,
        0 - rounded_half(cb as i32 * 22554 - cr as i32 * 18734),
    )
}

fn lane_blue(y: i16, cb: i16) -> u8
    ensures { result ≡ blue y cb }
{
    toned(
        y as i32 + cb as i32,
        cb + rounded_half(0 - cb as i32 * 14942),
    )
}

// ---- pixels, 64 at a time: two colours to a number of sixteen bits, then a pixel to one of thirty-two, then bytes. Three loops, since the compiler does
// each of them in vectors, and not all in one

// Two bytes in one number, and two such in one.
fn two(low: u8, high: u8) -> u16
    ensures { result ≡ low + 256 * high }
{
    u16::from_le_bytes([low, high])
}

fn four(low: u16, high: u16) -> u32
    ensures { result ≡ low + 65536 * high }
{
    u32::from(low) + 65536 * u32::from(high)
}

// A pixel's lower two bytes, and its upper two.
fn red_green(y: i16, cb: i16, cr: i16) -> u16
    ensures { result ≡ red y cr + 256 * green y cb cr }
{
    two(lane_red(y, cr), lane_green(y, cb, cr))
}

fn blue_full(y: i16, cb: i16) -> u16
    ensures { result ≡ blue y cb + 256 * 255 }
{
    two(lane_blue(y, cb), 255)
}

// 64 lower halves and 64 upper ones.
fn joined(low: [u16; 64], high: [u16; 64]) -> [u32; 64]
    ensures { (k : ℕ) → k < 64 → get_or result k 0 ≡ get_or low k 0 + 65536 * get_or high k 0 }
{
    let mut out: [u32; 64] = [0; 64];
    for i in 0..64 {
        out[i] = four(low[i], high[i]);
    }
    out
}

// 64 pixels from `at` on, each in one number.
fn words(y: &[i16], cb: &[i16], cr: &[i16], at: usize) -> [u32; 64]
    requires { (at + 64 ≤ length y.now) × (length cb.now ≡ length y.now) × (length cr.now ≡ length y.now) }
    ensures { (k : ℕ) → k < 64 → get_or result k 0
        ≡ red_green y.now cb.now cr.now (at + k) + 65536 * blue_full y.now cb.now (at + k) }
{
    let mut low: [u16; 64] = [0; 64];
    let mut high: [u16; 64] = [0; 64];
    for i in 0..64 {
        let l = y[at + i];
        let b = cb[at + i];
        let r = cr[at + i];
        low[i] = red_green(l, b, r);
        high[i] = blue_full(l, b);
    }
    joined(low, high)
}

// The four bytes of a number, the lowest first: one store, and one copy of a loop of them.
fn put_word(pixels: &mut [u8], o: usize, v: u32)
    requires { o + 4 ≤ length pixels.old }
    ensures { pixels.new ≡ four_at pixels.old o v }
{
    pixels[o] = (v % 256) as u8;
    pixels[o + 1] = (v / 256 % 256) as u8;
    pixels[o + 2] = (v / 65536 % 256) as u8;
    pixels[o + 3] = (v / 16777216) as u8;
}

// 64 pixels from `at` on.
fn write_64(y: &[i16], cb: &[i16], cr: &[i16], pixels: &mut [u8], at: usize)
    requires { (at + 64 ≤ length y.now) × PixelRoom y.now cb.now cr.now pixels.old }
    ensures { PixelsWritten y.now cb.now cr.now pixels.old at pixels.new (at + 64) }
{
    let all = words(y, cb, cr, at);
    for (i, word) in all.iter().enumerate() {
        put_word(pixels, 4 * (at + i), *word);
    }
}

// One pixel.
fn write_one(y: &[i16], cb: &[i16], cr: &[i16], pixels: &mut [u8], at: usize)
    requires { (at < length y.now) × PixelRoom y.now cb.now cr.now pixels.old }
    ensures { PixelsWritten y.now cb.now cr.now pixels.old at pixels.new (at + 1) }
{
    let l = y[at];
    let b = cb[at];
    let r = cr[at];
    put_word(pixels, 4 * at, four(red_green(l, b, r), blue_full(l, b)));
}

// The pixels of three components, four bytes each, where `pixels` begins.
pub fn write_rgba(y: &[i16], cb: &[i16], cr: &[i16], pixels: &mut [u8])
    requires { (length cb.now ≡ length y.now) × (length cr.now ≡ length y.now) × (4 * length y.now ≤ length pixels.old) }
    ensures { pixels.new
        ≡ picture y.now cb.now cr.now ++ drop (4 * length y.now) pixels.old }
{
    let blocks = y.len() / 64;
    for block in 0..blocks {
        write_64(y, cb, cr, pixels, 64 * block);
    }
    for at in 64 * blocks..y.len() {
        write_one(y, cb, cr, pixels, at);
    }
}
