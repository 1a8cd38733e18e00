// The forward wavelet, reduce-extrapolate: what the inverse of `dwt_extrapolate` turns back into samples. Three levels, of 33/31, 17/16 and
// 9/8 low and high samples on a line; in each columns first, then rows, since the inverse goes the other way. Each level splits the
// low corner of the plane; the bands are gathered at the end. Halving loses bits, so that a sample may come back off by a few.
ghost use Rattle.std.specs.Prelude.{◌≡◌, ◌+◌, ◌*◌, ◌≤◌, ◌<◌, length};
ghost use Rattle.panel_picture.specs.Forward.{high, low_edge, low_between, low_half, low_past, ForwardHalves};

// ---- one sample. `/` rounds towards zero, and `fixed::t` keeps the low sixteen bits

// The high sample of an odd place y between two even ones.
fn high_sample(x: i16, y: i16, z: i16) -> i16
    ensures { result ≡ high x y z }
{
    fixed::t((y as i32 - (x as i32 + z as i32) / 2) / 2)
}

// The low sample of an even place x at a line's edge, with one high sample beside it.
fn low_edge(x: i16, h: i16) -> i16
    ensures { result ≡ low_edge x h }
{
    fixed::t(x as i32 + h as i32)
}

// The low sample of an even place between two high ones.
fn low_between(x: i16, h: i16, k: i16) -> i16
    ensures { result ≡ low_between x h k }
{
    fixed::t(x as i32 + (h as i32 + k as i32) / 2)
}

// The low sample of the last even place of a line of 64.
fn low_half(x: i16, h: i16) -> i16
    ensures { result ≡ low_half x h }
{
    fixed::t(x as i32 + h as i32 / 2)
}

// The extrapolated low sample of the place y after it.
fn low_past(x: i16, y: i16) -> i16
    ensures { result ≡ low_past x y }
{
    fixed::t(2 * (y as i32) - x as i32)
}

// ---- a line: `low` low samples, and behind them `high` high ones

// The high samples.
fn highs(line: &[i16], low: usize, high: usize, out: &mut [i16])
    requires { ForwardHalves low high × (length line.now ≡ 64) × (length out.old ≡ 64) }
{
    for j in 0..high {
        out[low + j] = high_sample(line[2 * j], line[2 * j + 1], line[2 * j + 2]);
    }
}

// The low samples that have a high one on their right.
fn lows(line: &[i16], low: usize, high: usize, out: &mut [i16])
    requires { ForwardHalves low high × (length line.now ≡ 64) × (length out.old ≡ 64) }
{
    out[0] = low_edge(line[0], out[low]);
    for j in 1..high {
        out[j] = low_between(line[2 * j], out[low + j - 1], out[low + j]);
    }
}

// The low samples at the line's end: one, or two where the line has 64 places.
fn low_end(line: &[i16], low: usize, high: usize, out: &mut [i16])
    requires { ForwardHalves low high × (length line.now ≡ 64) × (length out.old ≡ 64) }
{
    let x = line[2 * high];
    let h = out[low + high - 1];
    if low == high + 1 {
        out[high] = low_edge(x, h);
        return;
    }
    out[high] = low_half(x, h);
    out[high + 1] = low_past(x, line[2 * high + 1]);
}

fn split(line: &[i16], low: usize, high: usize, out: &mut [i16])
    requires { ForwardHalves low high × (length line.now ≡ 64) × (length out.old ≡ 64) }
{
    highs(line, low, high, out);
    lows(line, low, high, out);
    low_end(line, low, high, out);
}

// ---- lines of a plane: from a place on, their places `step` apart

fn take_line(plane: &[i16], from: usize, step: usize, line: &mut [i16])
    requires { (0 < step) × (from ≤ length plane.now) }
{
    for (value, place) in line.iter_mut().zip(plane[from..].iter().step_by(step)) {
        *value = *place;
    }
}

fn put_line(line: &[i16], plane: &mut [i16], from: usize, step: usize)
    requires { (0 < step) × (from ≤ length plane.old) }
{
    for (value, place) in line.iter().zip(plane[from..].iter_mut().step_by(step)) {
        *place = *value;
    }
}

fn split_line(plane: &mut [i16], from: usize, step: usize, low: usize, high: usize)
    requires { (0 < step) × (from ≤ length plane.old) × ForwardHalves low high }
{
    let mut line = [0i16; 64];
    let mut out = [0i16; 64];
    take_line(plane, from, step, &mut line[..low + high]);
    split(&line, low, high, &mut out);
    put_line(&out[..low + high], plane, from, step);
}

// ---- a level, and all three

fn split_columns(plane: &mut [i16], low: usize, high: usize)
    requires { ForwardHalves low high × (length plane.old ≡ 4096) }
{
    for column in 0..low + high {
        split_line(plane, column, 64, low, high);
    }
}

fn split_rows(plane: &mut [i16], low: usize, high: usize)
    requires { ForwardHalves low high × (length plane.old ≡ 4096) }
{
    for row in 0..low + high {
        split_line(plane, 64 * row, 1, low, high);
    }
}

// Copies a rectangle of a plane, row by row, to the places from `at` on.
fn gather(
    plane: &[i16],
    left: usize,
    top: usize,
    width: usize,
    height: usize,
    out: &mut [i16],
    at: usize,
)
    requires { (left + width ≤ 64) × (top + height ≤ 64) × (at + height * width ≤ 4096) × (length plane.now ≡ 4096) × (length out.old ≡ 4096) }
{
    for row in 0..height {
        let from = 64 * (top + row) + left;
        let to = at + row * width;
        out[to..to + width].copy_from_slice(&plane[from..from + width]);
    }
}

// The bands of the first level, HL1, LH1 and HH1.
fn first_bands(plane: &[i16], out: &mut [i16])
    requires { (length plane.now ≡ 4096) × (length out.old ≡ 4096) }
{
    gather(plane, 33, 0, 31, 33, out, 0);
    gather(plane, 0, 33, 33, 31, out, 1023);
    gather(plane, 33, 33, 31, 31, out, 2046);
}

// HL2, LH2 and HH2.
fn second_bands(plane: &[i16], out: &mut [i16])
    requires { (length plane.now ≡ 4096) × (length out.old ≡ 4096) }
{
    gather(plane, 17, 0, 16, 17, out, 3007);
    gather(plane, 0, 17, 17, 16, out, 3279);
    gather(plane, 17, 17, 16, 16, out, 3551);
}

// HL3, LH3, HH3 and LL3.
fn third_bands(plane: &[i16], out: &mut [i16])
    requires { (length plane.now ≡ 4096) × (length out.old ≡ 4096) }
{
    gather(plane, 9, 0, 8, 9, out, 3807);
    gather(plane, 0, 9, 9, 8, out, 3879);
    gather(plane, 9, 9, 8, 8, out, 3951);
    gather(plane, 0, 0, 9, 9, out, 4015);
}

// The coefficients of a component, in band order.
pub fn coefficients(
    plane: [i16; bands::COEFFICIENTS_PER_COMPONENT],
) -> [i16; bands::COEFFICIENTS_PER_COMPONENT] {
    let mut p = plane;
    split_columns(&mut p, 33, 31);
    split_rows(&mut p, 33, 31);
    split_columns(&mut p, 17, 16);
    split_rows(&mut p, 17, 16);
    split_columns(&mut p, 9, 8);
    split_rows(&mut p, 9, 8);
    let mut out = [0i16; bands::COEFFICIENTS_PER_COMPONENT];
    first_bands(&p, &mut out);
    second_bands(&p, &mut out);
    third_bands(&p, &mut out);
    out
}
