// The inverse wavelet of one line, a part of dwt_extrapolate.rs: its samples one by one, and `idwt_row`.
#![tactic(auto)]

ghost use Rattle.std.specs.Prelude.{◌≡◌, [], ◌+◌, ◌≤◌, pos, length, get_or, drop};
ghost use Rattle.dwt_lines.specs.Line.{edge, even, odd, half, mean, Halves, from, line};

// ---- one sample. `fixed::t` keeps the low sixteen bits, and `/` rounds towards zero

// The first even place, and the last one where there is one low place more than high ones.
pub fn edge_sample(l: i16, h: i16) -> i16
    ensures { result ≡ edge l h }
{
    fixed::t(l as i32 - h as i32)
}

// An even place between two high ones.
pub fn even_sample(l: i16, h: i16, k: i16) -> i16
    ensures { result ≡ even l h k }
{
    fixed::t(l as i32 - (h as i32 + k as i32) / 2)
}

// The odd place between two even ones.
pub fn odd_sample(x: i16, y: i16, h: i16) -> i16
    ensures { result ≡ odd x y h }
{
    fixed::t((x as i32 + y as i32) / 2 + 2 * (h as i32))
}

// The last even place where there are two low places more.
pub fn half_sample(l: i16, h: i16) -> i16
    ensures { result ≡ half l h }
{
    fixed::t(l as i32 - h as i32 / 2)
}

// The place after it.
pub fn mean_sample(x: i16, l: i16) -> i16
    ensures { result ≡ mean x l }
{
    fixed::t((x as i32 + l as i32) / 2)
}

// ---- a line

// The end of a line, from the last even place x that has a high place h beside it: one low place is left, or two.
fn row_end(low: &[i16], x: i16, h: i16, dst: &mut [i16])
    requires in_bounds { (1 ≤ length low.now) × (length low.now ≤ 2) }
    requires dst_len { length dst.old ≡ length low.now + 2 }
    ensures { dst.new ≡ from x h (get_or low.now 0 (pos 0)) (drop 1 low.now) [] }
{
    dst[0] = x;
    if low.len() == 1 {
        let y = edge_sample(low[0], h);
        dst[1] = odd_sample(x, y, h);
        dst[2] = y;
        return;
    }
    let y = half_sample(low[0], h);
    dst[1] = odd_sample(x, y, h);
    dst[2] = y;
    dst[3] = mean_sample(y, low[1]);
}

// A line of samples, of its low and its high half.
pub fn idwt_row(low: &[i16], high: &[i16], dst: &mut [i16])
    requires halves { Halves (length low.now) (length high.now) }
    requires dst_len { length dst.old ≡ length low.now + length high.now }
    ensures { dst.new ≡ line low.now high.now }
{
    let n = high.len();
    let mut h = high[0];
    let mut x = edge_sample(low[0], h);
    for j in 1..n {
        let i = 2 * (j - 1);
        let k = high[j];
        let y = even_sample(low[j], h, k);
        dst[i] = x;
        dst[i + 1] = odd_sample(x, y, h);
        x = y;
        h = k;
    }
    row_end(&low[n..], x, h, &mut dst[2 * (n - 1)..]);
}
