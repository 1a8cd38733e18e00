// The inverse wavelet of all columns of a block, a part of dwt_extrapolate.rs: what `idwt_col` does for each of them, done row by row. A row of
// the answer is made of rows of the scratch, place by place, in an order that the cache likes.
#![tactic(auto)]

ghost use Rattle.std.specs.Prelude.{◌≡◌, ◌+◌, ◌*◌, ◌-◌, ◌≤◌, length, take, drop};
ghost use mathlib.Core.List.{◌++◌, zip_with, flatten};
ghost use Rattle.dwt_lines.specs.Line.{edge, Halves};
ghost use Rattle.dwt_columns.specs.Columns.{rows, down};
ghost use Rattle.dwt_columns.specs.Inner.{from_rows, line_rows, pair_rows, end_rows, put_part};

// The first row of all columns.
fn edge_row(l: &[i16], h: &[i16], d: &mut [i16])
    requires { (length h.now ≡ length l.now) × (length d.old ≡ length l.now) }
    ensures { d.new ≡ zip_with edge l.now h.now }
{
    for i in 0..l.len() {
        d[i] = dwt_lines::edge_sample(l[i], h[i]);
    }
}

// The odd and the even row after the even row that d begins with.
fn pair_rows(l: &[i16], h: &[i16], k: &[i16], d: &mut [i16])
    requires h_len { (length h.now ≡ length l.now) × (length k.now ≡ length l.now) }
    requires d_len { length d.old ≡ 3 * length l.now }
    ensures { d.new ≡ pair_rows l.now h.now k.now (take (length l.now) d.old) }
{
    let w = l.len();
    let (x, rest) = d.split_at_mut(w);
    let (odd, even) = rest.split_at_mut(w);
    for i in 0..w {
        let y = dwt_lines::even_sample(l[i], h[i], k[i]);
        odd[i] = dwt_lines::odd_sample(x[i], y, h[i]);
        even[i] = y;
    }
}

// The last three rows after the even row that d begins with, where there are two low rows more than high ones.
fn last_rows(l: &[i16], h: &[i16], m: &[i16], d: &mut [i16])
    requires h_len { (length h.now ≡ length l.now) × (length m.now ≡ length l.now) }
    requires d_len { length d.old ≡ 4 * length l.now }
    ensures { d.new ≡ end_rows l.now h.now m.now (take (length l.now) d.old) }
{
    let w = l.len();
    let (x, rest) = d.split_at_mut(w);
    let (odd, rest) = rest.split_at_mut(w);
    let (even, last) = rest.split_at_mut(w);
    for i in 0..w {
        let y = dwt_lines::half_sample(l[i], h[i]);
        odd[i] = dwt_lines::odd_sample(x[i], y, h[i]);
        even[i] = y;
        last[i] = dwt_lines::mean_sample(y, m[i]);
    }
}

// Row n, of rows of w places.
fn row(rows: &[i16], w: usize, n: usize) -> &[i16]
    requires { n * w + w ≤ length rows.now }
    ensures value { result.now ≡ take w (drop (n * w) rows.now) }
    ensures len { length result.now ≡ w }
{
    let at = n * w;
    &rows[at..at + w]
}

// The rows of all columns after the first, which dst begins with.
fn cols_from(low: &[i16], high: &[i16], dst: &mut [i16], w: usize, p: usize, q: usize)
    requires halves { Halves p q }
    requires w_in_bounds { (p * w ≤ length low.now) × (q * w ≤ length high.now) × ((p + q) * w ≤ length dst.old) }
    ensures { dst.new
        ≡ flatten (from_rows (take w dst.old) (take w high.now) (take w (drop w low.now))
        (rows w (p - 2) (drop (w + w) low.now)) (rows w (q - 1) (drop w high.now)))
        ++ drop ((p + q) * w) dst.old }
{
    for j in 1..q {
        let d = 2 * ((j - 1) * w);
        pair_rows(
            row(low, w, j),
            row(high, w, j - 1),
            row(high, w, j),
            &mut dst[d..d + 3 * w],
        );
    }
    let l = row(low, w, q);
    let h = row(high, w, q - 1);
    let d = 2 * ((q - 1) * w);
    if p == q + 1 {
        pair_rows(l, h, h, &mut dst[d..d + 3 * w]);
        return;
    }
    last_rows(l, h, row(low, w, q + 1), &mut dst[d..d + 4 * w]);
}

// All columns at once: of p low rows and q high ones, each of w places, p + q rows.
fn line_rows(low: &[i16], high: &[i16], dst: &mut [i16], w: usize, p: usize, q: usize)
    requires halves { Halves p q }
    requires w_in_bounds { (p * w ≤ length low.now) × (q * w ≤ length high.now) × ((p + q) * w ≤ length dst.old) }
    ensures { dst.new
        ≡ flatten (line_rows (rows w p low.now) (rows w q high.now)) ++ drop ((p + q) * w) dst.old }
{
    let o: usize = 0;
    edge_row(&low[o..w], &high[o..w], &mut dst[o..w]);
    cols_from(low, high, dst, w, p, q);
}

// All columns of p low rows, which src begins with, and q high ones after them.
pub fn idwt_cols(src: &[i16], dst: &mut [i16], half: usize, w: usize, p: usize, q: usize)
    requires halves { Halves p q }
    requires w_value { (w ≡ p + q) × (half ≡ p * w) }
    requires w_in_bounds { ((p + q) * w ≤ length src.now) × ((p + q) * w ≤ length dst.old) }
    ensures { dst.new
        ≡ flatten (down w (rows w p src.now) (rows w q (drop half src.now))) ++ drop ((p + q) * w) dst.old }
{
    line_rows(src, &src[half..], dst, w, p, q);
}
