// The inverse reduce-extrapolate wavelet of a component, a port of dwt_extrapolate.rs: rows, then columns, in three blocks.
#![tactic(auto)]

ghost use Rattle.std.specs.Prelude.{◌≡◌, ◌+◌, ◌*◌, ◌≤◌, length, drop};
ghost use mathlib.Core.List.{◌++◌, flatten};
ghost use Rattle.dwt_lines.specs.Line.{Halves};
ghost use Rattle.dwt_extrapolate.specs.Block.{lines, scratch, block};
ghost use Rattle.dwt_extrapolate.specs.Transform.{inverse, scratched, Inverts};
ghost use Rattle.dwt_extrapolate.specs.Refused.{InverseRefusals};
ghost use Rattle.dwt_extrapolate.specs.Made.{LineHalves};

// The lines of n rows: p low places and q high ones each.
fn idwt_rows(low: &[i16], high: &[i16], dst: &mut [i16], p: usize, q: usize, n: usize)
    requires halves { Halves p q }
    requires p_in_bounds { (n * p ≤ length low.now) × (n * q ≤ length high.now) × (n * (p + q) ≤ length dst.old) }
    requires q_bound { p + q ≤ 64 }
    ensures { dst.new ≡ flatten (lines p q n low.now high.now) ++ drop (n * (p + q)) dst.old }
{
    let w = p + q;
    for m in 0..n {
        dwt_lines::idwt_row(
            &low[m * p..(m + 1) * p],
            &high[m * q..(m + 1) * q],
            &mut dst[m * w..(m + 1) * w],
        );
    }
}

// The lines of n rows, whose low halves start at l and whose high halves start at h.
fn rows_of(src: &[i16], dst: &mut [i16], l: usize, h: usize, p: usize, q: usize, n: usize)
    requires halves { Halves p q }
    requires q_bound { p + q ≤ 64 }
    requires p_in_bounds { (l + n * p ≤ length src.now) × (h + n * q ≤ length src.now) × (n * (p + q) ≤ length dst.old) }
    ensures { dst.new
        ≡ flatten (lines p q n (drop l src.now) (drop h src.now)) ++ drop (n * (p + q)) dst.old }
{
    idwt_rows(&src[l..], &src[h..], dst, p, q, n);
}

// A block of p + q rows and columns: the rows into the scratch, then the columns back into the buffer.
fn decode_block(buffer: &mut [i16], temp: &mut [i16], p: usize, q: usize)
    requires halves { Halves p q }
    requires q_bound { p + q ≤ 64 }
    requires q_in_bounds { ((p + q) * (p + q) ≤ length buffer.old) × ((p + q) * (p + q) ≤ length temp.old) }
    ensures buffer_after { buffer.new ≡ block p q buffer.old }
    ensures temp_after { temp.new ≡ scratch p q buffer.old temp.old }
{
    let w = p + q;
    let lh = q * p;
    let hh = lh + p * q;
    let ll = hh + q * q;
    let half = p * w;
    rows_of(buffer, temp, ll, 0, p, q, p);
    rows_of(buffer, &mut temp[half..], lh, hh, p, q, q);
    dwt_columns::idwt_cols(temp, buffer, half, w, p, q);
}

// The three blocks, the smallest first. The scratch is lent, and altered.
pub fn decode_blocks(buffer: &mut [i16], temp: &mut [i16])
    requires { (4096 ≤ length buffer.old) × (4096 ≤ length temp.old) }
    ensures buffer_after { buffer.new ≡ inverse buffer.old }
    ensures temp_after { temp.new ≡ scratched buffer.old temp.old }
{
    decode_block(&mut buffer[3807..], temp, 9, 8);
    decode_block(&mut buffer[3007..], temp, 17, 16);
    decode_block(buffer, temp, 33, 31);
}

// The inverse wavelet, in place.
pub fn decode(buffer: &mut [i16], temp: &mut [i16]) -> Result<(), answer::Refusal>
    ensures { Inverts buffer.old temp.old result buffer.new temp.new }
{
    if buffer.len() < bands::COEFFICIENTS_PER_COMPONENT
        || temp.len() < bands::COEFFICIENTS_PER_COMPONENT
    {
        return Err(answer::Refusal::SliceTooShort);
    }
    decode_blocks(buffer, temp);
    Ok(())
}

// A refused call gives the refusal, which has its number, and leaves both slices as they were.
pub fn refusals()
    ensures { InverseRefusals }
{}

// Every line that the transform makes, of rows and of columns, has one or two low samples more than high ones.
pub fn line_halves()
    ensures { LineHalves }
{}
