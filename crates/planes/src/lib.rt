// Three components in flat arrays, and three rows of ten: rows taken out and put together, components copied in.

#![tactic(auto)]

ghost use Rattle.std.specs.Prelude.{◌≡◌, ◌≤◌, length, take, drop};
ghost use Rattle.planes.specs.Planes.{three, joined, of, taken};

// Ten of thirty, from a place on.
pub fn row_at(rows: [u8; 30], at: usize) -> [u8; 10]
    requires { at ≤ 20 }
    ensures { result ≡ take 10 (drop at rows) }
{
    let mut row = [0; 10];
    row.copy_from_slice(&rows[at..at + 10]);
    row
}

// Three rows one after another.
pub fn flat_rows(rows: [[u8; 10]; 3]) -> [u8; 30]
    ensures { result ≡ joined (of rows) }
{
    let mut flat = [0; 30];
    flat.copy_from_slice(rows.as_flattened());
    flat
}

// The first 4,096 of each of three components, coefficients or signs, one after another.
pub fn load<T: Copy>(y: &[T], cb: &[T], cr: &[T], into: &mut [T])
    requires { (4096 ≤ length y.now) × (4096 ≤ length cb.now) × (4096 ≤ length cr.now) × (length into.old ≡ 12288) }
    ensures { into.new ≡ taken (three y.now cb.now cr.now) }
{
    into[0..4096].copy_from_slice(&y[..4096]);
    into[4096..8192].copy_from_slice(&cb[..4096]);
    into[8192..12288].copy_from_slice(&cr[..4096]);
}
