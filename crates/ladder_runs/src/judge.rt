// Whether a ladder ends where it should: how many differences there are. The first of a sort is shown.
ghost use Rattle.std.specs.Prelude.{◌≡◌, length};

use crate::report;
use std::{fmt, io};
use tile::TileState;
use tile_passes::compare;

// The elements that differ of two lists of a sort.
fn elements<T: PartialEq + Copy + fmt::Display + Drop>(
    rt: &impl Print,
    w: report::Which,
    what: &str,
    expected: &[T],
    found: &[T],
) -> io::Result<u64>
    requires { length expected.now ≡ length found.now }
{
    let Some(unlike) = compare::compare(expected, found) else {
        return Ok(0);
    };
    report::difference(rt, w, what, unlike.first, unlike.left, unlike.right)?;
    Ok(unlike.count)
}

// 1 where something else differs.
fn unless(rt: &impl Print, w: report::Which, is_same: bool, what: &str) -> io::Result<u64> {
    if is_same {
        return Ok(0);
    }
    report::unlike(rt, w, what)?;
    Ok(1)
}

// The coefficients and signs of a tile, beside those of the target cut at the last rows.
fn picture(
    rt: &impl Print,
    w: report::Which,
    expected: &[i16],
    expected_signs: &[i8],
    t: &TileState,
) -> io::Result<u64>
    requires { (length expected.now ≡ 12288) × (length expected_signs.now ≡ 12288) }
{
    let coefficients = elements(rt, w, "coefficient", expected, &t.coefficients)?;
    let signs = elements(rt, w, "sign", expected_signs, &t.sign)?;
    Ok(coefficients.wrapping_add(signs))
}

// The rows, the number of passes and the numbers of zero signs of a tile.
fn fields(
    rt: &impl Print,
    w: report::Which,
    last: [u8; 30],
    pass: u16,
    t: &TileState,
) -> io::Result<u64> {
    let right = zero_signs::are_right(&t.zero_signs, &t.sign, t.use_reduce_extrapolate);
    let a = unless(rt, w, t.prog_quant == last, "other rows")?;
    let b = unless(rt, w, t.pass == pass, "another pass number")?;
    let c = unless(rt, w, right, "wrong numbers of zero signs")?;
    Ok(a.wrapping_add(b).wrapping_add(c))
}

// The end of a ladder of some passes that is to be at the target cut at the last rows.
pub fn ladder(
    rt: &impl Print,
    w: report::Which,
    end: &TileState,
    passes: u16,
    last: [u8; 30],
    expected: &[i16],
    expected_signs: &[i8],
) -> io::Result<u64>
    requires { (length expected.now ≡ 12288) × (length expected_signs.now ≡ 12288) }
{
    let a = picture(rt, w, expected, expected_signs, end)?;
    let b = fields(rt, w, last, passes.wrapping_add(1), end)?;
    Ok(a.wrapping_add(b))
}

// The ends of two ladders that are to be the same tile.
pub fn pair(
    rt: &impl Print,
    w: report::Which,
    one: &TileState,
    other: &TileState,
) -> io::Result<u64> {
    let a = picture(rt, w, &one.coefficients, &one.sign, other)?;
    let b = fields(rt, w, one.prog_quant, other.pass, other)?;
    Ok(a.wrapping_add(b))
}
