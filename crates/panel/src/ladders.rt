// Other ladders: from the first cut to the last positions of the demo in another number of passes. They end at the tile of the whole stream.
ghost use Rattle.std.specs.Prelude.{◌≡◌, ◌≤◌, length};

use crate::passes;
use answer::Refusal;
use panel_output::{ladder, refusals};
use std::io;
use tile::TileState;
use tile_passes::compare;

// Where a ladder ends, and the bits of its passes.
#[derive(Clone, Copy)]
struct Climbed {
    bits: u64,
    tile: TileState,
}

// The positions with so many passes left of a ladder in equal steps.
fn rung(left: u8, passes: u8) -> [u8; 10]
    requires { (left ≤ passes) × (passes ≤ 7) }
{
    if passes == 0 {
        return [0; 10];
    }
    let p = 7 * left / passes;
    let bottom = 4 * left / passes;
    [p, p, p, p, p, p, p, p, p, bottom]
}

// Makes a ladder of some passes from the first cut, in equal steps, to positions 0.
fn climb(full: &[i16], passes: u8) -> Result<Climbed, Refusal>
    requires { (length full.now ≡ 12288) × (passes ≤ 7) }
{
    let mut tile = passes::loaded(full, passes::FIRST_CUT)?;
    let mut bits = 0u64;
    for left in (0..passes).rev() {
        let passed = passes::pass(full, &mut tile, rung(left, passes), false)?;
        bits = bits.wrapping_add(passed.bits);
    }
    Ok(Climbed { bits, tile })
}

// How many elements of two lists differ.
fn differences<T: PartialEq + Copy>(a: &[T], b: &[T]) -> u64
    requires { length a.now ≡ length b.now }
{
    match compare::compare(a, b) {
        Some(unlike) => unlike.count,
        None => 0,
    }
}

// Compares a tile with that of the whole stream, and its pixels with the picture of the whole stream.
fn compare_tiles(whole: &TileState, picture: &[u8], t: &TileState, pixels: &[u8]) -> ladder::Unlike
    requires { (length picture.now ≡ 16384) × (length pixels.now ≡ 16384) }
{
    ladder::Unlike {
        coefficients: differences(&whole.coefficients, &t.coefficients),
        signs: differences(&whole.sign, &t.sign),
        bytes: differences(picture, pixels),
    }
}

// The ladder of some passes, beside the whole stream.
fn beside(
    full: &[i16],
    whole: &TileState,
    picture: &[u8],
    passes: u8,
) -> Result<(u64, ladder::Unlike), Refusal>
    requires { (length full.now ≡ 12288) × (length picture.now ≡ 16384) × (passes ≤ 7) }
{
    let end = climb(full, passes)?;
    let mut pixels = [0; bands::PIXEL_BYTES];
    end.tile.reconstruct_to_rgba(&mut pixels)?;
    Ok((end.bits, compare_tiles(whole, picture, &end.tile, &pixels)))
}

// Says how the ladder of some passes ends beside the whole stream; false where the port refuses.
fn show(
    rt: &(impl Print + Eprint),
    full: &[i16],
    whole: &TileState,
    picture: &[u8],
    passes: u8,
) -> io::Result<bool>
    requires { (length full.now ≡ 12288) × (length picture.now ≡ 16384) × (passes ≤ 7) }
{
    match beside(full, whole, picture, passes) {
        Ok((bits, unlike)) => {
            ladder::line(rt, passes, bits, unlike)?;
            Ok(true)
        }
        Err(refusal) => {
            refusals::say(rt, refusal)?;
            Ok(false)
        }
    }
}

// A ladder of one pass and one of six, beside the whole stream's three.
pub fn others(
    rt: &(impl Print + Eprint),
    full: &[i16],
    whole: &TileState,
    bits: u64,
    picture: &[u8],
) -> io::Result<bool>
    requires { (length full.now ≡ 12288) × (length picture.now ≡ 16384) }
{
    ladder::heading(rt, bits)?;
    if !show(rt, full, whole, picture, 1)? {
        return Ok(false);
    }
    show(rt, full, whole, picture, 6)
}
