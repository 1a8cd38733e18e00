// Ladders: passes from a tile to the last rows, and where they end.
ghost use Rattle.std.specs.Prelude.{◌≡◌, length};

use crate::{cut, rows, targets, words};
use answer::Refusal;
use tile::TileState;

// The tile that a case's ladders start from: the target cut at its first rows, with any signs in the bottom.
pub fn start(seed: u64, case: u64, full: &[i16]) -> Result<TileState, Refusal>
    requires { length full.now ≡ 12288 }
{
    let e = words::is_extrapolate(case);
    let positions = rows::any(words::first(seed, case, 3));
    let mut coefficients = [0; bands::COEFFICIENTS_PER_TILE];
    let mut signs = [0; bands::COEFFICIENTS_PER_TILE];
    targets::any_signs(words::first(seed, case, 4), &mut signs);
    cut::cut_tile(full, positions, e, &mut coefficients, &mut signs);
    tile_passes::load(&coefficients, &signs, positions, e)
}

// A refusal, and how many passes were accepted before it.
#[derive(Clone, Copy)]
pub struct Refused {
    pub refusal: Refusal,
    pub passes: u16,
}

// Makes a ladder of some passes from a tile to the last rows, towards the target, by a rule: the tile where it ends.
pub fn climb(
    symmetric: bool,
    full: &[i16],
    start: &TileState,
    last: [u8; 30],
    passes: u16,
    word: u64,
) -> Result<TileState, Refused>
    requires { length full.now ≡ 12288 }
{
    let mut t = *start;
    let mut w = word;
    for done in 0..passes {
        w = words::next(w);
        let rows = rows::rung(passes - 1 - done, t.prog_quant, last, w);
        if let Err(refusal) = tile_passes::pass(symmetric, full, &mut t, rows, false) {
            return Err(Refused {
                refusal,
                passes: done,
            });
        }
    }
    Ok(t)
}
