// The tile of the demo: its positions stage by stage, its first cut, and its passes.
ghost use Rattle.std.specs.Prelude.{◌≡◌, length};

use answer::Refusal;
use panel_picture::cut;
use tile::TileState;
use tile_passes::Passed;

// The positions after each stage, in band order. No magnitude outside the bottom reaches 2 to the 7, so that the first cut is the bottom alone, in steps
// of 16.
pub const FIRST_CUT: [u8; 10] = [7, 7, 7, 7, 7, 7, 7, 7, 7, 4];

pub const PASS_1: [u8; 10] = [6, 6, 6, 6, 6, 6, 5, 5, 5, 2];

pub const PASS_2: [u8; 10] = [4, 4, 4, 4, 4, 4, 3, 3, 3, 1];

pub const PASS_3: [u8; 10] = [0; 10];

// The tile with the coefficients cut at positions, in the reduce-extrapolate layout, with quantizers that leave a value.
pub fn loaded(full: &[i16], row: [u8; 10]) -> Result<TileState, Refusal>
    requires { length full.now ≡ 12288 }
{
    let mut coefficients = [0; bands::COEFFICIENTS_PER_TILE];
    let mut signs = [0; bands::COEFFICIENTS_PER_TILE];
    for k in 0..3 {
        let from = bands::COEFFICIENTS_PER_COMPONENT * k;
        let to = from + bands::COEFFICIENTS_PER_COMPONENT;
        cut::cut_component(
            &full[from..to],
            row,
            &mut coefficients[from..to],
            &mut signs[from..to],
        );
    }
    tile_passes::load(&coefficients, &signs, planes::flat_rows([row; 3]), true)
}

// Makes a pass of the tile to the same positions in each component, by the symmetric rule; where it is cut, only the first half of its bytes arrives.
pub fn pass(full: &[i16], t: &mut TileState, row: [u8; 10], is_cut: bool) -> Result<Passed, Refusal>
    requires { length full.now ≡ 12288 }
{
    tile_passes::pass(true, full, t, planes::flat_rows([row; 3]), is_cut)
}
