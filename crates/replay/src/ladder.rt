// Kind 40: upgrades of one tile, one after another.
use crate::tiles;
use answer::Refusal;
use components::Streams;
use progressive_decoder::MissingBits;
use replay_input::number;
use replay_passes::steps::{self, Start, Upgrade};
use replay_passes::upgrade;
use tile::TileState;

// Makes an upgrade of a tile.
#[inline(never)]
fn upgraded(made: Upgrade<'_>, tile: &mut TileState) -> Result<MissingBits, Refusal> {
    let start = Start {
        extrapolate: tile.use_reduce_extrapolate,
        positions: tile.prog_quant,
        coefficients: &tile.coefficients,
        signs: &tile.sign,
    };
    let rows = made.rows(start);
    let mut y = steps::Streams::EMPTY;
    let mut cb = steps::Streams::EMPTY;
    let mut cr = steps::Streams::EMPTY;
    made.fill_streams(start, rows, &mut y, &mut cb, &mut cr);
    tile.decode_upgrade(
        Streams {
            srl: y.srl(),
            raw: y.raw(),
        },
        Streams {
            srl: cb.srl(),
            raw: cb.raw(),
        },
        Streams {
            srl: cr.srl(),
            raw: cr.raw(),
        },
        rows,
        made.quality(),
    )
}

// Makes the upgrade of a number, and compares its answer, the tile and the bits that were missing with what is recorded.
fn step_agrees(c: &[u8], number: u8, recorded: &[u8], tile: &mut TileState) -> bool {
    let made = Upgrade {
        case: c,
        fields: number::bytes_at(recorded, 0),
        number,
    };
    let answer = upgraded(made, tile);
    tiles::same_answer(number::tail(recorded, 4), answer, tile)
        && answer.unwrap_or(upgrade::NONE_MISSING)
            == upgrade::missing_of(number::tail(recorded, 13))
}

// Whether the port agrees with a case.
#[inline(never)]
pub fn agrees(c: &[u8]) -> bool {
    let steps = number::u8_at(c, 81);
    if c.len() != 94 + 21 * usize::from(steps) {
        return false;
    }
    let begun = tiles::start(c);
    let mut tile = tiles::loaded_or_fresh(begun);
    if !tiles::same_answer(&c[85..], begun, &tile) {
        return false;
    }
    for number in 0..steps {
        let recorded = number::tail(c, 94 + 21 * usize::from(number));
        if !step_agrees(c, number, recorded, &mut tile) {
            return false;
        }
    }
    true
}
