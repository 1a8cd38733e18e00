// Kind 46: streams that are cut at each of their first 1,024 bytes, and a call from the start on each. oracle/README.md has the rule.
ghost use Rattle.std.specs.Prelude.{◌≤◌};

use crate::tiles;
use components::Streams;
use replay_input::{component, number};
use replay_kinds::{cut_streams, cut_values};
use replay_passes::cut_passes;
use tile::TileState;

// The two streams of a component before they are cut.
#[derive(Drop)]
struct Whole {
    srl: [u8; 16384],
    raw: [u8; 16384],
}

impl Whole {
    // Those of the component with a number: the SRL stream of the case's sort, and any raw bytes.
    fn of(c: &[u8], k: u8) -> Whole {
        let mut made = Whole {
            srl: [0; 16384],
            raw: [0; 16384],
        };
        let sort = number::u8_at(c, 8);
        cut_streams::fill(sort, component::seed(c, u64::from(k)), &mut made.srl);
        cut_streams::fill(0, component::seed(c, u64::from(k) + 3), &mut made.raw);
        made
    }

    // Cut at a length.
    fn cut(&self, n: usize) -> Streams<'_>
        requires { n ≤ 1024 }
    {
        Streams {
            srl: &self.srl[..n],
            raw: &self.raw[..n],
        }
    }
}

// The loaded tile of zeros with positions 15.
fn zeros(extrapolate: bool) -> TileState {
    let sign = [0i8; 12288];
    TileState {
        coefficients: [0; 12288],
        sign,
        zero_signs: zero_signs::count(&sign, extrapolate),
        prog_quant: [15; 30],
        quant_idx: [0; 3],
        base_quant: [6; 30],
        pass: 1,
        is_difference: false,
        quality: 0,
        use_reduce_extrapolate: extrapolate,
    }
}

// A digest with an upgrade more, from positions 15 to 0.
fn with_upgrade(
    digest: u64,
    extrapolate: bool,
    y: Streams<'_>,
    cb: Streams<'_>,
    cr: Streams<'_>,
) -> u64 {
    let mut tile = zeros(extrapolate);
    let answer = tile.decode_upgrade(y, cb, cr, [[0; 10]; 3], 50);
    cut_passes::with_answer(digest, answer, tiles::digest(&tile))
}

// A digest with the case's call more, on streams that are cut.
fn with_call(digest: u64, c: &[u8], y: Streams<'_>, cb: Streams<'_>, cr: Streams<'_>) -> u64 {
    let extrapolate = number::flag_at(c, 10);
    match number::u8_at(c, 9) {
        0 => cut_values::with_values(digest, y.srl),
        1 => cut_passes::with_pass(digest, extrapolate, y.srl, y.raw),
        _ => with_upgrade(digest, extrapolate, y, cb, cr),
    }
}

// Whether the port agrees with a case: the digest of its call on the streams at each length up to 1,024 bytes.
#[inline(never)]
pub fn agrees(c: &[u8]) -> bool {
    let y = Whole::of(c, 0);
    let cb = Whole::of(c, 1);
    let cr = Whole::of(c, 2);
    let mut digest = 0;
    for n in 0..=1024 {
        digest = with_call(digest, c, y.cut(n), cb.cut(n), cr.cut(n));
    }
    digest == number::u64_at(c, 11)
}
