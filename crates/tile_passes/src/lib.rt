// Passes over a tile towards a target, by the port: its writer writes the streams of three components, and its reader reads what arrives of them.
// `compare` says where two tiles differ. Each function is proved safe and to end.
#![tactic(auto)]

ghost use Rattle.std.specs.Prelude.{◌≡◌, ◌≤◌, length};

use answer::Refusal;
use components::Streams;
use progressive_encoder::Written;
use tile::{Component, TileState};

pub mod compare;

// The room for the SRL stream of a component. A stream that does not fit is refused.
const SRL: usize = 131072;

// The room for the raw stream of a component, which has at most 7,680 bytes.
const RAW: usize = 8192;

// ---- a tile to begin with

// The component with a number, of three that lie one after another.
fn component<'a>(k: usize, coefficients: &'a [i16], signs: &'a [i8]) -> Component<'a>
    requires { (k ≤ 2) × (length coefficients.now ≡ 12288) × (length signs.now ≡ 12288) }
{
    let from = bands::COEFFICIENTS_PER_COMPONENT * k;
    let to = from + bands::COEFFICIENTS_PER_COMPONENT;
    Component {
        coefficients: &coefficients[from..to],
        sign: &signs[from..to],
    }
}

// Three rows of ten.
fn by_component(rows: [u8; 30]) -> [[u8; 10]; 3] {
    [
        planes::row_at(rows, 0),
        planes::row_at(rows, 10),
        planes::row_at(rows, 20),
    ]
}

// Loads a tile of three components that lie one after another, with quantizers that leave a value.
pub fn load(
    coefficients: &[i16],
    signs: &[i8],
    positions: [u8; 30],
    e: bool,
) -> Result<TileState, Refusal>
    requires { (length coefficients.now ≡ 12288) × (length signs.now ≡ 12288) }
{
    TileState::load(
        component(0, coefficients, signs),
        component(1, coefficients, signs),
        component(2, coefficients, signs),
        by_component(positions),
        [[6; 10]; 3],
        e,
    )
}

// ---- written

// Writes the streams of the component with a number. Its target is its uncut coefficients in every pass: the writer cuts them.
fn write_component(
    k: usize,
    symmetric: bool,
    target: &[i16],
    t: &TileState,
    rows: [u8; 30],
    srl: &mut [u8],
    raw: &mut [u8],
) -> Result<Written, Refusal>
    requires { (k ≤ 2) × (length target.now ≡ 12288) × (length srl.old ≡ 393216) × (length raw.old ≡ 24576) }
{
    let from = bands::COEFFICIENTS_PER_COMPONENT * k;
    let to = from + bands::COEFFICIENTS_PER_COMPONENT;
    let srl_from = SRL * k;
    let raw_from = RAW * k;
    pass_by_rule::write(
        symmetric,
        &target[from..to],
        &t.coefficients[from..to],
        planes::row_at(t.prog_quant, 10 * k),
        planes::row_at(rows, 10 * k),
        &t.sign[from..to],
        t.use_reduce_extrapolate,
        &mut srl[srl_from..srl_from + SRL],
        &mut raw[raw_from..raw_from + RAW],
    )
}

// Writes the streams of a pass over a tile, towards the target, to given positions: the lengths of six streams, of Y SRL, Y raw, Cb SRL, and so on.
fn write(
    symmetric: bool,
    target: &[i16],
    t: &TileState,
    rows: [u8; 30],
    srl: &mut [u8],
    raw: &mut [u8],
) -> Result<[usize; 6], Refusal>
    requires { (length target.now ≡ 12288) × (length srl.old ≡ 393216) × (length raw.old ≡ 24576) }
{
    let y = write_component(0, symmetric, target, t, rows, srl, raw)?;
    let cb = write_component(1, symmetric, target, t, rows, srl, raw)?;
    let cr = write_component(2, symmetric, target, t, rows, srl, raw)?;
    Ok([y.srl, y.raw, cb.srl, cb.raw, cr.srl, cr.raw])
}

// ---- what arrives of them

// The bytes of six streams.
fn total(lengths: [usize; 6]) -> usize
    ensures { result ≤ 786432 }
{
    let mut sum = 0;
    for len in lengths {
        sum += len.min(SRL);
    }
    sum
}

// The six lengths when only the first `bytes` bytes of all streams in a row arrive.
fn arrived(lengths: [usize; 6], bytes: usize) -> [usize; 6] {
    let mut out = lengths;
    let mut left = bytes;
    for len in out.iter_mut() {
        *len = left.min(*len);
        left -= *len;
    }
    out
}

// ---- read

// The bytes of a component's streams that arrive.
fn streams<'a>(k: usize, srl: &'a [u8], raw: &'a [u8], lengths: [usize; 6]) -> Streams<'a>
    requires { (k ≤ 2) × (length srl.now ≡ 393216) × (length raw.now ≡ 24576) }
{
    let srl_from = SRL * k;
    let raw_from = RAW * k;
    Streams {
        srl: &srl[srl_from..srl_from + lengths[2 * k].min(SRL)],
        raw: &raw[raw_from..raw_from + lengths[2 * k + 1].min(RAW)],
    }
}

// ---- a pass

// What a pass came to: the bits that arrived, and those that were missing.
#[derive(Clone, Copy)]
pub struct Passed {
    pub bits: u64,
    pub missing: u64,
}

// Room for the SRL streams of three components, and for their raw streams. A list of so many elements is not to be looked into: only its length is
// promised.
fn srl_room() -> [u8; 393216]
    ensures { 393216 ≡ length result }
{
    [0; 393216]
}

fn raw_room() -> [u8; 24576]
    ensures { 24576 ≡ length result }
{
    [0; 24576]
}

// Makes a pass over a tile, towards the target, to given positions; where it is cut, only the first half of its bytes arrives. A refusal leaves the
// tile as it was.
pub fn pass(
    symmetric: bool,
    target: &[i16],
    t: &mut TileState,
    rows: [u8; 30],
    is_cut: bool,
) -> Result<Passed, Refusal>
    requires { length target.now ≡ 12288 }
{
    let mut srl = srl_room();
    let mut raw = raw_room();
    let all = write(symmetric, target, t, rows, &mut srl, &mut raw)?;
    let lengths = if is_cut {
        arrived(all, total(all) / 2)
    } else {
        all
    };
    let missing = t.decode_upgrade(
        streams(0, &srl, &raw, lengths),
        streams(1, &srl, &raw, lengths),
        streams(2, &srl, &raw, lengths),
        by_component(rows),
        0,
    )?;
    Ok(Passed {
        bits: total(lengths) as u64 * 8,
        missing: u64::from(missing.srl) + u64::from(missing.raw),
    })
}
