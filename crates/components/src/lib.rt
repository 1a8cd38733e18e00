// A pass over three components in flat arrays: each is upgraded where it lies.

#![tactic(auto)]

ghost use Rattle.std.specs.Prelude.{◌≡◌, true, ◌+◌, ◌<◌, length};
ghost use Rattle.bands.specs.Positions.{row_in_domain};
ghost use Rattle.progressive_decoder.specs.Upgrade.{missing_bits};
ghost use Rattle.planes.specs.Planes.{three};
ghost use Rattle.components.specs.Inner.{Few, ComponentPassed, ComponentsPassed};

use progressive_decoder::MissingBits;

// The two streams of a component.
#[derive(Clone, Copy)]
pub struct Streams<'a> {
    pub srl: &'a [u8],
    pub raw: &'a [u8],
}

// One component of the flat arrays, by its number; the bits that were missing. The tile has seen that no position is above 15.
fn upgrade_component(
    k: usize,
    streams: Streams<'_>,
    positions: [u8; 30],
    rows: [[u8; 10]; 3],
    use_reduce_extrapolate: bool,
    coefficients: &mut [i16],
    sign: &mut [i8],
) -> MissingBits
    requires { (k < 3) × (row_in_domain positions ≡ true) × (length coefficients.old ≡ 12288) × (length sign.old ≡ 12288) }
    ensures { ComponentPassed k use_reduce_extrapolate positions rows streams.entry.srl.now streams.entry.raw.now
        coefficients.old sign.old coefficients.new sign.new result }
{
    let prev = planes::row_at(positions, k * 10);
    let curr = rows[k];
    let at = k * bands::COEFFICIENTS_PER_COMPONENT;
    let end = at + bands::COEFFICIENTS_PER_COMPONENT;
    progressive_decoder::upgrade::upgrade_all(
        streams.srl,
        streams.raw,
        prev,
        curr,
        use_reduce_extrapolate,
        &mut coefficients[at..end],
        &mut sign[at..end],
    )
}

// The bits that three components missed.
fn sum_of(y: MissingBits, cb: MissingBits, cr: MissingBits) -> MissingBits
    requires { Few y × Few cb × Few cr }
    ensures { result ≡ missing_bits (y.srl + cb.srl + cr.srl) (y.raw + cb.raw + cr.raw) }
{
    MissingBits {
        srl: y.srl + cb.srl + cr.srl,
        raw: y.raw + cb.raw + cr.raw,
    }
}

// All three; the bits that were missing in all of them.
pub fn upgrade_components(
    y: Streams<'_>,
    cb: Streams<'_>,
    cr: Streams<'_>,
    positions: [u8; 30],
    rows: [[u8; 10]; 3],
    use_reduce_extrapolate: bool,
    coefficients: &mut [i16],
    sign: &mut [i8],
) -> MissingBits
    requires { (row_in_domain positions ≡ true) × (length coefficients.old ≡ 12288) × (length sign.old ≡ 12288) }
    ensures { ComponentsPassed use_reduce_extrapolate positions rows
        (three y.entry.srl.now cb.entry.srl.now cr.entry.srl.now)
        (three y.entry.raw.now cb.entry.raw.now cr.entry.raw.now)
        coefficients.old sign.old coefficients.new sign.new result }
{
    let e = use_reduce_extrapolate;
    let y_missing = upgrade_component(0, y, positions, rows, e, coefficients, sign);
    let cb_missing = upgrade_component(1, cb, positions, rows, e, coefficients, sign);
    let cr_missing = upgrade_component(2, cr, positions, rows, e, coefficients, sign);
    sum_of(y_missing, cb_missing, cr_missing)
}
