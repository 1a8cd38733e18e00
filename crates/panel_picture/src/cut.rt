// Coefficients cut at positions, as the symmetric rule of the writer cuts them: what is left of them where their low bits have not arrived.
ghost use Rattle.std.specs.Prelude.{◌≡◌, cond, ◌%◌, ◌^◌, ◌≤◌, length};
ghost use Rattle.fixed.specs.Fixed.{clamp_i16};
ghost use Rattle.fixed.specs.Cut.{toward_zero, downward};

use bands::span;

// What a position takes off a magnitude: the rest of its division by 2 to the position.
fn low_bits(magnitude: u16, position: u8) -> u16
    ensures { result ≡ magnitude % 2 ^ position }
{
    if position > 15 {
        magnitude
    } else {
        magnitude % (1u16 << position)
    }
}

// A value cut towards zero to a multiple of 2 to the position: its sign stays.
fn toward_zero(value: i16, position: u8) -> i16
    ensures { result ≡ toward_zero position value }
{
    let magnitude = fixed::magnitude(value);
    fixed::with_sign(
        magnitude - low_bits(magnitude, position),
        fixed::is_negative(value),
    )
}

// A value cut down to such a multiple, by floor.
fn down(value: i16, position: u8) -> i16
    ensures { result ≡ clamp_i16 (downward position value) }
{
    fixed::shift_left_clamp(fixed::shift_right_floor(value, position), position)
}

// A value by its band: the bottom is cut by floor.
pub fn cut(is_bottom: bool, value: i16, position: u8) -> i16
    ensures { result ≡ cond is_bottom (clamp_i16 (downward position value)) (toward_zero position value) }
{
    if is_bottom {
        down(value, position)
    } else {
        toward_zero(value, position)
    }
}

// Cuts coefficients of a band, and stores what is left and its signs. Those of the bottom are stored too, as the source's first pass does; no
// pass reads or sets them.
fn cut_places(full: &[i16], is_bottom: bool, position: u8, out: &mut [i16], signs: &mut [i8]) {
    for ((value, left), sign) in full.iter().zip(out.iter_mut()).zip(signs.iter_mut()) {
        *left = cut(is_bottom, *value, position);
        *sign = fixed::sign_of(*left);
    }
}

// Cuts a component, in the reduce-extrapolate layout, at a position for each band.
pub fn cut_component(full: &[i16], positions: [u8; 10], out: &mut [i16], signs: &mut [i8])
    requires { (4096 ≤ length full.now) × (4096 ≤ length out.old) × (4096 ≤ length signs.old) }
{
    for (band, position) in positions.iter().enumerate() {
        let at = span::band_span(true, band);
        cut_places(
            &full[at.from..at.to],
            band == 9,
            *position,
            &mut out[at.from..at.to],
            &mut signs[at.from..at.to],
        );
    }
}
