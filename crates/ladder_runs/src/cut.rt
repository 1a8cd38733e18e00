// A tile's coefficients cut at rows of positions: a second form of the cut, by shifts of magnitudes, place by place.
ghost use Rattle.std.specs.Prelude.{◌≡◌, length};

// A magnitude without its low bits.
fn down(magnitude: u16, position: u8) -> u16 {
    if position > 15 {
        0
    } else {
        (magnitude >> position) << position
    }
}

// The next magnitude without low bits that is not below.
fn up(magnitude: u16, position: u8) -> u16 {
    let below = down(magnitude, position);
    if below == magnitude {
        return magnitude;
    }
    if position > 15 {
        return 0;
    }
    below.wrapping_add(1 << position)
}

// A coefficient, towards zero; in the bottom by floor, so that a negative one moves away from zero.
fn cut(value: i16, position: u8, is_bottom: bool) -> i16 {
    let negative = fixed::is_negative(value);
    let m = fixed::magnitude(value);
    if is_bottom && negative {
        return fixed::with_sign(up(m, position), true);
    }
    fixed::with_sign(down(m, position), negative)
}

// Cuts a component at a row of positions, by the bands of its places.
fn cut_component(target: &[i16], row: [u8; 10], bands: &[u8], out: &mut [i16], signs: &mut [i8]) {
    let places = target
        .iter()
        .zip(bands)
        .zip(out.iter_mut())
        .zip(signs.iter_mut());
    for (((value, band), left), sign) in places {
        let is_bottom = *band == 9;
        *left = cut(*value, row[usize::from(*band % 10)], is_bottom);
        if !is_bottom {
            *sign = fixed::sign_of(*left);
        }
    }
}

// Cuts a tile of three components. Signs outside the bottom are those of the cut, those of the bottom stay.
pub fn cut_tile(target: &[i16], rows: [u8; 30], e: bool, out: &mut [i16], signs: &mut [i8])
    requires { (length target.now ≡ 12288) × (length out.old ≡ 12288) × (length signs.old ≡ 12288) }
{
    let bands = bands::bands_of_places(e);
    for k in 0..3 {
        let from = bands::COEFFICIENTS_PER_COMPONENT * k;
        let to = from + bands::COEFFICIENTS_PER_COMPONENT;
        cut_component(
            &target[from..to],
            planes::row_at(rows, 10 * k),
            &bands,
            &mut out[from..to],
            &mut signs[from..to],
        );
    }
}
