// How many signs of each band of a tile are 0: how much of it is still undecided.
#![tactic(auto)]

ghost use Rattle.std.specs.Prelude.{◌≡◌, ◌≤◌, length};
ghost use Rattle.zero_signs.specs.ZeroSigns.{zeros_in, band_zeros, zero_signs_of, are_right};

// The zeros among a few signs: in a count of one byte the compiler takes sixteen signs at once.
fn few_zeros(signs: &[i8]) -> u8
    requires { length signs.now ≤ 128 }
    ensures { (result ≡ zeros_in signs.now) × (result ≤ length signs.now) }
{
    let mut n: u8 = 0;
    for sign in signs {
        if fixed::is_zero_sign(*sign) {
            n += 1;
        }
    }
    n
}

// The zeros among the signs of a band, by 128.
fn zeros(signs: &[i8]) -> u16
    requires { length signs.now ≤ 4096 }
    ensures { result ≡ zeros_in signs.now }
{
    let mut n: u16 = 0;
    for part in signs.chunks(128) {
        n += u16::from(few_zeros(part));
    }
    n
}

// The ten numbers of a component. The layout is at hand before the loop, since the compiler builds a table at each use.
fn count_component(signs: &[i8], use_reduce_extrapolate: bool, numbers: &mut [u16])
    requires { (length signs.now ≡ 4096) × (length numbers.old ≡ 10) }
    ensures { numbers.new ≡ band_zeros use_reduce_extrapolate signs.now }
{
    let layout = bands::get_band_layout(use_reduce_extrapolate);
    for (b, info) in layout.iter().enumerate() {
        let from = info.offset;
        numbers[b] = zeros(&signs[from..from + info.width * info.height]);
    }
}

// The thirty numbers of three components.
fn count_components(sign: &[i8], use_reduce_extrapolate: bool, numbers: &mut [u16])
    requires { (length sign.now ≡ 12288) × (length numbers.old ≡ 30) }
    ensures { numbers.new ≡ zero_signs_of use_reduce_extrapolate sign.now }
{
    let e = use_reduce_extrapolate;
    count_component(&sign[0..4096], e, &mut numbers[0..10]);
    count_component(&sign[4096..8192], e, &mut numbers[10..20]);
    count_component(&sign[8192..12288], e, &mut numbers[20..30]);
}

// The thirty numbers of a tile's signs: three rows of ten, in band order by the layout.
pub fn count(sign: &[i8; bands::COEFFICIENTS_PER_TILE], use_reduce_extrapolate: bool) -> [u16; 30]
    ensures { result ≡ zero_signs_of use_reduce_extrapolate sign.now }
{
    let mut numbers = [0u16; 30];
    count_components(sign, use_reduce_extrapolate, &mut numbers);
    numbers
}

// Whether the thirty numbers are those of the signs.
pub fn are_right(
    numbers: &[u16; 30],
    sign: &[i8; bands::COEFFICIENTS_PER_TILE],
    use_reduce_extrapolate: bool,
) -> bool
    ensures { result ≡ are_right use_reduce_extrapolate sign.now numbers.now }
{
    *numbers == count(sign, use_reduce_extrapolate)
}
