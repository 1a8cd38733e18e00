// Kinds 1 to 22: the functions of `fixed` and `bands`.
use bands::BandInfo;
use replay_input::kind::Kind;
use replay_input::number;

// Kinds 1 and 3: thirty-two bits to sixteen.
fn narrowed<F: Fn(i32) -> i16>(function: F, c: &[u8]) -> bool
    requires { F.IsAlwaysCallable function }
{
    function(number::i32_at(c, 0)) == number::i16_at(c, 4)
}

fn clamp_u8(c: &[u8]) -> bool {
    fixed::clamp_u8(number::i64_at(c, 0)) == number::u8_at(c, 8)
}

// Kinds 4 to 6: a value and a shift.
fn shifted<F: Fn(i16, u8) -> i16>(function: F, c: &[u8]) -> bool
    requires { F.IsAlwaysCallable function }
{
    function(number::i16_at(c, 0), number::u8_at(c, 2)) == number::i16_at(c, 3)
}

// Kinds 7 and 8: one coefficient's upgrade.
fn scaled<F: Fn(i16, u16, u8) -> i16>(function: F, c: &[u8]) -> bool
    requires { F.IsAlwaysCallable function }
{
    let coefficient = number::i16_at(c, 0);
    let magnitude = number::u16_at(c, 2);
    let shift = number::u8_at(c, 4);
    function(coefficient, magnitude, shift) == number::i16_at(c, 5)
}

fn sub_clamp(c: &[u8]) -> bool {
    fixed::sub_clamp(number::i16_at(c, 0), number::i16_at(c, 2)) == number::i16_at(c, 4)
}

fn magnitude(c: &[u8]) -> bool {
    fixed::magnitude(number::i16_at(c, 0)) == number::u16_at(c, 2)
}

fn with_sign(c: &[u8]) -> bool {
    fixed::with_sign(number::u16_at(c, 0), number::flag_at(c, 2)) == number::i16_at(c, 3)
}

// The sign, and the three tests that go with it.
fn sign_of(c: &[u8]) -> bool {
    let value = number::i16_at(c, 0);
    let sign = number::i8_at(c, 2);
    fixed::is_zero(value) == (sign == 0)
        && fixed::is_positive(value) == (sign == 1)
        && fixed::is_negative(value) == (sign == -1)
        && fixed::sign_of(value) == sign
}

fn halves(c: &[u8]) -> bool {
    let value = number::i32_at(c, 0);
    fixed::half_toward_zero(value) == number::i32_at(c, 4)
        && fixed::half_floor(value) == number::i32_at(c, 8)
}

fn widen(c: &[u8]) -> bool {
    let value = number::i16_at(c, 0);
    fixed::widen(value) == number::i32_at(c, 2) && fixed::widen_i64(value) == number::i64_at(c, 6)
}

// What a pass does at a sign: 0 reads the SRL stream, 1 adds raw bits, 2 subtracts them.
fn sign_use(c: &[u8]) -> bool {
    let sign = number::i8_at(c, 0);
    let answer = if fixed::is_zero_sign(sign) {
        0
    } else if fixed::is_positive_sign(sign) {
        1
    } else {
        2
    };
    number::u8_at(c, 1) == answer
}

fn same_band(a: BandInfo, b: BandInfo) -> bool {
    a.width == b.width && a.height == b.height && a.offset == b.offset
}

// One band, by itself and as a row of its whole table, and the number of its coefficients.
fn band(c: &[u8]) -> bool {
    let extrapolate = number::flag_at(c, 0);
    let index = usize::from(number::u8_at(c, 1));
    let answer = BandInfo {
        width: usize::from(number::u16_at(c, 2)),
        height: usize::from(number::u16_at(c, 4)),
        offset: usize::from(number::u16_at(c, 6)),
    };
    same_band(bands::band(extrapolate, index), answer)
        && index < bands::NUM_BANDS
        && same_band(bands::get_band_layout(extrapolate)[index], answer)
        && bands::band_count(extrapolate, index) == usize::from(number::u16_at(c, 8))
}

fn ll3_offset(c: &[u8]) -> bool {
    bands::ll3_offset(number::flag_at(c, 0)) == usize::from(number::u16_at(c, 1))
}

// The table's entry for a place; past the table, no band.
fn table_entry(extrapolate: bool, place: usize) -> u8 {
    if place >= bands::COEFFICIENTS_PER_COMPONENT {
        return bands::NO_BAND;
    }
    bands::bands_of_places(extrapolate)[place]
}

// The band of a place, by itself and as an entry of the whole table.
#[inline(never)]
fn band_of_place(c: &[u8]) -> bool {
    let extrapolate = number::flag_at(c, 0);
    let place = number::u64_at(c, 1) as usize;
    let answer = number::u8_at(c, 9);
    bands::band_of_place(extrapolate, place) == answer && table_entry(extrapolate, place) == answer
}

// Whether the port's answer to a case of these kinds is the recorded one.
pub fn agrees(kind: Kind, c: &[u8]) -> bool {
    match kind {
        Kind::ClampI16 => narrowed(fixed::clamp_i16, c),
        Kind::ClampU8 => clamp_u8(c),
        Kind::T => narrowed(fixed::t, c),
        Kind::RoundShiftRight => shifted(fixed::round_shift_right, c),
        Kind::ShiftLeftClamp => shifted(fixed::shift_left_clamp, c),
        Kind::ShiftRightFloor => shifted(fixed::shift_right_floor, c),
        Kind::AddScaled => scaled(fixed::add_scaled, c),
        Kind::SubScaled => scaled(fixed::sub_scaled, c),
        Kind::SubClamp => sub_clamp(c),
        Kind::Magnitude => magnitude(c),
        Kind::WithSign => with_sign(c),
        Kind::SignOf => sign_of(c),
        Kind::Halves => halves(c),
        Kind::Widen => widen(c),
        Kind::SignUse => sign_use(c),
        Kind::Band => band(c),
        Kind::Ll3Offset => ll3_offset(c),
        Kind::BandOfPlace => band_of_place(c),
        _ => false,
    }
}
