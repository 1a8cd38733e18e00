// Signed sixteen-bit arithmetic: the signed operations of the port, each in a small function with an exact equation over ℤ.
// No public function here requires anything: each is exact for every argument of its types.
#![tactic(auto)]

ghost use Rattle.std.specs.Prelude.{◌≡◌, pos, nat_abs, ◌-ℤ◌};
ghost use Rattle.fixed.specs.Fixed.{clamp_i16, clamp_u8, wrap_i16, half_toward_zero, half_floor, floor_shift, round_shift, shift_left_clamp, add_scaled, sub_scaled, is_negative, is_positive, is_zero, is_one, sign_of, with_sign};
ghost use Rattle.fixed.specs.Inner.{step};

// ---- widening

// An i16 as an i32.
pub fn widen(value: i16) -> i32
    ensures { result ≡ value }
{
    i32::from(value)
}

// An i16 as an i64.
pub fn widen_i64(value: i16) -> i64
    ensures { result ≡ value }
{
    i64::from(value)
}

// ---- clamping and wrapping

// The nearest number in -32768 ..= 32767.
pub fn clamp_i16(value: i32) -> i16
    ensures { result ≡ clamp_i16 value }
{
    value.clamp(-32768, 32767) as i16
}

// The nearest number in 0 ..= 255.
pub fn clamp_u8(value: i64) -> u8
    ensures { result ≡ clamp_u8 value }
{
    value.clamp(0, 255) as u8
}

// The low sixteen bits, read as signed: wraps on purpose.
pub fn t(value: i32) -> i16
    ensures { result ≡ wrap_i16 value }
{
    ((value << 16) >> 16) as i16
}

// The difference, clamped.
pub fn sub_clamp(a: i16, b: i16) -> i16
    ensures { result ≡ clamp_i16 (a -ℤ b) }
{
    clamp_i16(i32::from(a) - i32::from(b))
}

// ---- halving

// Half of `value`, rounded towards zero.
pub fn half_toward_zero(value: i32) -> i32
    ensures { result ≡ half_toward_zero value }
{
    value / 2
}

// Half of `value`, rounded down.
pub fn half_floor(value: i32) -> i32
    ensures { result ≡ half_floor value }
{
    value >> 1
}

// ---- shifts

// Shifted right with floor.
pub fn shift_right_floor(value: i16, shift: u8) -> i16
    ensures { result ≡ floor_shift value shift }
{
    value >> shift.min(15)
}

// Shifted right with half of 2 to the `shift` added first. That is q - q / 2, q being the value shifted one place less, which sixteen bits hold:
// a loop over it is done eight at a time.
pub fn round_shift_right(value: i16, shift: u8) -> i16
    ensures { result ≡ round_shift value shift }
{
    if shift > 15 {
        return 0;
    }
    if shift == 0 {
        return value;
    }
    (value >> (shift - 1)) - (value >> shift)
}

// Shifted left, clamped: down from the top of thirty-two bits, where a loop has the value without widening it first.
pub fn shift_left_clamp(value: i16, shift: u8) -> i16
    ensures { result ≡ shift_left_clamp value shift }
{
    if shift > 15 {
        return clamp_i16(i32::from(value) << 15);
    }
    clamp_i16((i32::from(value) << 16) >> (16 - shift))
}

// ---- signs and magnitudes

pub fn is_negative(value: i16) -> bool
    ensures { result ≡ is_negative value }
{
    value.is_negative()
}

pub fn is_positive(value: i16) -> bool
    ensures { result ≡ is_positive value }
{
    value.is_positive()
}

pub fn is_zero(value: i16) -> bool
    ensures { result ≡ is_zero value }
{
    value == 0
}

// Whether a coefficient's sign says that nothing is known of it yet.
pub fn is_zero_sign(sign: i8) -> bool
    ensures { result ≡ is_zero sign }
{
    sign == 0
}

// Whether a coefficient's sign is 1, at which raw bits are added; at every other they are subtracted.
pub fn is_positive_sign(sign: i8) -> bool
    ensures { result ≡ is_one sign }
{
    sign == 1
}

// 1, 0 or -1: the sign that a coefficient has in a tile.
pub fn sign_of(value: i16) -> i8
    ensures { result ≡ sign_of value }
{
    value.signum() as i8
}

// The absolute value, 32768 for -32768.
pub fn magnitude(value: i16) -> u16
    ensures { result ≡ nat_abs value }
{
    value.unsigned_abs()
}

// Whether `a` is below `b`.
pub fn is_below(a: i16, b: i16) -> bool
    ensures { result ≡ is_negative (a -ℤ b) }
{
    a < b
}

// How far `a` is from `b`: at most 65535.
pub fn distance(a: i16, b: i16) -> u16
    ensures { result ≡ nat_abs (a -ℤ b) }
{
    a.abs_diff(b)
}

// `magnitude` with a sign, clamped: exact up to 32767, and -32768.
pub fn with_sign(magnitude: u16, negative: bool) -> i16
    ensures { result ≡ clamp_i16 (with_sign negative magnitude) }
{
    let value = i32::from(magnitude);
    clamp_i16(if negative { -value } else { value })
}

// ---- one coefficient's upgrade

// `magnitude` times 2 to the `shift`, or where the shift is longer a number that saturates every sum as the product would.
fn scale(magnitude: u16, shift: u8) -> i32
    ensures { result ≡ pos (step magnitude shift) }
{
    if shift <= 15 {
        return i32::from(magnitude) << shift;
    }
    if magnitude == 0 {
        return 0;
    }
    65536
}

// `coefficient` plus `magnitude` times 2 to the `shift`, clamped.
pub fn add_scaled(coefficient: i16, magnitude: u16, shift: u8) -> i16
    ensures { result ≡ add_scaled coefficient magnitude shift }
{
    clamp_i16(i32::from(coefficient) + scale(magnitude, shift))
}

// `coefficient` minus `magnitude` times 2 to the `shift`, clamped.
pub fn sub_scaled(coefficient: i16, magnitude: u16, shift: u8) -> i16
    ensures { result ≡ sub_scaled coefficient magnitude shift }
{
    clamp_i16(i32::from(coefficient) - scale(magnitude, shift))
}
