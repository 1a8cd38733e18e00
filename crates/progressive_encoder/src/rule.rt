// What a place gives for both streams, by the writer's rule. A writer is generic over its rule, so that its loops pay nothing for the choice.
ghost use Rattle.std.specs.Prelude.{◌≡◌, ◌≤◌, nat_abs};
ghost use Rattle.fixed.specs.Fixed.{is_zero, with_sign};
ghost use Rattle.progressive_encoder.specs.Encode.{Rule as PlaceRule, floor_rule, symmetric_rule, srl_difference, raw_difference, floors_apart};

// A rule, by what it gives for a place with the coefficient `c` and the previous one `p`.
pub trait Rule {
    ghost rule: { PlaceRule };

    // The magnitude of the value for the SRL stream. By the symmetric rule it may have sixteen bits.
    fn value_magnitude(c: i16, p: i16, position: u8) -> u16
        requires { position ≤ 15 }
        ensures { result ≡ nat_abs (rule.value position c p) };

    // Whether the value is negative. Of the value 0 either answer is right.
    fn value_is_negative(c: i16, p: i16, position: u8) -> bool
        ensures { rule.value position c p ≡ with_sign result (nat_abs (rule.value position c p)) };

    // Whether the value is 0.
    fn value_is_zero(c: i16, p: i16, position: u8) -> bool
        requires { position ≤ 15 }
        ensures { result ≡ is_zero (rule.value position c p) };

    // The number for the raw stream, of which the low bits are written.
    fn number(bottom: bool, c: i16, p: i16, position: u8) -> u16
        requires { position ≤ 15 }
        ensures { result ≡ rule.number bottom position c p };
}

// The source's rule: at a zero sign by floors, and elsewhere by magnitudes, in the bottom too.
pub struct FloorRule;

impl Rule for FloorRule {
    ghost rule = { floor_rule };

    fn value_magnitude(c: i16, p: i16, position: u8) -> u16 {
        fixed::magnitude(srl_difference(c, p, position))
    }

    fn value_is_negative(c: i16, p: i16, position: u8) -> bool {
        fixed::is_negative(srl_difference(c, p, position))
    }

    fn value_is_zero(c: i16, p: i16, position: u8) -> bool {
        fixed::shift_right_floor(c, position) == fixed::shift_right_floor(p, position)
    }

    fn number(_bottom: bool, c: i16, p: i16, position: u8) -> u16 {
        raw_difference(c, p, position)
    }
}

// The rule that cuts a negative coefficient as its positive twin: at a zero sign the difference with its sign kept and its magnitude shifted, in the
// bottom the difference of the floors.
pub struct SymmetricRule;

impl Rule for SymmetricRule {
    ghost rule = { symmetric_rule };

    fn value_magnitude(c: i16, p: i16, position: u8) -> u16 {
        fixed::distance(c, p) >> position
    }

    fn value_is_negative(c: i16, p: i16, _position: u8) -> bool {
        fixed::is_below(c, p)
    }

    fn value_is_zero(c: i16, p: i16, position: u8) -> bool {
        fixed::distance(c, p) >> position == 0
    }

    fn number(bottom: bool, c: i16, p: i16, position: u8) -> u16 {
        if bottom {
            return floors_apart(c, p, position);
        }
        raw_difference(c, p, position)
    }
}

// The value for the SRL stream by the source's rule.
fn srl_difference(c: i16, p: i16, position: u8) -> i16
    ensures { result ≡ srl_difference position c p }
{
    fixed::sub_clamp(
        fixed::shift_right_floor(c, position),
        fixed::shift_right_floor(p, position),
    )
}

// How far the magnitudes are apart, shifted, if the first is larger.
fn raw_difference(c: i16, p: i16, position: u8) -> u16
    requires { position ≤ 15 }
    ensures { result ≡ raw_difference position c p }
{
    let a = fixed::magnitude(c) >> position;
    let b = fixed::magnitude(p) >> position;
    if b < a { a - b } else { 0 }
}

// How far the floors are apart, if the first is larger.
fn floors_apart(c: i16, p: i16, position: u8) -> u16
    ensures { result ≡ floors_apart position c p }
{
    let a = fixed::shift_right_floor(c, position);
    let b = fixed::shift_right_floor(p, position);
    if fixed::is_below(a, b) {
        return 0;
    }
    fixed::distance(a, b)
}
