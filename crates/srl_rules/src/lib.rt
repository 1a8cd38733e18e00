// What both SRL coders go by: how kp moves, how long a run is, and what a width admits.
// These are parts of the coders, not of the port's interface.
#![tactic(auto)]

ghost use Rattle.std.specs.Prelude.{◌≡◌, ◌+◌, ◌-◌, ◌/◌, ◌^◌, min};
ghost use Rattle.srl_rules.specs.Rules.{width_ok};
ghost use Rattle.srl_rules.specs.Inner.{Width};

// kp at the start of a stream.
pub const INITIAL_KP: u8 = 8;

// The most that kp can be.
pub const MAX_KP: u8 = 80;

// kp after a whole run of zeros.
pub fn raised(kp: u8) -> u8
    ensures { result ≡ min (kp + 4) 80 }
{
    kp.saturating_add(4).min(MAX_KP)
}

// kp after a run that a nonzero value ends.
pub fn lowered(kp: u8) -> u8
    ensures { result ≡ kp - 6 }
{
    kp.saturating_sub(6)
}

// How many zeros a bit 0 stands for.
pub fn run_size(kp: u8) -> usize
    ensures { result ≡ 2 ^ (kp / 8) }
{
    1usize << (kp / 8)
}

// Whether a nonzero value can have the width.
pub fn width_ok(num_bits: u8) -> bool
    ensures { result ≡ width_ok num_bits }
{
    (1..=15).contains(&num_bits)
}

// The largest magnitude of a width.
pub fn max_magnitude(num_bits: u8) -> u16
    requires { Width num_bits }
    ensures { result ≡ 2 ^ num_bits - 1 }
{
    (1u16 << num_bits) - 1
}
