// A band's places in two lists: those that have an SRL value, and the others. Eight at a time, so that no branch depends on the signs.
ghost use Rattle.std.specs.Prelude.{◌≡◌, false, cond, ◌+◌, ◌/◌, ◌≤◌, ◌<◌, pos, length, get_or};
ghost use Rattle.fixed.specs.Fixed.{is_zero};
ghost use Rattle.places.specs.Inner.{mask_of, place_rows};
ghost use Rattle.upgrade_steps.specs.Steps.{Step};
ghost use Rattle.upgrade_steps.specs.Inner.{band_step, from_srl};
ghost use Rattle.progressive_decoder.specs.Inner.{Split};

// 1 where the sign is 0, and 0 where it is not.
fn zero_count(sign: &[i8], i: usize) -> usize
    requires { i < length sign.now }
    ensures { (result ≡ cond (is_zero (get_or sign.now i (pos 0))) 1 0) × (result ≤ 1) }
{
    fixed::is_zero_sign(sign[i]) as usize
}

// 1 where the place has an SRL value, and 0 where it has none.
fn srl_count(t: upgrade_steps::BandStep, sign: &[i8], i: usize) -> usize
    requires { i < length sign.now }
    ensures { result ≡ cond (from_srl (band_step t) (get_or sign.now i (pos 0))) 1 0 }
{
    if t.bottom { 0 } else { zero_count(sign, i) }
}

// Puts the places from `from` to `to` into the lists, behind the `count` of `zeros` that are in; how many are in then.
fn split_places(
    t: upgrade_steps::BandStep,
    sign: &[i8],
    from: usize,
    to: usize,
    count: usize,
    zeros: &mut [u16],
    others: &mut [u16],
) -> usize
    requires { Split (band_step t) sign.now from count zeros.old others.old
        × (from ≤ to)
        × (to ≤ length sign.now)
        × (length sign.now ≤ 1024)
        × (length sign.now ≤ length zeros.old)
        × (length sign.now ≤ length others.old) }
    ensures { Split (band_step t) sign.now to result zeros.new others.new }
{
    let mut n = count;
    for i in from..to {
        zeros[n] = i as u16;
        others[i - n] = i as u16;
        n += srl_count(t, sign, i);
    }
    n
}

// Which of the four signs from `i` on are 0, as the bits of a number, that of the first the lowest.
fn four_mask(sign: &[i8], i: usize) -> usize
    requires { i + 4 ≤ length sign.now }
    ensures { result ≡ mask_of is_zero (pos 0) sign.now i 4 }
{
    let a = zero_count(sign, i);
    let b = zero_count(sign, i + 1);
    let c = zero_count(sign, i + 2);
    let d = zero_count(sign, i + 3);
    a + 2 * b + 4 * c + 8 * d
}

// Which of the eight signs from `i` on are 0.
fn eight_mask(sign: &[i8], i: usize) -> usize
    requires { i + 8 ≤ length sign.now }
    ensures { (result ≡ mask_of is_zero (pos 0) sign.now i 8) × (result < 256) }
{
    four_mask(sign, i) + 16 * four_mask(sign, i + 4)
}

// Puts eight places from `i` on, not of the bottom, into the lists, by a table: no branch depends on the signs.
fn split_eight(
    sign: &[i8],
    i: usize,
    n: usize,
    zeros: &mut [u16],
    others: &mut [u16],
    rows: &[u8; 2304],
) -> usize
    requires { (n ≤ i)
        × (i + 8 ≤ length sign.now)
        × (length sign.now ≤ 1024)
        × (length sign.now ≤ length zeros.old)
        × (length sign.now ≤ length others.old)
        × (rows.now ≡ place_rows) }
    ensures { (t : Step) → t.bottom ≡ false
        → Split t sign.now i n zeros.old others.old
        → Split t sign.now (i + 8) result zeros.new others.new }
{
    let m = eight_mask(sign, i);
    places::put_ones(rows, 255 - m, i as u16, others, i - n);
    places::put_ones(rows, m, i as u16, zeros, n)
}

// How many times eight of a band's places are taken at once: in the bottom the signs say nothing.
fn eights_in(t: upgrade_steps::BandStep, len: usize) -> usize
    ensures { result ≡ cond t.bottom 0 (len / 8) }
{
    if t.bottom { 0 } else { len / 8 }
}

// Puts the places that have an SRL value into `zeros`, and the others into `others`; how many have one.
pub fn split(
    t: upgrade_steps::BandStep,
    sign: &[i8],
    zeros: &mut [u16],
    others: &mut [u16],
    rows: &[u8; 2304],
) -> usize
    requires { (length sign.now ≤ 1024)
        × (length sign.now ≤ length zeros.old)
        × (length sign.now ≤ length others.old)
        × (rows.now ≡ place_rows) }
    ensures { Split (band_step t) sign.now (length sign.now) result zeros.new others.new }
{
    let len = sign.len();
    let eights = eights_in(t, len);
    let mut n: usize = 0;
    for k in 0..eights {
        n = split_eight(sign, 8 * k, n, zeros, others, rows);
    }
    split_places(t, sign, 8 * eights, len, n, zeros, others)
}
