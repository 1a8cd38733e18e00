// The encoder, value by value. A refusal alters nothing, so a call looks at all its values and measures them before it stores any.
ghost use Rattle.std.specs.Prelude.{◌≡◌, true, [], ◌∷◌, ◌++◌, ◌+◌, ◌-◌, ◌*◌, ◌/◌, ◌^◌, ◌≤◌, ◌<◌, max, ltb, pos, length, None};
ghost use Rattle.std.proofs.lemmas.List.Edits.{sets};
ghost use Rattle.answer.specs.Answers.{answered};
ghost use Rattle.bits.specs.Bits.{bit_of};
ghost use Rattle.bits.specs.Inner.{SoundWord, WroteWords};
ghost use Rattle.srl_rules.specs.Inner.{Width};
ghost use Rattle.srl_encoder.specs.Encode.{call_bytes, nonzero_bits, value_zeros, writer_ok, value_fault, fault};
ghost use Rattle.srl_encoder.specs.Finish.{flush, finish_bytes};
ghost use Rattle.srl_encoder.specs.Inner.{largest, plan_bits, GoodPlan, Planned, stop_count, call_start, call_done, call_end, WroteNonzero, WroteValues, WroteCall, WroteEnd, measure_start, value_measure, call_count, Good, GoodMeasure, GoodWriter};

use crate::{MAX_ZERO_RUN, SrlWriter};
use answer::Refusal;

// How a run of zeros is written: `steps` bits 0, a bit 1, and `rest` in kp / 8 bits.
#[derive(Clone, Copy)]
pub struct RunPlan {
    pub steps: usize,
    pub kp: u8,
    pub rest: usize,
}

// The encoder in a call: where its bits go, kp, and the pending zeros.
#[derive(Clone, Copy)]
pub struct CallState {
    pub sink: bits::writer::WordWriter,
    pub kp: u8,
    pub zeros: usize,
}

// The same where a call is only measured: its bits are counted in `place`.
#[derive(Clone, Copy)]
pub struct Measured {
    pub place: bits::writer::BitCount,
    pub kp: u8,
    pub zeros: usize,
}

// What a call has written: so many whole bytes, and the state after it.
#[derive(Clone, Copy)]
pub struct CallDone {
    pub count: usize,
    pub state: SrlWriter,
}

// ---- states

// Whether an encoder can have the state.
pub fn writer_ok(st: SrlWriter) -> bool
    ensures { result ≡ writer_ok st }
{
    st.kp <= srl_rules::MAX_KP
        && st.bit_count <= 7
        && st.pending_zeros <= MAX_ZERO_RUN
        && u16::from(st.current) < 1 << st.bit_count
}

pub fn call_start(st: SrlWriter) -> CallState
    ensures { result ≡ call_start st }
{
    CallState {
        sink: bits::writer::WordWriter {
            at: 0,
            word: st.current as u64,
            held: st.bit_count,
        },
        kp: st.kp,
        zeros: st.pending_zeros,
    }
}

fn measure_start(st: SrlWriter) -> Measured
    ensures { result ≡ measure_start st }
{
    Measured {
        place: bits::writer::BitCount {
            at: 0,
            bit_count: st.bit_count,
        },
        kp: st.kp,
        zeros: st.pending_zeros,
    }
}

// What a call hands back: the bits that still wait are in `sink`.
fn call_done(c: CallState, sink: bits::writer::BitWriter) -> CallDone
    ensures { result ≡ call_done c sink }
{
    CallDone {
        count: sink.at,
        state: SrlWriter {
            kp: c.kp,
            pending_zeros: c.zeros,
            current: sink.current,
            bit_count: sink.bit_count,
        },
    }
}

// ---- the values' refusals

// The refusal that a value of magnitude m causes, if any.
fn value_fault(zeros: usize, m: u16, num_bits: u8) -> Result<(), Refusal>
    requires { Width num_bits }
    ensures { result ≡ answered (value_fault num_bits zeros (pos m)) tt }
{
    if srl_rules::max_magnitude(num_bits) < m {
        return Err(Refusal::MagnitudeOutOfRange);
    }
    if m == 0 && zeros >= MAX_ZERO_RUN {
        return Err(Refusal::ZeroRunTooLong);
    }
    Ok(())
}

// The pending zeros after a value of magnitude m.
fn zeros_after(zeros: usize, m: u16) -> usize
    requires { zeros + 1 < 2 ^ 64 }
    ensures { result ≡ value_zeros zeros (pos m) }
{
    if m == 0 { zeros + 1 } else { 0 }
}

// The first refusal that a value causes, if any.
fn find_fault(values: &[i16], zeros: usize, num_bits: u8) -> Result<(), Refusal>
    requires { Width num_bits × (zeros ≤ 4096) }
    ensures { result ≡ answered (fault num_bits zeros values.now) tt }
{
    let mut pending = zeros;
    for v in values {
        let m = fixed::magnitude(*v);
        value_fault(pending, m, num_bits)?;
        pending = zeros_after(pending, m);
    }
    Ok(())
}

// The largest magnitude, 0 of no values. It has no branches, and the compiler does several values at a time.
fn largest_magnitude(values: &[i16]) -> u16
    ensures { result ≡ largest values.now }
{
    values
        .iter()
        .map(|v| fixed::magnitude(*v))
        .max()
        .unwrap_or(0)
}

// The refusal that the values cause, if any. Too few for a run that is too long, and none too large: that is soon seen.
pub fn values_fault(values: &[i16], zeros: usize, num_bits: u8) -> Result<(), Refusal>
    requires { Width num_bits × (zeros ≤ 4096) }
    ensures { result ≡ answered (fault num_bits zeros values.now) tt }
{
    if zeros + values.len() <= MAX_ZERO_RUN
        && largest_magnitude(values) <= srl_rules::max_magnitude(num_bits)
    {
        return Ok(());
    }
    find_fault(values, zeros, num_bits)
}

// ---- measuring: nothing is stored

// How a run of zeros before a nonzero value is written.
pub fn plan_run(kp: u8, zeros: usize) -> RunPlan
    requires { kp ≤ 80 }
    ensures { Planned kp zeros result }
{
    let mut plan = RunPlan {
        steps: 0,
        kp,
        rest: zeros,
    };
    while srl_rules::run_size(plan.kp) <= plan.rest {
        plan.steps += 1;
        plan.rest -= srl_rules::run_size(plan.kp);
        plan.kp = srl_rules::raised(plan.kp);
    }
    plan
}

fn run_length(r: RunPlan) -> usize
    requires { r.steps + 40 < 2 ^ 64 }
    ensures { result ≡ length (plan_bits r) }
{
    r.steps + 1 + ((r.kp / 8) as usize)
}

// How many bits 1 end a nonzero value: one, unless the magnitude is the maximum.
fn stop_count(m: u16, num_bits: u8) -> u8
    requires { Width num_bits }
    ensures { result ≡ stop_count num_bits m }
{
    if m < srl_rules::max_magnitude(num_bits) {
        1
    } else {
        0
    }
}

// The bits of a nonzero value of magnitude m.
fn nonzero_length(m: u16, num_bits: u8) -> usize
    requires { (1 ≤ m) × Width num_bits }
    ensures { result ≡ length (nonzero_bits num_bits true (m - 1)) }
{
    (m as usize) + (stop_count(m, num_bits) as usize)
}

// The bits of a run as planned and of the nonzero value of magnitude m behind it.
pub fn planned_length(plan: RunPlan, m: u16, num_bits: u8) -> usize
    requires { (plan.steps + 70000 < 2 ^ 64) × (1 ≤ m) × Width num_bits }
    ensures { result ≡ length (plan_bits plan ++ nonzero_bits num_bits true (m - 1)) }
{
    run_length(plan) + nonzero_length(m, num_bits)
}

// One value of magnitude m. Its sign takes a bit, whichever it is.
pub fn measure_value(p: Measured, m: u16, num_bits: u8) -> Measured
    requires { GoodMeasure p × (p.place.at + p.zeros + 70000 < 2 ^ 64) × Width num_bits }
    ensures { result ≡ value_measure num_bits p (pos m) }
{
    if m == 0 {
        return Measured {
            zeros: p.zeros + 1,
            ..p
        };
    }
    let plan = plan_run(p.kp, p.zeros);
    Measured {
        place: bits::writer::count_bits(p.place, planned_length(plan, m, num_bits)),
        kp: srl_rules::lowered(plan.kp),
        zeros: 0,
    }
}

// Whether the values complete more than `limit` bytes. It stops at the first value that does, so no count grows too large.
fn too_many(values: &[i16], p: Measured, num_bits: u8, limit: usize) -> bool
    requires { GoodMeasure p
        × (p.zeros ≤ 4096)
        × Width num_bits
        × (p.place.at ≤ limit)
        × (limit < 2 ^ 63) }
    ensures { result ≡ ltb limit (call_count num_bits p values.now) }
{
    let mut cur = p;
    for v in values {
        cur = measure_value(cur, fixed::magnitude(*v), num_bits);
        if limit < cur.place.at {
            return true;
        }
    }
    false
}

// Whether so many values take less than the room, whatever they are: each takes at most 2^w + 11 bits, and a pending run 4,096.
fn surely_fits(count: usize, num_bits: u8, room: usize) -> bool
    requires { Width num_bits }
    ensures { result ≡ true → count * (2 ^ num_bits + 11) + 4112 ≤ 8 * room }
{
    if 1 << 40 <= count {
        return false;
    }
    let most = count * ((1usize << num_bits) + 11);
    most / 8 + 515 <= room
}

// Whether a call completes more bytes than there is room for.
pub fn exceeds(values: &[i16], st: SrlWriter, num_bits: u8, room: usize) -> bool
    requires { GoodWriter st
        × Width num_bits
        × (fault num_bits st.pending_zeros values.now ≡ None)
        × (room < 2 ^ 63) }
    ensures { result ≡ ltb room (length (call_bytes num_bits st values.now)) }
{
    if surely_fits(values.len(), num_bits, room) {
        return false;
    }
    too_many(values, measure_start(st), num_bits, room)
}

// ---- storing

// A run as planned: its zeros, and then the bit 1 and the rest as one number.
fn put_run(out: &mut [u8], k: bits::writer::WordWriter, r: RunPlan) -> bits::writer::WordWriter
    requires { SoundWord k × (k.at + (r.steps + 100) < 2 ^ 64) × GoodPlan r }
    ensures { WroteWords out.old k (plan_bits r) result out.new }
{
    let zeros = bits::writer::put_zero_words(out, k, r.steps);
    let word = srl_rules::run_size(r.kp) + r.rest;
    bits::writer::put_word(out, zeros, word as u64, r.kp / 8 + 1)
}

// A nonzero value of magnitude m: its sign, its zeros and its end.
fn put_nonzero(
    out: &mut [u8],
    k: bits::writer::WordWriter,
    m: u16,
    negative: bool,
    num_bits: u8,
) -> bits::writer::WordWriter
    requires { SoundWord k × (k.at + 66000 < 2 ^ 64) × (1 ≤ m) × Width num_bits }
    ensures { WroteWords out.old k (nonzero_bits num_bits negative (m - 1)) result out.new }
{
    let stop = stop_count(m, num_bits);
    let sign = bits::writer::put_word(out, k, bits::writer::bit_of(negative) as u64, 1);
    let zeros = bits::writer::put_zero_words(out, sign, (m - 1) as usize);
    bits::writer::put_word(out, zeros, stop as u64, stop)
}

// The bits of a nonzero value of magnitude m, 1 to 31, as a number.
fn nonzero_word(m: u16, negative: bool, stop: u8) -> usize
    requires { (1 ≤ m) × (m ≤ 31) × (stop ≤ 1) }
    ensures { result ≡ bit_of negative * 2 ^ (m - 1 + stop) + stop }
{
    let sign = bits::writer::bit_of(negative);
    let low = (m as u8) - 1 + stop;
    ((sign as usize) << low) + (stop as usize)
}

// The bits of a run as planned, behind its zeros, and of the nonzero value behind it, as a number.
fn planned_word(r: RunPlan, m: u16, negative: bool, stop: u8) -> usize
    requires { GoodPlan r × (1 ≤ m) × (m ≤ 31) × (stop ≤ 1) }
    ensures { result ≡ (2 ^ (r.kp / 8) + r.rest) * 2 ^ (m + stop) + (bit_of negative * 2 ^ (m - 1 + stop) + stop) }
{
    let run = srl_rules::run_size(r.kp) + r.rest;
    let len = (m as u8) + stop;
    (run << len) + nonzero_word(m, negative, stop)
}

// A run as planned and the nonzero value of magnitude m behind it: of at most 32 bits they are one number.
pub fn put_planned(
    out: &mut [u8],
    k: bits::writer::WordWriter,
    plan: RunPlan,
    m: u16,
    negative: bool,
    num_bits: u8,
) -> bits::writer::WordWriter
    requires { SoundWord k
        × (k.at + (plan.steps + 70000) < 2 ^ 64)
        × GoodPlan plan
        × (1 ≤ m)
        × Width num_bits }
    ensures { WroteWords out.old k (plan_bits plan ++ nonzero_bits num_bits negative (m - 1)) result out.new }
{
    let n = planned_length(plan, m, num_bits);
    if n <= 32 {
        let word = planned_word(plan, m, negative, stop_count(m, num_bits));
        return bits::writer::put_word(out, k, word as u64, n as u8);
    }
    let run = put_run(out, k, plan);
    put_nonzero(out, run, m, negative, num_bits)
}

// The pending zeros and a nonzero value of magnitude m.
fn put_value(out: &mut [u8], c: CallState, m: u16, negative: bool, num_bits: u8) -> CallState
    requires { Good c
        × (c.sink.at + (c.zeros + 70000) < 2 ^ 64)
        × (1 ≤ m)
        × Width num_bits }
    ensures { WroteNonzero num_bits out.old c m negative result out.new }
{
    let plan = plan_run(c.kp, c.zeros);
    CallState {
        sink: put_planned(out, c.sink, plan, m, negative, num_bits),
        kp: srl_rules::lowered(plan.kp),
        zeros: 0,
    }
}

// One value. A zero, which most values are, is only counted.
fn put_next(out: &mut [u8], c: CallState, v: i16, num_bits: u8) -> CallState
    requires { Good c × (c.sink.at + (c.zeros + 70000) < 2 ^ 64) × Width num_bits }
    ensures { WroteValues num_bits out.old c (v ∷ []) result out.new }
{
    let m = fixed::magnitude(v);
    if m == 0 {
        return CallState {
            zeros: c.zeros + 1,
            ..c
        };
    }
    put_value(out, c, m, fixed::is_negative(v), num_bits)
}

// All values. The caller has measured them.
pub fn put_values(values: &[i16], c: CallState, out: &mut [u8], num_bits: u8) -> CallState
    requires { Good c
        × (c.zeros ≤ 4096)
        × Width num_bits
        × (call_end num_bits c values.now < 2 ^ 63) }
    ensures { WroteValues num_bits out.old c values.now result out.new }
{
    let mut done = c;
    for v in values {
        done = put_next(out, done, *v, num_bits);
    }
    done
}

// A call: the whole bytes that the values complete. The caller has measured them.
pub fn put_call(values: &[i16], st: SrlWriter, out: &mut [u8], num_bits: u8) -> CallDone
    requires { GoodWriter st
        × Width num_bits
        × (length (call_bytes num_bits st values.now) < 2 ^ 63) }
    ensures { WroteCall num_bits out.old st values.now result out.new }
{
    let done = put_values(values, call_start(st), out, num_bits);
    let last = bits::writer::settle(out, done.sink);
    call_done(done, last)
}

// ---- the end of a stream

// How many bits the pending zeros take.
pub fn flush_length(kp: u8, zeros: usize) -> usize
    requires { (kp ≤ 80) × (zeros ≤ 4096) }
    ensures { result ≡ length (flush kp zeros) }
{
    if zeros != 0 {
        run_length(plan_run(kp, zeros))
    } else {
        0
    }
}

// How many bytes the end of a stream takes.
pub fn end_length(st: SrlWriter) -> usize
    requires { GoodWriter st }
    ensures { result ≡ length (finish_bytes st) }
{
    let n = flush_length(st.kp, st.pending_zeros);
    ((st.bit_count as usize) + n + 7) / 8 + 1
}

// The pending zeros, as if a value followed.
pub fn put_flush(
    out: &mut [u8],
    k: bits::writer::WordWriter,
    kp: u8,
    zeros: usize,
) -> bits::writer::WordWriter
    requires { SoundWord k × (k.at + (zeros + 100) < 2 ^ 64) × (kp ≤ 80) }
    ensures { WroteWords out.old k (flush kp zeros) result out.new }
{
    if zeros == 0 {
        return k;
    }
    let plan = plan_run(kp, zeros);
    put_run(out, k, plan)
}

// The end of a stream behind bits that wait: the pending zeros, the padding and a byte 0. How many bytes there are then.
pub fn put_last(out: &mut [u8], c: CallState) -> usize
    requires { Good c × (c.sink.at + (c.zeros + 200) < 2 ^ 64) }
    ensures { WroteEnd out.old c result out.new }
{
    let flushed = put_flush(out, c.sink, c.kp, c.zeros);
    let n = bits::writer::end_words(out, flushed);
    bits::writer::store(out, n, 0);
    n + 1
}

// The end of a stream: the pending zeros, the padding and a byte 0.
pub fn put_end(out: &mut [u8], st: SrlWriter)
    requires { GoodWriter st }
    ensures { out.new ≡ sets out.old 0 (finish_bytes st) }
{
    put_last(out, call_start(st));
}
