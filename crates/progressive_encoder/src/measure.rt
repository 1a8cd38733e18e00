// How long both streams are, from the lists of a look. Nothing is stored.
ghost use Rattle.std.specs.Prelude.{◌≡◌, ◌||◌, ◌+◌, ◌*◌, ◌≤◌, ◌<◌, ◌^◌, length};
ghost use Rattle.srl_encoder.specs.Finish.{flush};
ghost use Rattle.progressive_encoder.specs.Inner.{Lists, srl_length, number_bits, Event, Each, looked_by, MeasuresEvent, MeasuresEvents, FewFound, FoundAll, Roomy, MeasuresStreams};

use crate::events::{self, Events};
use crate::look::Found;

// What some events take: how many bits, kp behind them, and whether a value is too large for its width.
#[derive(Clone, Copy)]
pub struct EventsMeasured {
    pub bits: usize,
    pub kp: u8,
    pub too_large: bool,
}

// Whether a value is too large for its width, and how many bytes each stream has.
#[derive(Clone, Copy)]
pub struct Lengths {
    pub too_large: bool,
    pub srl: usize,
    pub raw: usize,
}

// One event more.
fn measure_event(x: u64, done: EventsMeasured) -> EventsMeasured
    requires { Event x × (done.kp ≤ 80) × (done.bits + 100000 < 2 ^ 64) }
    ensures { MeasuresEvent x done result }
{
    let m = events::magnitude_of(x);
    let width = events::width_of(x);
    let plan = srl_encoder::encoder::plan_run(done.kp, events::zeros_of(x));
    let most = srl_rules::max_magnitude(width);
    EventsMeasured {
        bits: done.bits + srl_encoder::encoder::planned_length(plan, m, width),
        kp: srl_rules::lowered(plan.kp),
        too_large: done.too_large | (most < m),
    }
}

// Some events.
fn measure_events(events: &[u64]) -> EventsMeasured
    requires { (length events.now ≤ 4096) × Each Event events.now }
    ensures { MeasuresEvents events.now result }
{
    let mut done = EventsMeasured {
        bits: 0,
        kp: 8,
        too_large: false,
    };
    for x in events {
        done = measure_event(*x, done);
    }
    done
}

// How many bits some numbers take.
fn number_bits(raws: &[u32]) -> usize
    requires { length raws.now ≤ 4096 }
    ensures { (result ≡ length (number_bits raws.now)) × (result ≤ 65536 * length raws.now) }
{
    let mut bits: usize = 0;
    for x in raws {
        bits += crate::numbers::width_of(*x) as usize;
    }
    bits
}

// How many bytes the SRL stream has: none where it has no value.
fn srl_length(measured: EventsMeasured, events: Events) -> usize
    requires { (measured.kp ≤ 80) × (events.count ≤ 4096) × (events.zeros ≤ 4096) × (measured.bits + 10000 < 2 ^ 64) }
    ensures { result ≡ srl_length (events.count + events.zeros) (measured.bits + length (flush measured.kp events.zeros)) }
{
    if events.count + events.zeros == 0 {
        return 0;
    }
    let n = srl_encoder::encoder::flush_length(measured.kp, events.zeros);
    (measured.bits + n + 7) / 8 + 1
}

// Both streams.
pub fn measure_lists(raws: &[u32], words: &[u64], found: Found) -> Lengths
    requires { Roomy raws.now words.now × FewFound (looked_by raws.now words.now found) 4096 }
    ensures { (l : Lists) → FoundAll l (looked_by raws.now words.now found) → MeasuresStreams l result }
{
    let measured = measure_events(&words[..found.events.count]);
    let raw = number_bits(&raws[..found.numbers]);
    Lengths {
        too_large: measured.too_large,
        srl: srl_length(measured, found.events),
        raw: (raw + 7) / 8,
    }
}
