// Both streams, stored from the lists of a look. The caller has measured them.
ghost use Rattle.std.specs.Prelude.{◌≡◌, List, ℕ, ◌+◌, ◌^◌, ◌≤◌, ◌<◌, length, take};
ghost use Rattle.bits.specs.Inner.{SoundWord};
ghost use Rattle.progressive_encoder.specs.Inner.{Lists, number_bits, NumberWord, Event, Each, looked_by, FewFound, FoundAll, Roomy, fresh_sink, StoresEvent, StoresEvents, StoresStreams, StoresRaw, StoresSrl};

use crate::look::Found;
use crate::{Written, events, numbers};
use bits::writer::WordWriter;
use srl_encoder::encoder::CallState;

// One event, stored behind what a writer has.
fn store_event(out: &mut [u8], x: u64, c: CallState) -> CallState
    requires { Event x × SoundWord c.sink × (c.kp ≤ 80) × (c.sink.at + 100000 < 2 ^ 64) }
    ensures { StoresEvent x out.old c result out.new }
{
    let plan = srl_encoder::encoder::plan_run(c.kp, events::zeros_of(x));
    let sink = srl_encoder::encoder::put_planned(
        out,
        c.sink,
        plan,
        events::magnitude_of(x),
        events::is_negative_of(x),
        events::width_of(x),
    );
    CallState {
        sink,
        kp: srl_rules::lowered(plan.kp),
        zeros: c.zeros,
    }
}

// At the start of a stream.
fn fresh_sink() -> WordWriter
    ensures { result ≡ fresh_sink }
{
    WordWriter {
        at: 0,
        word: 0,
        held: 0,
    }
}

// Some events; `zeros` are pending behind them.
fn store_events(events: &[u64], zeros: usize, out: &mut [u8]) -> CallState
    requires { (length events.now ≤ 4096) × Each Event events.now }
    ensures { StoresEvents events.now out.old result zeros out.new }
{
    let mut done = CallState {
        sink: fresh_sink(),
        kp: 8,
        zeros,
    };
    for x in events {
        done = store_event(out, *x, done);
    }
    done
}

// The SRL stream: how many bytes it has. Without a value it has none.
fn store_srl(words: &[u64], found: Found, out: &mut [u8]) -> usize
    requires { (found.events.count ≤ 4096)
        × (found.events.zeros ≤ 4096)
        × (found.events.count ≤ length words.now)
        × Each Event (take found.events.count words.now) }
    ensures { (l : Lists) (raws : List ℕ) → FoundAll l (looked_by raws words.now found) → StoresSrl l out.old result out.new }
{
    if found.events.count + found.events.zeros == 0 {
        return 0;
    }
    let c = store_events(&words[..found.events.count], found.events.zeros, out);
    srl_encoder::encoder::put_last(out, c)
}

// The raw stream: how many bytes it has.
fn store_raw(raws: &[u32], out: &mut [u8]) -> usize
    requires { (length raws.now ≤ 4096) × Each NumberWord raws.now }
    ensures { StoresRaw (number_bits raws.now) out.old result out.new }
{
    let mut sink = fresh_sink();
    for x in raws {
        let number = numbers::number_of(*x);
        sink = bits::writer::put_word(out, sink, number, numbers::width_of(*x) as u8);
    }
    bits::writer::end_words(out, sink)
}

// Both streams, with room for both.
pub fn store_lists(
    raws: &[u32],
    words: &[u64],
    found: Found,
    srl_out: &mut [u8],
    raw_out: &mut [u8],
) -> Written
    requires { Roomy raws.now words.now × FewFound (looked_by raws.now words.now found) 4096 }
    ensures { (l : Lists) → FoundAll l (looked_by raws.now words.now found)
        → StoresStreams l srl_out.old raw_out.old result srl_out.new raw_out.new }
{
    let srl = store_srl(words, found, srl_out);
    let raw = store_raw(&raws[..found.numbers], raw_out);
    Written { srl, raw }
}
