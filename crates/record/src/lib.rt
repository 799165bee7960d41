// A shaper record, read from lent bytes: its header, and each event at its place.
#![tactic(auto)]

ghost use Rattle.std.specs.Prelude.{true, ◌≡◌, ◌+◌, ◌-◌, ◌≤◌, ◌<◌, length};
ghost use Rattle.wire.specs.Wire.{le};
ghost use Rattle.shaper.specs.Limits.{most_events};
ghost use Rattle.record.specs.Read.{field_fault, run_field_fault};
ghost use Rattle.record.specs.Step.{header_of_of, item_at, item_within, passed};

use decide::Refusal;
use shaper::{Event, Limits};

// The kind of a send: the last that an event may have.
const SEND: u16 = 3;

// An item at its place: its kind and number, how many events it stands for and where the next begins.
#[derive(Clone, Copy)]
pub struct Placed {
    pub kind: u16,
    pub number: u16,
    pub count: u32,
    pub next: usize,
}

// The settings that a record's header bears, or its fault.
pub fn header_of(s: &[u8]) -> Result<Limits, Refusal>
    ensures { result ≡ header_of_of s.now }
{
    if s.len() < 14 {
        return Err(Refusal::NotWhole);
    }
    if wire::get16(s, 0) != 14 {
        return Err(Refusal::NotWhole);
    }
    if wire::get16(s, 2) != 16 {
        return Err(Refusal::NotWhole);
    }
    let limits = Limits {
        mtu: wire::get16(s, 4) as u32,
        lo: wire::get32(s, 6),
        hi: wire::get32(s, 10),
    };
    if !limits.in_range() {
        return Err(Refusal::Setting);
    }
    Ok(limits)
}

// The item at a place of a record whose header bears this mtu, or its fault; past the last byte, the end, there is none. `runs` says whether runs may stand: in a record of the old form none may.
pub fn event_at(s: &[u8], at: usize, mtu: u32, runs: bool) -> Result<Option<Placed>, Refusal>
    ensures { result ≡ item_at runs mtu s.now at }
{
    if s.len() <= at {
        return Ok(None);
    }
    if s.len() - at < 6 {
        return Err(Refusal::NotWhole);
    }
    let kind = wire::get16(s, at + 2);
    if SEND < kind {
        return other_at(s, at, mtu, kind, runs);
    }
    let length = wire::get16(s, at);
    let number = wire::get16(s, at + 4);
    fault(mtu, length, kind, number)?;
    Ok(Some(Placed {
        kind,
        number,
        count: 1,
        next: at + length as usize,
    }))
}

// What stands at a place whose kind is no event's: a run, where runs may stand, or a fault. Told apart here, runs cost an event no test.
fn other_at(s: &[u8], at: usize, mtu: u32, kind: u16, runs: bool) -> Result<Option<Placed>, Refusal>
    requires { (at + 6 ≤ length s.now) × (kind ≡ le 2 s.now (at + 2)) × (3 < kind) }
    ensures { result ≡ item_at runs mtu s.now at }
{
    if runs & (kind == 4) {
        return run_at(s, at, mtu);
    }
    Err(Refusal::NotWhole)
}

// The run at a place, where an item of kind 4 stands.
fn run_at(s: &[u8], at: usize, mtu: u32) -> Result<Option<Placed>, Refusal>
    requires { (at + 6 ≤ length s.now) × (le 2 s.now (at + 2) ≡ 4) }
    ensures { result ≡ item_at true mtu s.now at }
{
    if s.len() - at < 10 {
        return Err(Refusal::NotWhole);
    }
    let length = wire::get16(s, at);
    let tick = wire::get16(s, at + 4);
    let amount = wire::get16(s, at + 6);
    let count = wire::get16(s, at + 8);
    run_fault(length, tick, count)?;
    Ok(Some(Placed {
        kind: tick,
        number: amount,
        count: count as u32,
        next: at + length as usize,
    }))
}

// The same where `left` more events may come: any byte after the last of them gives `late`, and so does an item that stands for more than may come.
pub fn event_within(
    s: &[u8],
    at: usize,
    mtu: u32,
    left: u64,
    late: Refusal,
    runs: bool,
) -> Result<Option<Placed>, Refusal>
    ensures { result ≡ item_within runs late left mtu s.now at }
{
    match event_at(s, at, mtu, runs) {
        Ok(Some(item)) => {
            if left < item.count as u64 {
                return Err(late);
            }
            Ok(Some(item))
        }
        Ok(None) => Ok(None),
        Err(fault) => {
            if left == 0 {
                return Err(late);
            }
            Err(fault)
        }
    }
}

// How many more events may come behind so many.
pub fn may_come(done: u64) -> u64
    ensures { result ≡ most_events - done }
{
    decide::less(Event::MAX_EVENTS as u64, done)
}

// The fault of an event's fields, if any.
fn fault(mtu: u32, length: u16, kind: u16, number: u16) -> Result<(), Refusal>
    ensures { result ≡ passed (field_fault mtu length kind number) }
{
    if length != 6 {
        return Err(Refusal::NotWhole);
    }
    if kind < 1 {
        return Err(Refusal::NotWhole);
    }
    if 3 < kind {
        return Err(Refusal::NotWhole);
    }
    if kind != 3 {
        return Ok(());
    }
    if number < Event::MIN_SIZE {
        return Err(Refusal::OutOfRange);
    }
    if mtu < number as u32 {
        return Err(Refusal::OutOfRange);
    }
    Ok(())
}

// The fault of a run's fields, if any.
fn run_fault(length: u16, tick: u16, count: u16) -> Result<(), Refusal>
    ensures { result ≡ passed (run_field_fault length tick count) }
{
    if length != 10 {
        return Err(Refusal::NotWhole);
    }
    if tick < 1 {
        return Err(Refusal::NotWhole);
    }
    if 2 < tick {
        return Err(Refusal::NotWhole);
    }
    if count < 2 {
        return Err(Refusal::NotWhole);
    }
    Ok(())
}
