// A shaper record's summary: what a run of events does to any starting credit.
#![tactic(auto)]

ghost use Rattle.std.specs.Prelude.{◌≡◌, ◌≤◌, pos};
ghost use Rattle.std.specs.Int.Signed.{lt_z};
ghost use Rattle.shaper.specs.declared.Event.{Event};
ghost use Rattle.shaper.specs.Kind.{event_of};
ghost use Rattle.summary.specs.Summary.{ticks_of};
ghost use Rattle.summary.specs.Range.{in_range};
ghost use Rattle.summary.specs.Answer.{empty_answer, single_answer, counted_answer, run_answer, join_of, join_next, settle_of};
ghost use Rattle.summary.specs.Plain.{plain_from, signed_from};

use decide::Refusal;
use plain::Plain;
use shaper::{Event, Limits};

// The settings, the events counted, the bytes accrued and sent, the ceiling, and the least credit that permits throughout.
#[derive(Clone, Copy, PartialEq, Eq)]
pub struct Summary {
    pub limits: Limits,
    pub events: u32,
    pub accrued: u64,
    pub sent: u64,
    pub ceiling: i64,
    pub need: u64,
}

impl Summary {
    // Its limits: events at most so many, accrued and sent at most so many bytes an event; and the smallest send.
    pub const MAX_EVENTS: u32 = Event::MAX_EVENTS;

    pub const MAX_AMOUNT: u32 = Event::MAX_AMOUNT;

    pub const MIN_SIZE: u32 = Event::MIN_SIZE as u32;

    pub const MAX_SIZE: u32 = Limits::MAX_MTU;

    // The summary of no event. 1 where a setting is outside its range.
    pub fn empty(limits: Limits) -> Result<Summary, Refusal>
        ensures { result ≡ empty_answer limits }
    {
        if !limits.in_range() {
            return Err(Refusal::Setting);
        }
        let ceiling = limits.hi as i64;
        Ok(Summary {
            limits,
            events: 0,
            accrued: 0,
            sent: 0,
            ceiling,
            need: 0,
        })
    }

    // The summary of one tick while traffic waits. 1 where a setting is outside its range.
    pub fn waiting_tick(limits: Limits, amount: u16) -> Result<Summary, Refusal>
        ensures { result ≡ single_answer limits (Event.Waiting amount) }
    {
        if !limits.in_range() {
            return Err(Refusal::Setting);
        }
        Ok(ticks(limits, limits.hi, 1, amount as u64))
    }

    // The summary of one tick while no traffic waits. 1 where a setting is outside its range.
    pub fn idle_tick(limits: Limits, amount: u16) -> Result<Summary, Refusal>
        ensures { result ≡ single_answer limits (Event.Idle amount) }
    {
        if !limits.in_range() {
            return Err(Refusal::Setting);
        }
        Ok(ticks(limits, limits.lo, 1, amount as u64))
    }

    // The summary of one send. 1 where a setting is outside its range, 3 where the size is.
    pub fn send(limits: Limits, size: u32) -> Result<Summary, Refusal>
        ensures { result ≡ single_answer limits (Event.Send size) }
    {
        if !limits.in_range() {
            return Err(Refusal::Setting);
        }
        if size < Summary::MIN_SIZE {
            return Err(Refusal::OutOfRange);
        }
        if limits.mtu < size {
            return Err(Refusal::OutOfRange);
        }
        let sent = size as u64;
        let ceiling = plain::ceiling_of(limits.hi, sent);
        let need = limits.lo as u64 + 1;
        Ok(Summary {
            limits,
            events: 1,
            accrued: 0,
            sent,
            ceiling,
            need,
        })
    }

    // The summary of what an item of a record stands for: so many equal events, kind 1 ticks while traffic waits, 2 ticks while none does, any other a send.
    // 1 where a setting is outside its range; 3 where the size is, or the count: ticks come in runs, a send comes alone; 9 where they are over 1,000,000.
    pub fn counted(limits: Limits, kind: u16, number: u16, count: u32) -> Result<Summary, Refusal>
        ensures { result ≡ counted_answer limits (event_of kind number) count }
    {
        if !limits.in_range() {
            return Err(Refusal::Setting);
        }
        if kind == 1 {
            return run(limits, limits.hi, number, count);
        }
        if kind == 2 {
            return run(limits, limits.lo, number, count);
        }
        if count != 1 {
            return Err(Refusal::OutOfRange);
        }
        Summary::send(limits, number as u32)
    }

    // Whether the summary is in range.
    pub fn in_range(self) -> bool
        ensures { result ≡ in_range self }
    {
        if self.is_above() {
            return false;
        }
        self.plain().in_range()
    }

    // The summary of this one's events and then the other's. 3, 10 and 9 in that order.
    pub fn join(self, other: Summary) -> Result<Summary, Refusal>
        ensures { result ≡ join_of self other }
    {
        if !self.in_range() {
            return Err(Refusal::OutOfRange);
        }
        if !other.in_range() {
            return Err(Refusal::OutOfRange);
        }
        let ours = self.limits;
        let theirs = other.limits;
        if !ours.same(theirs) {
            return Err(Refusal::Unlike);
        }
        if Summary::MAX_EVENTS < self.events + other.events {
            return Err(Refusal::TooMany);
        }
        let whole = self.plain().joined(other.plain());
        Ok(signed(whole))
    }

    // The same with the answer behind it: a refusal there stands.
    pub fn join_next(self, next: Result<Summary, Refusal>) -> Result<Summary, Refusal>
        ensures { result ≡ join_next self next }
    {
        self.join(next?)
    }

    // What the events do from a starting credit. 3 where the summary or the credit is outside its range.
    pub fn settle(self, start: u64) -> Result<Option<u64>, Refusal>
        ensures { result ≡ settle_of self start }
    {
        if !self.in_range() {
            return Err(Refusal::OutOfRange);
        }
        if (self.limits.hi as u64) < start {
            return Err(Refusal::OutOfRange);
        }
        if start < self.need {
            return Ok(None);
        }
        Ok(Some(self.plain().end(start)))
    }

    // Whether the ceiling is above hiLimit.
    fn is_above(self) -> bool
        ensures { result ≡ lt_z (pos self.limits.hi) self.ceiling }
    {
        (self.limits.hi as i64) < self.ceiling
    }

    // The same summary with its ceiling as a depth below hiLimit.
    fn plain(self) -> Plain
        ensures { result ≡ plain_from self }
    {
        let limits = self.limits;
        let events = self.events as u64;
        let depth = plain::depth_of(limits.hi, self.ceiling);
        Plain {
            limits,
            events,
            accrued: self.accrued,
            sent: self.sent,
            depth,
            need: self.need,
        }
    }
}

// The summary of so many equal ticks that leave credit under this ceiling: each brings the amount. 3 where there is none, 9 where they are over 1,000,000.
fn run(limits: Limits, ceiling: u32, amount: u16, count: u32) -> Result<Summary, Refusal>
    ensures { result ≡ run_answer limits ceiling amount count }
{
    if count == 0 {
        return Err(Refusal::OutOfRange);
    }
    if Summary::MAX_EVENTS < count {
        return Err(Refusal::TooMany);
    }
    let bytes = count as u64 * amount as u64;
    Ok(ticks(limits, ceiling, count, bytes))
}

// The summary of so many ticks that leave credit under this ceiling and brought so many bytes in all.
fn ticks(limits: Limits, ceiling: u32, count: u32, bytes: u64) -> Summary
    ensures { result ≡ ticks_of limits ceiling count bytes }
{
    let ceiling = ceiling as i64;
    Summary {
        limits,
        events: count,
        accrued: bytes,
        sent: 0,
        ceiling,
        need: 0,
    }
}

// The summary whose ceiling is a depth below hiLimit.
pub fn signed(p: Plain) -> Summary
    requires { (p.events ≤ 4294967295) × (p.depth ≤ 9223372036854775807) }
    ensures { result ≡ signed_from p }
{
    let limits = p.limits;
    let events = p.events as u32;
    let ceiling = plain::ceiling_of(limits.hi, p.depth);
    Summary {
        limits,
        events,
        accrued: p.accrued,
        sent: p.sent,
        ceiling,
        need: p.need,
    }
}
