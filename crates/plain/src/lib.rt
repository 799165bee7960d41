// A summary by natural numbers: the paper's ceiling is hi - depth. Its functions are the leaves of the crate `summary`.
#![tactic(auto)]

ghost use Rattle.std.specs.Prelude.{◌≡◌, ◌*◌, ◌≤◌};
ghost use Rattle.std.proofs.Math.IntN.{sub_ℕ};
ghost use Rattle.decide.specs.Test.{test};
ghost use Rattle.shaper.specs.Limits.{most_amount, most_events};
ghost use Rattle.plain.specs.Plain.{plain_need, plain_depth, plain_joined, plain_end_of};
ghost use Rattle.plain.specs.Range.{plain_bounded, plain_usable, plain_range, Small};
ghost use Rattle.plain.specs.Ceiling.{depth_below};

use shaper::{Event, Limits};

// The settings, the counts, how far the ceiling lies below hi, and the least credit that permits throughout (hi + 1: none does).
#[derive(Clone, Copy)]
pub struct Plain {
    pub limits: Limits,
    pub events: u64,
    pub accrued: u64,
    pub sent: u64,
    pub depth: u64,
    pub need: u64,
}

impl Plain {
    pub const MAX_EVENTS: u64 = Event::MAX_EVENTS as u64;

    pub const MAX_AMOUNT: u64 = Event::MAX_AMOUNT as u64;

    pub const MAX_SIZE: u64 = Limits::MAX_MTU as u64;

    // Whether the summary is in the paper's range.
    pub fn in_range(self) -> bool
        ensures { result ≡ test (plain_range self) }
    {
        self.limits.in_range()
            && self.events <= Plain::MAX_EVENTS
            && self.is_bounded()
            && self.is_usable()
    }

    // Whether the counts, the ceiling and need are each within their bounds.
    fn is_bounded(self) -> bool
        requires { (self.limits.hi ≤ 1048576) × (self.events ≤ most_events) }
        ensures { result ≡ test (plain_bounded self) }
    {
        let hi = self.limits.hi as u64;
        self.accrued <= Plain::MAX_AMOUNT * self.events
            && self.sent <= Plain::MAX_SIZE * self.events
            && self.depth <= hi + Plain::MAX_SIZE * self.events
            && self.sent <= self.accrued + self.depth
            && self.need <= hi + 1
    }

    // Whether, if some credit suffices, neither the ceiling nor need + gain is negative.
    fn is_usable(self) -> bool
        requires { (self.limits.hi ≤ 1048576) × (self.accrued ≤ most_amount * most_events) }
        ensures { result ≡ test (plain_usable self) }
    {
        let hi = self.limits.hi as u64;
        hi < self.need || (self.depth <= hi && self.sent <= self.need + self.accrued)
    }

    // The summary of this one's events and then the other's.
    pub fn joined(self, other: Plain) -> Plain
        requires { Small self × Small other }
        ensures { result ≡ plain_joined self other }
    {
        let limits = self.limits;
        let events = self.events + other.events;
        let accrued = self.accrued + other.accrued;
        let sent = self.sent + other.sent;
        let depth = joined_depth(self, other);
        let need = joined_need(self, other);
        Plain {
            limits,
            events,
            accrued,
            sent,
            depth,
            need,
        }
    }

    // The credit at the end, from a starting credit that permits throughout.
    #[tactic(auto, unfolding(crate::specs::Plain::plain_end_of))]
    pub fn end(self, start: u64) -> u64
        requires { Small self × (start ≤ self.limits.hi) }
        ensures { result ≡ plain_end_of self start }
    {
        let hi = self.limits.hi as u64;
        decide::lesser(
            decide::less(start + self.accrued, self.sent),
            decide::less(hi, self.depth),
        )
    }
}

// How far a ceiling lies below hi, and 0 where it lies above.
pub fn depth_of(hi: u32, ceiling: i64) -> u64
    ensures { result ≡ depth_below hi ceiling }
{
    let hi = hi as u64;
    if ceiling < 0 {
        hi + ceiling.unsigned_abs()
    } else {
        decide::less(hi, ceiling as u64)
    }
}

// The ceiling that lies this far below hi.
pub fn ceiling_of(hi: u32, depth: u64) -> i64
    requires { depth ≤ 9223372036854775807 }
    ensures { result ≡ sub_ℕ hi depth }
{
    hi as i64 - depth as i64
}

// The least credit from which a's events and then b's are permitted, or hi + 1 where none suffices.
#[tactic(auto, unfolding(crate::specs::Plain::plain_need))]
fn joined_need(a: Plain, b: Plain) -> u64
    requires { Small a × Small b }
    ensures { result ≡ plain_need a b }
{
    let hi = a.limits.hi as u64;
    if hi < b.need + a.depth {
        return hi + 1;
    }
    let before = decide::less(b.need + a.sent, a.accrued);
    decide::lesser(decide::larger(a.need, before), hi + 1)
}

// How far the ceiling of a's events and then b's lies below hi.
#[tactic(auto, unfolding(crate::specs::Plain::plain_depth))]
fn joined_depth(a: Plain, b: Plain) -> u64
    requires { Small a × Small b }
    ensures { result ≡ plain_depth a b }
{
    decide::larger(decide::less(a.depth + b.sent, b.accrued), b.depth)
}
