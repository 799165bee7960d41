// A summary in the making, one event at a time, with no branch on what the event holds. An event is a kind k (1 a tick while traffic waits, 2 a tick
// while it does not, 3 a send) and a number v (the amount, or the size). Any other kind counts as a tick: the faults are for the reader to find.
#![tactic(auto)]

ghost use Rattle.std.specs.Prelude.{◌≡◌, ◌*◌, ◌≤◌};
ghost use Rattle.shaper.specs.Limits.{most_amount, most_events};
ghost use Rattle.tally.specs.Tally.{start_of, pick_of, fall_of, bar_of, step_of, Within, plain_at};

mod lanes;

use plain::Plain;
use shaper::Limits;

// The level at the start, 2^40. A million events take less than 2^36 off it, whatever 16 bits each holds, so that no level falls below 0; and it is above
// every credit, so that a low of 0 is a need that none meets.
const BASE: u64 = 1099511627776;

// What the events so far come to.
#[derive(Clone, Copy)]
pub struct Tally {
    // the bytes that ticks brought
    pub accrued: u64,
    // BASE + accrued - sent
    pub level: u64,
    // level + depth, where depth is hiLimit - ceiling: as much as the level gains the depth loses, so that the peak only ever grows
    pub peak: u64,
    // the least level before a send, or 0 if the ceiling was then at most loLimit: need is BASE + loLimit + 1 - low, at most hiLimit + 1
    pub low: u64,
}

// A part: up to eight events as seen from where they begin, whatever stood before them. Its numbers have 32 bits, so that several parts are made side by side.
#[derive(Clone, Copy)]
pub struct Part {
    // the events' numbers, amounts and sizes alike
    pub total: u32,
    // the level, which begins at hiLimit - loLimit + ROOM
    pub level: u32,
    // the largest level behind an event, less hiLimit - loLimit unless it was an idle tick's; 0 before the first. A send at this level or below comes too late
    pub top: u32,
    // the least level before a send, or 0 if one came too late for every credit; UNSENT before the first
    pub low: u32,
    // no event has a fault
    pub good: bool,
}

// Eight parts that stand one behind the other.
#[derive(Clone, Copy)]
pub struct Parts {
    pub levels: [u32; 8],
    pub tops: [u32; 8],
    pub lows: [u32; 8],
    // the numbers of all their events
    pub total: u32,
    // none has a fault
    pub good: bool,
}

// The tally of no event.
pub fn start(lo: u32) -> Tally
    ensures { result ≡ start_of lo }
{
    let low = BASE + lo as u64 + 1;
    Tally {
        accrued: 0,
        level: BASE,
        peak: BASE,
        low,
    }
}

// The tally after one event more, whatever it holds, or after a run of equal ticks, where v is what they bring in all; rise is hiLimit - loLimit.
pub fn step(t: Tally, rise: u64, k: u64, v: u64) -> Tally
    requires { Within most_events t × (rise ≤ 1048576) × (v ≤ most_amount * most_events) }
    ensures { result ≡ step_of rise k v t }
{
    let accrued = pick(k, t.accrued, t.accrued + v);
    let level = pick(k, t.level - v, t.level + v);
    let peak = decide::larger(t.peak, level + fall(k, rise));
    let low = pick(
        k,
        decide::lesser(bar(rise, t.peak - t.level, t.level), t.low),
        t.low,
    );
    Tally {
        accrued,
        level,
        peak,
        low,
    }
}

// The summary of the n events that were tallied.
pub fn finish(limits: Limits, n: u64, t: Tally) -> Plain
    requires { Within most_events t }
    ensures { result ≡ plain_at limits n t }
{
    let lo = limits.lo as u64;
    let hi = limits.hi as u64;
    let accrued = t.accrued;
    let sent = t.accrued + BASE - t.level;
    let depth = t.peak - t.level;
    let need = decide::lesser(decide::less(BASE + lo + 1, t.low), hi + 1);
    Plain {
        limits,
        events: n,
        accrued,
        sent,
        depth,
        need,
    }
}

// The first number for a send, the second for a tick.
#[tactic(auto, unfolding(crate::specs::Tally::pick_of))]
fn pick(k: u64, send: u64, tick: u64) -> u64
    ensures { result ≡ pick_of k send tick }
{
    if k == 3 { send } else { tick }
}

// How far below hiLimit the event's own cut lies: an idle tick cuts to loLimit.
#[tactic(auto, unfolding(crate::specs::Tally::fall_of))]
fn fall(k: u64, rise: u64) -> u64
    ensures { result ≡ fall_of k rise }
{
    if k == 2 { rise } else { 0 }
}

// The level that a send is held against: 0 where the ceiling, depth below hiLimit, is at most loLimit, so that no credit permits the send.
#[tactic(auto, unfolding(crate::specs::Tally::bar_of))]
fn bar(rise: u64, depth: u64, level: u64) -> u64
    ensures { result ≡ bar_of rise depth level }
{
    if rise <= depth { 0 } else { level }
}
