// The account of a shaper record: its summary, read from lent bytes.
#![tactic(auto)]

ghost use Rattle.std.specs.Prelude.{◌≡◌, ◌+◌, ◌-◌, ◌*◌, ◌/◌, ◌<◌, ◌≤◌, Bool, true, length};
ghost use Rattle.std.specs.Int.{w32};
ghost use Rattle.std.proofs.Common.{to_z};
ghost use Rattle.decide.specs.Test.{Holds, test};
ghost use Rattle.decide.specs.Size.{size_ok};
ghost use Rattle.shaper.specs.Limits.{limits_ok, most_amount, most_events};
ghost use Rattle.tally.specs.Tally.{step_of, plain_at, Within, Ready};
ghost use Rattle.summary.specs.Plain.{signed_from};
ghost use Rattle.tally.specs.Part.{Roomy, Lanes, Steady, good_of};
ghost use Rattle.account.specs.Account.{summarize_in, events_of};
ghost use Rattle.account.specs.Rest.{Passed, Blocked, Goes};
ghost use Rattle.account.specs.Lanes.{part_after, part_of};

use decide::Refusal;
use shaper::Limits;
use summary::Summary;
use tally::{Part, Parts, Tally};

// The most events that a record may have.
const MAX_EVENTS: u64 = Summary::MAX_EVENTS as u64;

// The smallest size of a send.
const MIN_SIZE: u32 = Summary::MIN_SIZE;

// The first four bytes of an event as one number, its length and its kind: of a tick while traffic waits,
const WAITING: u32 = 6 + 65536;

// of one while it does not,
const IDLE: u32 = 6 + 2 * 65536;

// and of a send.
const SEND: u32 = 6 + 3 * 65536;

// The kind of a send.
const SEND_KIND: u64 = 3;

// The 32 bits of the least signed number,
const LEAST: u32 = 2147483648;

// and what takes the smallest size there, where it stands in the upper 16 of them.
const TO_LEAST: u32 = 2147483648 - 16 * 65536;

// How many items are walked at once: as many as a block has events.
const ITEMS: u64 = 64;

// A block that was tallied: the tally behind it, and whether none of its events has a fault.
#[derive(Clone, Copy)]
struct Tallied {
    tally: Tally,
    good: bool,
}

// How far events are tallied: the place behind them, how many they are, and their tally.
#[derive(Clone, Copy)]
struct Reach {
    at: usize,
    n: u64,
    tally: Tally,
}

// The summary of a record, or its earliest fault. `runs` says whether runs may stand: in a record of the old form none may.
pub fn summarize(s: &[u8], runs: bool) -> Result<Summary, Refusal>
    ensures { result ≡ summarize_in runs s.now }
{
    let limits = record::header_of(s)?;
    events(&s[14..], limits, MAX_EVENTS, runs)
}

// The summary of all events that stand behind a header with these settings, or their earliest fault, where so many may come: block by block, and item by item
// from a block with a fault or a run on, until 64 items are passed, or behind the last whole block.
pub fn events(s: &[u8], limits: Limits, most: u64, runs: bool) -> Result<Summary, Refusal>
    requires { Holds (limits_ok limits) × (most ≤ most_events) }
    ensures { result ≡ events_of runs limits most s.now }
{
    let mut at: usize = 0;
    let mut n: u64 = 0;
    let mut t = tally::start(limits.lo);
    loop {
        let far = blocks(s, at, limits, n, t, most);
        if s.len() <= far.at {
            return Ok(summed(limits, far.n, far.tally));
        }
        let next = walk(s, far, limits, most - far.n, runs)?;
        at = next.at;
        n = next.n;
        t = next.tally;
    }
}

// How far whole blocks go from a place on without a fault and without a run.
fn blocks(s: &[u8], from: usize, limits: Limits, done: u64, start: Tally, most: u64) -> Reach
    requires { (from ≤ length s.now) × Ready limits done start × Steady (limits.hi - limits.lo) start × (done ≤ most) × (most ≤ most_events) }
    ensures { Blocked limits s.now from done start most result }
{
    let count = decide::lesser((s.len() - from) as u64 / 384, (most - done) / 64);
    let mut at = from;
    let mut n = done;
    let mut t = start;
    for _ in 0..count {
        let next = block(s, at, limits, n, t);
        let good = next.good;
        if !good {
            return Reach { at, n, tally: t };
        }
        t = next.tally;
        at += 384;
        n += 64;
    }
    Reach { at, n, tally: t }
}

// The tally of the 64 events from a place on, with no branch on what they hold: eight parts of eight events each, made side by side, and then the tally over them.
fn block(s: &[u8], from: usize, limits: Limits, n: u64, start: Tally) -> Tallied
    requires { (from + 384 ≤ length s.now) × Ready limits n start × (n + 64 ≤ most_events) × Steady (limits.hi - limits.lo) start }
    ensures good_value { result.good ≡ good_of (λ j. part_of (limits.hi - limits.lo) limits.mtu s.now (from + 48 * j) 8) 8 }
    ensures steady { result.good ≡ true → ((runs : Bool) → Passed runs limits s.now from n start 64 (from + 384) result.tally) × Steady (limits.hi - limits.lo) result.tally }
{
    let rise = limits.hi - limits.lo;
    let made = parts(s, from, rise, limits.mtu - MIN_SIZE);
    let good = made.good;
    let t = start.over(rise, made);
    Tallied { tally: t, good }
}

// The eight parts of the 64 events from a place on; span is mtu less the smallest size.
fn parts(s: &[u8], from: usize, rise: u32, span: u32) -> Parts
    requires { (from + 384 ≤ length s.now) × (rise ≤ 1048576) × (span ≤ 9200) }
    ensures { Lanes rise result (λ j. part_of rise (span + 16) s.now (from + 48 * j) 8) 8 }
{
    let mut levels: [u32; 8] = [0; 8];
    let mut tops: [u32; 8] = [0; 8];
    let mut lows: [u32; 8] = [0; 8];
    let mut total: u32 = 0;
    let mut good = true;
    for i in 0..8 {
        let p = eight(s, from + 48 * i, rise, span);
        levels[i] = p.level;
        tops[i] = p.top;
        lows[i] = p.low;
        total += p.total;
        good = good & p.good;
    }
    Parts {
        levels,
        tops,
        lows,
        total,
        good,
    }
}

// The part of the eight events from a place on.
fn eight(s: &[u8], from: usize, rise: u32, span: u32) -> Part
    requires { (from + 48 ≤ length s.now) × (rise ≤ 1048576) × (span ≤ 9200) }
    ensures { result ≡ part_of rise (span + 16) s.now from 8 }
{
    let mut p = Part::none(rise);
    for i in 0..8 {
        p = event(p, s, from + 6 * i, rise, span);
    }
    p
}

// The part behind the event at a place. Its length and kind are looked at as one number.
fn event(p: Part, s: &[u8], at: usize, rise: u32, span: u32) -> Part
    requires { Roomy rise p × (at + 6 ≤ length s.now) × (rise ≤ 1048576) × (span ≤ 9200) }
    ensures { result ≡ part_after rise (span + 16) s.now at p }
{
    let head = wire::get32(s, at);
    let tail = wire::get32(s, at + 2);
    let v = tail / 65536;
    let send = head == SEND;
    let idle = head == IDLE;
    let fits = sized(tail, span);
    p.grow(
        rise,
        send,
        idle,
        v,
        (send & fits) | idle | (head == WAITING),
    )
}

// Whether the number in the upper 16 of 32 bits is 16 to mtu, by one comparison: 16 is taken off it in 32 bits, where a number below 16 comes out above every span. Both sides
// count from the least signed number, as signed numbers are compared side by side with no step more. "Not above" spares the compiler a copy that "at most" takes.
fn sized(tail: u32, span: u32) -> bool
    requires { span ≤ 9200 }
    ensures { result ≡ test (size_ok (tail / 65536) (span + 16)) }
{
    let most = signed(LEAST + span * 65536 + 65535);
    !(most < signed(std::num::wrapping_add_u32(tail, TO_LEAST)))
}

// The signed number whose 32 bits are those of x.
fn signed(x: u32) -> i32
    ensures { result ≡ to_z w32 x }
{
    if x < LEAST {
        x as i32
    } else {
        -1i32 - ((4294967295 - x) as i32)
    }
}

// How far 64 items go from where a record is tallied so far, or all that are left, one item at a time; or the first fault. So many more events may come, and any
// byte after the last of them is one too many; an item stands for as many events as it says, in one step.
fn walk(s: &[u8], far: Reach, limits: Limits, budget: u64, runs: bool) -> Result<Reach, Refusal>
    requires { (far.at < length s.now) × Ready limits far.n far.tally × Steady (limits.hi - limits.lo) far.tally × (far.n + budget ≤ most_events) }
    ensures { Goes runs 9 limits s.now far.at far.n far.tally budget result }
{
    let mtu = limits.mtu;
    let rise = limits.hi as u64 - limits.lo as u64;
    let mut at = far.at;
    let mut left = budget;
    let mut t = far.tally;
    for _ in 0..ITEMS {
        match record::event_within(s, at, mtu, left, Refusal::TooMany, runs)? {
            Some(item) => {
                let many = item.count as u64;
                t = stepped(t, rise, item.kind as u64, brought(item.number as u64, many));
                left -= many;
                at = item.next;
            }
            None => break,
        }
    }
    Ok(Reach {
        at,
        n: far.n + (budget - left),
        tally: t,
    })
}

// The summary of the n events that stand in a tally.
fn summed(limits: Limits, n: u64, t: Tally) -> Summary
    requires { Ready limits n t }
    ensures { result ≡ signed_from (plain_at limits n t) }
{
    summary::signed(tally::finish(limits, n, t))
}

// The tally after an item. A send is stepped on its own: where it was read it was told from a tick already, and so neither pays for the other.
fn stepped(t: Tally, rise: u64, kind: u64, v: u64) -> Tally
    requires { Within most_events t × (rise ≤ 1048576) × (v ≤ most_amount * most_events) }
    ensures { result ≡ step_of rise kind v t }
{
    if kind == SEND_KIND {
        return tally::step(t, rise, SEND_KIND, v);
    }
    tally::step(t, rise, kind, v)
}

// What so many equal events bring.
fn brought(number: u64, count: u64) -> u64
    requires { (number ≤ most_amount) × (count ≤ most_events) }
    ensures { (result ≡ count * number) × (result ≤ most_amount * most_events) }
{
    count * number
}
