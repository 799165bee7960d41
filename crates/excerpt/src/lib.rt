// So many events of a record from a place on: their summary, and the place behind them. Nothing of the record but those events is looked at.
#![tactic(auto)]

ghost use Rattle.std.specs.Prelude.{cond, ◌≡◌, ◌≤◌, eqb};
ghost use Rattle.decide.specs.Number.{refusal_of};
ghost use Rattle.decide.specs.Test.{Holds};
ghost use Rattle.shaper.specs.Limits.{limits_ok, most_events};
ghost use Rattle.tally.specs.Tally.{plain_at, Ready};
ghost use Rattle.summary.specs.Plain.{signed_from};
ghost use Rattle.excerpt.specs.Place.{passed_of};
ghost use Rattle.excerpt.specs.Excerpt.{with_place, excerpt_of};
ghost use Rattle.excerpt.specs.Last.{shape_of, events_left};

use decide::Refusal;
use shaper::Limits;
use summary::Summary;
use tally::Tally;

// Where the first event of a record may stand: behind its header.
const HEADER: usize = 14;

// How many bytes an event takes.
const EVENT: usize = 6;

// The place of an event: the byte of its item in the record, and how many of that item's events come before it.
#[derive(Clone, Copy)]
pub struct Place {
    pub at: usize,
    pub gone: u64,
}

// The summary of some events, and the place behind them.
#[derive(Clone, Copy)]
pub struct Excerpt {
    pub sum: Summary,
    pub next: Place,
}

// The summary of so many events from a place on, and the place behind them; or their earliest fault. Where they stand as they would in a record of the old form
// they are summed as such a record is, and else item by item.
pub fn part(s: &[u8], limits: Limits, place: Place, count: u64) -> Result<Excerpt, Refusal>
    requires { Holds (limits_ok limits) × (count ≤ most_events) }
    ensures { result ≡ excerpt_of limits count s.now place }
{
    let at = place.at;
    let gone = place.gone;
    if count == 0 {
        return Ok(ended(limits, 0, tally::start(limits.lo), place));
    }
    if at < HEADER {
        return Err(Refusal::NotWhole);
    }
    if gone != 0 {
        return walked(s, limits, place, count);
    }
    if s.len() <= at {
        return Err(Refusal::NotWhole);
    }
    if ((s.len() - at) as u64) / 6 < count {
        return walked(s, limits, place, count);
    }
    let end = at + EVENT * count as usize;
    match account::events(&s[at..end], limits, count, false) {
        Ok(sum) => {
            let next = Place { at: end, gone: 0 };
            Ok(Excerpt { sum, next })
        }
        Err(_) => walked(s, limits, place, count),
    }
}

// The same item by item: of each as many events as are wanted, in one step.
fn walked(s: &[u8], limits: Limits, place: Place, count: u64) -> Result<Excerpt, Refusal>
    requires { Holds (limits_ok limits) × (count ≤ most_events) × (14 ≤ place.at) }
    ensures { result ≡ excerpt_of limits count s.now place }
{
    let mtu = limits.mtu;
    let rise = limits.hi as u64 - limits.lo as u64;
    let mut at = place.at;
    let mut gone = place.gone;
    let mut left = count;
    let mut t = tally::start(limits.lo);
    // No `for`: an item gives as many events as are wanted of it.
    while 0 < left {
        match record::event_at(s, at, mtu, true) {
            Ok(Some(item)) => {
                let many = item.count as u64;
                if many <= gone {
                    return Err(Refusal::NotWhole);
                }
                let taken = decide::lesser(many - gone, left);
                t = tally::step(t, rise, item.kind as u64, taken * item.number as u64);
                let behind = passed(at, gone + taken, many, item.next);
                left -= taken;
                at = behind.at;
                gone = behind.gone;
            }
            Ok(None) => {
                return Err(Refusal::NotWhole);
            }
            Err(fault) => {
                return Err(refused(gone, fault));
            }
        }
    }
    let next = Place { at, gone };
    Ok(ended(limits, count, t, next))
}

// The place behind some events of the item at a byte: within it, or where the next begins.
fn passed(at: usize, gone: u64, many: u64, next: usize) -> Place
    ensures { result ≡ passed_of at gone many next }
{
    if gone < many {
        return Place { at, gone };
    }
    Place { at: next, gone: 0 }
}

// The refusal of an item with a fault: 2 where it is asked for an event that is not its first, since such an item has none.
fn refused(gone: u64, fault: Refusal) -> Refusal
    ensures { result ≡ cond (eqb gone 0) fault (refusal_of 2) }
{
    if gone == 0 { fault } else { Refusal::NotWhole }
}

// The summary of the n events that stand in a tally, and the place behind them.
fn ended(limits: Limits, n: u64, t: Tally, next: Place) -> Excerpt
    requires { Ready limits n t }
    ensures { result ≡ with_place (signed_from (plain_at limits n t)) next }
{
    let sum = summary::signed(tally::finish(limits, n, t));
    Excerpt { sum, next }
}

// How many events stand from a place to the record's end; one more than `most` where it does not lead there in so many. Of faults only 2 is looked for: a send of any size is
// an event.
pub fn events_left(s: &[u8], mtu: u32, place: Place, most: u64) -> u64
    requires { most ≤ most_events }
    ensures { result ≡ events_left most mtu s.now place }
{
    let mut at = place.at;
    let mut gone = place.gone;
    let mut left = most;
    // No `for`: an item says itself how far on the next one is.
    while at < s.len() {
        let item = shape_at(s, at, mtu);
        if at < HEADER {
            return most + 1;
        }
        if item.count <= gone {
            return most + 1;
        }
        let ahead = item.count - gone;
        if left < ahead {
            return most + 1;
        }
        left -= ahead;
        at = item.next;
        gone = 0;
    }
    most - left
}

// The item at a place by its shape alone: how many events it stands for, none where it is not whole, and where the next begins.
fn shape_at(s: &[u8], at: usize, mtu: u32) -> Shape
    ensures { result ≡ shape_of mtu s.now at }
{
    match record::event_at(s, at, mtu, true) {
        Ok(Some(item)) => Shape {
            count: item.count as u64,
            next: item.next,
        },
        Ok(None) => Shape { count: 0, next: at },
        Err(fault) => match fault {
            // A send whose size is outside its range.
            Refusal::OutOfRange => Shape {
                count: 1,
                next: at + EVENT,
            },
            _ => Shape { count: 0, next: at },
        },
    }
}

// How many events an item stands for, and where the next begins.
#[derive(Clone, Copy)]
struct Shape {
    count: u64,
    next: usize,
}
