// A turn of two windows that are walked together: what stands at both places, what is listed of it, and the places behind it.
ghost use Rattle.std.specs.Prelude.{◌≡◌, ◌-◌, ◌<◌, min};
ghost use Rattle.shaper.specs.Kind.{kind_of, number_of, event_of};
ghost use Rattle.apart.specs.Told.{differ};
ghost use Rattle.apart.specs.Turn.{stand_of, moved_of, on_of, stopped_of, pair_of, beside_of, behind_end, met_of, turn_of};

use crate::{Finding, Place, Side, Stand, Turn, Walk};
use shaper::Event;

// The next turn of a walk. Equal events are passed as many at once as both items have left; of events that differ, or that only one record has, a turn passes one.
pub fn turn(first: &[u8], second: &[u8], a: Side, b: Side, walk: Walk) -> Turn
    requires { walk.position < 9223372036854775808 }
    ensures { result ≡ turn_of a b first.now second.now walk }
{
    let p = walk.first;
    let q = walk.second;
    let x = stand(first, p, a);
    let y = stand(second, q, b);
    met(x, y, walk)
}

// What stands at a place of a window.
pub fn stand(window: &[u8], place: Place, side: Side) -> Stand
    ensures { result ≡ stand_of side window.now place }
{
    let last = side.last;
    let gone = place.gone;
    match record::event_at(window, place.at, side.mtu, true) {
        Ok(Some(item)) => {
            if gone < item.count {
                return Stand::Events {
                    kind: item.kind,
                    number: item.number,
                    count: item.count,
                    next: item.next,
                };
            }
            Stand::Unread
        }
        Ok(None) => {
            if last {
                return Stand::Ended;
            }
            Stand::Unread
        }
        Err(_) => Stand::Unread,
    }
}

// The turn by what stands at both places.
fn met(x: Stand, y: Stand, walk: Walk) -> Turn
    requires { walk.position < 9223372036854775808 }
    ensures { result ≡ met_of x y walk }
{
    match x {
        Stand::Events {
            kind,
            number,
            count,
            next,
        } => beside(walk, event(kind, number), count, next, y),
        Stand::Ended => behind_end(walk, y),
        Stand::Unread => stopped(walk),
    }
}

// The turn by an event of the first record and its item, and by what stands at the second's place.
fn beside(walk: Walk, e: Event, count: u32, next: usize, y: Stand) -> Turn
    requires { walk.position < 9223372036854775808 }
    ensures { result ≡ beside_of walk e count next y }
{
    let p = walk.first;
    let q = walk.second;
    let n = walk.position;
    match y {
        Stand::Events {
            kind,
            number,
            count: many,
            next: behind,
        } => pair(walk, e, event(kind, number), count, next, many, behind),
        Stand::Ended => on(moved(p, 1, count, next), q, n + 1, Finding::First(e)),
        Stand::Unread => stopped(walk),
    }
}

// The turn where the first record has ended, by what stands at the second's place.
fn behind_end(walk: Walk, y: Stand) -> Turn
    requires { walk.position < 9223372036854775808 }
    ensures { result ≡ behind_end walk y }
{
    let p = walk.first;
    let q = walk.second;
    let n = walk.position;
    match y {
        Stand::Events {
            kind,
            number,
            count,
            next,
        } => {
            let f = event(kind, number);
            on(p, moved(q, 1, count, next), n + 1, Finding::Second(f))
        }
        Stand::Ended => stopped(walk),
        Stand::Unread => stopped(walk),
    }
}

// The turn by two events and their items. Equal ones are passed at once, as many as both items have left.
fn pair(walk: Walk, e: Event, f: Event, count: u32, next: usize, many: u32, behind: usize) -> Turn
    requires { walk.position < 9223372036854775808 }
    ensures { result ≡ pair_of walk e f count next many behind }
{
    let p = walk.first;
    let q = walk.second;
    let n = walk.position;
    if differs(e, f) {
        let first = moved(p, 1, count, next);
        let second = moved(q, 1, many, behind);
        return on(first, second, n + 1, Finding::Both(e, f));
    }
    let m = least(count, p.gone, many, q.gone);
    let first = moved(p, m, count, next);
    let second = moved(q, m, many, behind);
    on(first, second, n + m as u64, Finding::Nothing)
}

// How many events two items both have left, of each of which so many have gone by.
fn least(count: u32, gone: u32, many: u32, past: u32) -> u32
    ensures { result ≡ min (count - gone) (many - past) }
{
    let left = decide::less(count as u64, gone as u64);
    let other = decide::less(many as u64, past as u64);
    decide::lesser(left, other) as u32
}

// The place behind so many more events of the item there, which stands for `count`: the next item's beginning behind its last.
fn moved(place: Place, m: u32, count: u32, next: usize) -> Place
    ensures { result ≡ moved_of place m count next }
{
    let gone = place.gone as u64 + m as u64;
    if gone < count as u64 {
        return Place {
            at: place.at,
            gone: gone as u32,
        };
    }
    Place { at: next, gone: 0 }
}

// A turn that goes on.
fn on(first: Place, second: Place, position: u64, line: Finding) -> Turn
    ensures { result ≡ on_of first second position line }
{
    let walk = Walk {
        first,
        second,
        position,
    };
    Turn {
        walk,
        line,
        stops: false,
    }
}

// A turn that stops.
fn stopped(walk: Walk) -> Turn
    ensures { result ≡ stopped_of walk }
{
    Turn {
        walk,
        line: Finding::Nothing,
        stops: true,
    }
}

// The event of a kind and a number.
pub fn event(kind: u16, number: u16) -> Event
    ensures { result ≡ event_of kind number }
{
    let number = number as u32;
    if kind == 1 {
        return Event::Waiting(number);
    }
    if kind == 2 {
        return Event::Idle(number);
    }
    Event::Send(number)
}

// Whether two events differ in kind or number.
pub fn differs(e: Event, f: Event) -> bool
    ensures { result ≡ differ e f }
{
    (kind(e) != kind(f)) | (number(e) != number(f))
}

// The kind of an event, as a record writes it.
fn kind(e: Event) -> u8
    ensures { result ≡ kind_of e }
{
    match e {
        Event::Waiting(_) => 1,
        Event::Idle(_) => 2,
        Event::Send(_) => 3,
    }
}

// The amount of a tick, or the size of a send.
fn number(e: Event) -> u32
    ensures { result ≡ number_of e }
{
    match e {
        Event::Waiting(amount) => amount,
        Event::Idle(amount) => amount,
        Event::Send(size) => size,
    }
}
