// Events that stand in step in two windows, one behind another: 6 bytes each.
ghost use Rattle.std.specs.Prelude.{◌≡◌, ◌+◌, ◌*◌, ◌≤◌, ◌<◌, length};
ghost use Rattle.decide.specs.Test.{test};
ghost use Rattle.wire.specs.Wire.{le, put};
ghost use Rattle.shaper.specs.Kind.{event_of};
ghost use Rattle.record.specs.Read.{good};
ghost use Rattle.apart.specs.Turn.{line_if};
ghost use Rattle.apart.specs.Page.{level_of, passed_of};

use crate::line::put_both;
use crate::together::{differs, event};
use crate::{Begun, Place, Walk};
use shaper::Event;

// How many events may stand from both places on; none where an item has begun to go by.
pub fn level(first: &[u8], second: &[u8], p: Place, q: Place) -> usize
    ensures { result ≡ level_of first.now second.now p q }
{
    if p.gone != 0 {
        return 0;
    }
    if q.gone != 0 {
        return 0;
    }
    let x = decide::less(first.len() as u64, p.at as u64) / 6;
    let y = decide::less(second.len() as u64, q.at as u64) / 6;
    decide::lesser(decide::lesser(x, y), 5000) as usize
}

// Whether an event stands at a place, and has no fault.
pub fn is_event(s: &[u8], at: usize, mtu: u32) -> bool
    requires { at + 6 ≤ length s.now }
    ensures { result ≡ test (good mtu (le 2 s.now at) (le 2 s.now (at + 2)) (le 2 s.now (at + 4))) }
{
    let length = wire::get16(s, at);
    let kind = wire::get16(s, at + 2);
    let number = wire::get16(s, at + 4) as u32;
    (length == 6)
        & (((1 <= kind) & (kind <= 3)) & ((kind < 3) | ((16 <= number) & (number <= mtu))))
}

// The event at a place.
pub fn event_in(s: &[u8], at: usize) -> Event
    requires { at + 6 ≤ length s.now }
    ensures { result ≡ event_of (le 2 s.now (at + 2)) (le 2 s.now (at + 4)) }
{
    event(wire::get16(s, at + 2), wire::get16(s, at + 4))
}

// Writes the line of a position, where its two events differ.
pub fn put_if(s: &mut [u8], at: usize, n: u64, e: Event, f: Event) -> usize
    requires { at + length (line_if n e f) ≤ length s.old }
    ensures value { result ≡ at + length (line_if n e f) }
    ensures s_after { s.new ≡ put s.old at (line_if n e f) }
{
    if differs(e, f) {
        return put_both(s, at, n, e, f);
    }
    at
}

// What was filled where so many events of each window went by.
pub fn passed(walk: Walk, k: usize, end: usize) -> Begun
    requires { (walk.first.at + 6 * k < 18446744073709551616) × (walk.second.at + 6 * k < 18446744073709551616) × (walk.position + k < 18446744073709551616) }
    ensures { result ≡ record { walk = passed_of walk k; turns = k; end = end } }
{
    let p = walk.first;
    let q = walk.second;
    let first = Place {
        at: p.at + 6 * k,
        gone: p.gone,
    };
    let second = Place {
        at: q.at + 6 * k,
        gone: q.gone,
    };
    let next = Walk {
        first,
        second,
        position: walk.position + k as u64,
    };
    Begun {
        walk: next,
        turns: k as u64,
        end,
    }
}
