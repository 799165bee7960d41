// Where two records part: what is printed of them, filled into a room. Each function here writes nothing but what its text says.
#![tactic(auto)]

mod line;
mod step;
pub mod together;

ghost use Rattle.std.specs.Prelude.{◌≡◌, ◌+◌, ◌*◌, ◌≤◌, ◌<◌, length};
ghost use Rattle.wire.specs.Wire.{put};
ghost use Rattle.shaper.specs.Limits.{most_events};
ghost use Rattle.record.specs.Items.{most_of_run};
ghost use Rattle.apart.specs.Text.{opening_text, closing_text};
ghost use Rattle.apart.specs.Page.{most_turns, walk_text, reached_of, page_of, Begins};

use decide::Refusal;
use line::{put_line, put_setting};
use shaper::{Event, Limits};
use std::io;
use step::{event_in, is_event, level, passed, put_if};
use summary::Summary;
use together::turn;

// The most turns of a page.
const TURNS: u64 = 5000;

// What is known of a file: the mtu that its header bears, and whether no byte stands behind its window.
#[derive(Clone, Copy)]
pub struct Side {
    pub mtu: u32,
    pub last: bool,
}

// A place in a window: where an item begins, and how many of its events have gone by.
#[derive(Clone, Copy)]
pub struct Place {
    pub at: usize,
    pub gone: u32,
}

// A place in each of two windows, and the position of the events that stand there.
#[derive(Clone, Copy)]
pub struct Walk {
    pub first: Place,
    pub second: Place,
    pub position: u64,
}

// What stands at a place: events of an item that stands for so many, and where the next item begins; the file's end; or no whole item of the window.
#[derive(Clone, Copy)]
pub enum Stand {
    Events {
        kind: u16,
        number: u16,
        count: u32,
        next: usize,
    },
    Ended,
    Unread,
}

// What is listed of a position.
#[derive(Clone, Copy)]
pub enum Finding {
    Nothing,
    Both(Event, Event),
    First(Event),
    Second(Event),
}

// A turn: the walk behind it, the line of the position before it, and whether it stops, as no more can be told from these windows.
#[derive(Clone, Copy)]
pub struct Turn {
    pub walk: Walk,
    pub line: Finding,
    pub stops: bool,
}

// A page that was filled: the walk behind it, and how many bytes it has.
#[derive(Clone, Copy)]
pub struct Reached {
    pub walk: Walk,
    pub end: usize,
}

// What was filled of a page so quickly: the walk behind it, its turns, and how many bytes it has.
#[derive(Clone, Copy)]
pub struct Begun {
    walk: Walk,
    turns: u64,
    end: usize,
}

// A page that was printed: the walk behind it, whether it lists nothing, and whether all of it was written, or why not.
#[derive(Clone, Copy)]
pub struct Printed {
    pub walk: Walk,
    pub empty: bool,
    pub written: io::Result<()>,
}

// Prints a line for each setting that differs, by one write; answers whether all of it was written, or why not.
pub fn print_opening(rt: &impl Print, first: Limits, second: Limits) -> io::Result<()> {
    let mut room = [0u8; 528];
    let end = opening(first, second, &mut room);
    rt.write_all(&room[..end])
}

// Prints a page of two windows from a walk on, by one write; answers the walk behind it, whether it lists nothing, and whether all of it was written, or why not. The caller
// lends the room of 440,000 bytes for every page: 88, which no line exceeds, for each of its 5,000 turns. A walk past the most events of a record is none.
pub fn print_page(
    rt: &impl Print,
    first: &[u8],
    second: &[u8],
    a: Side,
    b: Side,
    walk: Walk,
    room: &mut [u8],
) -> Printed {
    let unprinted = Printed {
        walk,
        empty: true,
        written: Err(io::Error::from(io::ErrorKind::InvalidInput)),
    };
    if room.len() < 440000 {
        return unprinted;
    }
    if (Event::MAX_EVENTS as u64) < walk.position {
        return unprinted;
    }
    let page = page(first, second, a, b, walk, room);
    let end = page.end;
    let next = page.walk;
    let written = rt.write_all(&room[..end]);
    Printed {
        walk: next,
        empty: end == 0,
        written,
    }
}

// Prints both summaries, by one write; answers whether all of it was written, or why not.
pub fn print_closing(
    rt: &impl Print,
    first: Result<Summary, Refusal>,
    second: Result<Summary, Refusal>,
) -> io::Result<()> {
    let mut room = [0u8; 528];
    let end = closing(first, second, &mut room);
    rt.write_all(&room[..end])
}

// Fills a room's first bytes with a line for each setting that differs, and answers how many they are.
pub fn opening(first: Limits, second: Limits, room: &mut [u8; 528]) -> usize
    ensures value { result ≡ length (opening_text first second) }
    ensures room_after { room.new ≡ put room.old 0 (opening_text first second) }
{
    let lo = put_setting(room, 0, b"mtu ", first.mtu as u64, second.mtu as u64);
    let hi = put_setting(room, lo, b"loLimit ", first.lo as u64, second.lo as u64);
    put_setting(room, hi, b"hiLimit ", first.hi as u64, second.hi as u64)
}

// Fills a room's first bytes with what the next 5,000 turns of a walk list, or fewer where a window has no whole item left; answers the walk behind them, and how many
// bytes they are.
pub fn page(first: &[u8], second: &[u8], a: Side, b: Side, walk: Walk, room: &mut [u8]) -> Reached
    requires { (walk.position ≤ most_events) × (440000 ≤ length room.old) }
    ensures value { result ≡ page_of a b first.now second.now walk }
    ensures room_after { room.new ≡ put room.old 0 (walk_text most_turns a b first.now second.now walk) }
{
    let begun = events(first, second, a, b, walk, room);
    let next = begun.walk;
    let end = begun.end;
    let left = decide::less(TURNS, begun.turns);
    walk_on(first, second, a, b, next, room, end, left)
}

// Fills a room from a place on with what so many turns of a walk list.
fn walk_on(
    first: &[u8],
    second: &[u8],
    a: Side,
    b: Side,
    walk: Walk,
    room: &mut [u8],
    at: usize,
    most: u64,
) -> Reached
    requires { (walk.position + most_of_run * most < 9223372036854775808) × (at + 88 * most ≤ length room.old) }
    ensures value { result ≡ reached_of most a b first.now second.now walk at }
    ensures end_bound { result.end ≤ at + 88 * most }
    ensures room_after { room.new ≡ put room.old at (walk_text most a b first.now second.now walk) }
{
    let mut now = walk;
    let mut end = at;
    for _k in 0..most {
        let turn = turn(first, second, a, b, now);
        if turn.stops {
            return Reached { walk: now, end };
        }
        end = put_line(room, end, now.position, turn.line);
        now = turn.walk;
    }
    Reached { walk: now, end }
}

// Fills a room's first bytes with what the first turns list where events stand at both places, one behind another, up to the first run: the quick way, which old records go
// whole.
fn events(first: &[u8], second: &[u8], a: Side, b: Side, walk: Walk, room: &mut [u8]) -> Begun
    requires { (walk.position ≤ most_events) × (440000 ≤ length room.old) }
    ensures begins { Begins a b first.now second.now walk result }
    ensures room_after { room.new ≡ put room.old 0 (walk_text result.turns a b first.now second.now walk) }
{
    let p = walk.first;
    let q = walk.second;
    let most = level(first, second, p, q);
    let at = p.at;
    let other = q.at;
    let mut end = 0;
    for k in 0..most {
        let i = at + 6 * k;
        let j = other + 6 * k;
        if !(is_event(first, i, a.mtu) & is_event(second, j, b.mtu)) {
            return passed(walk, k, end);
        }
        let e = event_in(first, i);
        let f = event_in(second, j);
        end = put_if(room, end, walk.position + k as u64, e, f);
    }
    passed(walk, most, end)
}

// Fills a room's first bytes with both summaries, and answers how many they are.
pub fn closing(
    first: Result<Summary, Refusal>,
    second: Result<Summary, Refusal>,
    room: &mut [u8; 528],
) -> usize
    ensures value { result ≡ length (closing_text first second) }
    ensures room_after { room.new ≡ put room.old 0 (closing_text first second) }
{
    let at = report::put_words(room, 0, b"first\n");
    let end = report::put_answer(room, at, first);
    let at = report::put_words(room, end, b"second\n");
    report::put_answer(room, at, second)
}
