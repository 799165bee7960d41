// The index of a record: summaries of its events, one for each block of 256 and one for each pair above, kept in bytes beside it.
#![tactic(auto)]

ghost use Rattle.std.specs.Prelude.{◌≡◌, ◌+◌, ◌*◌, ◌≤◌, length};
ghost use Rattle.shaper.specs.Limits.{most_events};
ghost use Rattle.wire.specs.Wire.{put};
ghost use Rattle.roll.specs.Moved.{moved_of, left_of};
ghost use Rattle.index.specs.Tree.{index_length};
ghost use Rattle.index.specs.Index.{index_of, length_answer, events_in, node_bytes};
ghost use Rattle.index.specs.Fill.{Filling, FillsBlock, filled_of, both_of};

pub mod entries;

use decide::Refusal;
use entries::put_entry;
use excerpt::Place;
use shaper::Limits;
use summary::Summary;

// How many events a block has.
pub const BLOCK: u64 = 256;

// How many bytes an entry takes.
pub const ENTRY: usize = 40;

// The level at which one is left, and how many blocks it may have.
const TOP: u64 = 12;

const TOP_BLOCKS: u64 = 4096;

// Part of an index that is written: the summary of what it covers, and the place behind its last event.
#[derive(Clone, Copy)]
struct Filled {
    sum: Summary,
    next: Place,
}

// How many bytes the index of so many events takes. 9 over 1,000,000.
pub fn length(events: u64) -> Result<u64, Refusal>
    ensures { result ≡ length_answer events }
{
    if (Summary::MAX_EVENTS as u64) < events {
        return Err(Refusal::TooMany);
    }
    Ok(bytes_of(events))
}

// Leaves in the room the index of a record, of either form, and answers how many bytes that is. The record's earliest fault; then 12 where the room is too short.
pub fn fill(s: &[u8], room: &mut [u8]) -> Result<u64, Refusal>
    ensures value { result ≡ moved_of (index_of s.now) room.old }
    ensures room_after { room.new ≡ left_of (index_of s.now) room.old }
{
    let whole = account::summarize(s, true)?;
    let n = whole.events as u64;
    let need = bytes_of(n);
    if (room.len() as u64) < need {
        return Err(Refusal::ShortRoom);
    }
    if n == 0 {
        return Ok(0);
    }
    let first = Place { at: 14, gone: 0 };
    put_node(s, whole.limits, n, TOP, TOP_BLOCKS, 0, first, room);
    Ok(need)
}

// How many bytes the index of so many events takes: none for none.
fn bytes_of(n: u64) -> u64
    requires { n ≤ most_events }
    ensures { result ≡ index_length n }
{
    if n == 0 {
        return 0;
    }
    80 * ((n + 255) / 256) - 40
}

// Writes the entries of a node of this level, which has up to so many blocks from one on: those of its first half, those of its second, and its own between them. An odd one alone
// is stored once.
fn put_node(
    s: &[u8],
    limits: Limits,
    n: u64,
    level: u64,
    size: u64,
    block: u64,
    place: Place,
    room: &mut [u8],
) -> Filled
    requires { Filling limits s.now n level size block place room.old }
    ensures value { result ≡ filled_of limits s.now level block }
    ensures room_after { room.new ≡ put room.old (80 * block) (node_bytes limits s.now (events_in s.now) level block) }
{
    if level == 0 {
        return put_block(s, limits, n, block, place, room);
    }
    let half = size / 2;
    let middle = block + half;
    if n <= BLOCK * middle {
        return put_node(s, limits, n, level - 1, half, block, place, room);
    }
    let left = put_node(s, limits, n, level - 1, half, block, place, room);
    let between = left.next;
    let right = put_node(s, limits, n, level - 1, half, middle, between, room);
    let first = left.sum;
    let second = right.sum;
    let sum = both(first, second);
    put_entry(room, 80 * middle as usize - ENTRY, place, sum);
    let next = right.next;
    Filled { sum, next }
}

// Writes the entry of a block, whose events are read from its place on: the record was read whole before, so that none has a fault.
fn put_block(s: &[u8], limits: Limits, n: u64, block: u64, place: Place, room: &mut [u8]) -> Filled
    requires { FillsBlock limits s.now n block place room.old }
    ensures value { result ≡ filled_of limits s.now 0 block }
    ensures room_after { room.new ≡ put room.old (80 * block) (node_bytes limits s.now (events_in s.now) 0 block) }
{
    let count = decide::lesser(BLOCK, n - BLOCK * block);
    let part = excerpt::part(s, limits, place, count).unwrap();
    put_entry(room, 80 * block as usize, place, part.sum);
    Filled {
        sum: part.sum,
        next: part.next,
    }
}

// The summary of a first half and then a second. The events of one record are few enough, so that a join is never refused.
fn both(first: Summary, second: Summary) -> Summary
    ensures { result ≡ both_of first second }
{
    first.join(second).unwrap_or(first)
}
