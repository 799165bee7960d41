// A queue as 518 bytes, in which a host keeps it: its slots, the bytes held, the head and the count.
#![tactic(auto)]

ghost use Rattle.std.specs.Prelude.{◌≡◌, ◌+◌, ◌*◌, ◌-◌, ◌≤◌, ◌<◌, length};
ghost use Rattle.decide.specs.Test.{test};
ghost use Rattle.wire.specs.Wire.{put};
ghost use Rattle.queue.specs.Front.{front_of};
ghost use Rattle.queue.specs.Queue.{frames_from, pushed, taken};
ghost use Rattle.queue.specs.Range.{queue_ok, used_in, empty_ok};
ghost use Rattle.slots.specs.Slots.{queue_length, queue_bytes, queue_at, slot_anew, found_of};
ghost use Rattle.wire.specs.Words.{words_bytes, words_at};

use queue::{Bounds, Frame, Front, Queue};

// How many bytes a queue takes.
pub const LENGTH: usize = 518;

// What frames come to: whether each may be held, and their bytes. No Option of the bytes: both are gathered without a branch, and `found_of` says both.
#[derive(Clone, Copy)]
struct Found {
    good: bool,
    bytes: u32,
}

// The queue whose bytes stand in `s` from `at` on, in range or not.
pub fn read(s: &[u8], at: usize) -> Queue
    requires { at + queue_length ≤ length s.now }
    ensures { result ≡ queue_at s.now at }
{
    let slots = wire::read_words(s, at);
    Queue {
        slots,
        head: s[at + 516],
        count: s[at + 517],
        held: wire::get32(s, at + 512),
    }
}

// The front of that queue: the word in its first frame's slot, how many frames it holds, and their bytes. The body reads the whole queue, and uses no more of it.
pub fn front(s: &[u8], at: usize) -> Front
    requires { at + queue_length ≤ length s.now }
    ensures { result ≡ front_of (queue_at s.now at) }
{
    let q = read(s, at);
    let i = q.head as usize % 128;
    Front {
        word: wire::get32(s, at + 4 * i),
        count: q.count,
        held: q.held,
    }
}

// Writes a queue to the 518 bytes of `s` from `at` on.
pub fn write(q: Queue, s: &mut [u8], at: usize)
    requires { at + queue_length ≤ length s.old }
    ensures { (s.new ≡ put s.old at (queue_bytes q)) × (length q.slots ≡ 128) }
{
    wire::write_words(q.slots, s, at);
    wire::put32(s, at + 512, q.held);
    s[at + 516] = q.head;
    s[at + 517] = q.count;
}

// Pushes a frame to the queue whose bytes stand in `s` from `at` on. One slot is written, and what stands behind the slots.
pub fn push(f: Frame, s: &mut [u8], at: usize)
    requires { at + queue_length ≤ length s.old }
    ensures { s.new ≡ put s.old at (queue_bytes (pushed (queue_at s.old at) f)) }
{
    let q = read(s, at);
    let i = (q.head as usize + q.count as usize) % 128;
    let held = q.held.wrapping_add(f.size);
    let count = q.count.wrapping_add(1);
    write_slot(i, f.word(), held, q.head, count, s, at);
}

// Takes the first frame from the queue whose bytes stand in `s` from `at` on. One slot is written, and what stands behind the slots.
pub fn take(s: &mut [u8], at: usize)
    requires { at + queue_length ≤ length s.old }
    ensures { s.new ≡ put s.old at (queue_bytes (taken (queue_at s.old at))) }
{
    let q = read(s, at);
    let i = q.head as usize % 128;
    let first = Frame::of(wire::get32(s, at + 4 * i));
    let held = decide::less(q.held as u64, first.size as u64) as u32;
    let head = ((q.head as u32 + 1) % 128) as u8;
    let count = decide::less(q.count as u64, 1) as u8;
    write_slot(i, queue::EMPTY, held, head, count, s, at);
}

// Whether the queue whose bytes stand in `s` from `at` on is in range. No slot is copied, and only the slots of the frames held are tested as frames. Since the
// word of a frame in range is never 0, the other slots are empty where as many words are not 0 as frames are held. A queue that holds no frame takes a shorter way.
pub fn in_range(s: &[u8], at: usize, bounds: Bounds, capacity: u32) -> bool
    requires { at + queue_length ≤ length s.now }
    ensures { result ≡ test (queue_ok bounds capacity (queue_at s.now at)) }
{
    let head = s[at + 516];
    let count = s[at + 517];
    let held = wire::get32(s, at + 512);
    if count == 0 {
        return (head < 128) & (none_used(s, at) & (held == 0));
    }
    if 128 <= head {
        return false;
    }
    if 128 < count {
        return false;
    }
    if capacity < held {
        return false;
    }
    if used(s, at) != count as u32 {
        return false;
    }
    let found = frames(s, at, bounds, head as usize, count as usize);
    found.good & (found.bytes == held)
}

// Whether each of the 128 words that stand in `s` from `at` on is that of an empty slot.
fn none_used(s: &[u8], at: usize) -> bool
    requires { at + 512 ≤ length s.now }
    ensures { result ≡ test (empty_ok (words_at 128 s.now at) 0 128) }
{
    let mut good = true;
    for i in 0..128 {
        good = good & (wire::get32(s, at + 4 * i) == queue::EMPTY);
    }
    good
}

// How many of the 128 words that stand in `s` from `at` on are not 0.
fn used(s: &[u8], at: usize) -> u32
    requires { at + 512 ≤ length s.now }
    ensures { result ≡ used_in (words_at 128 s.now at) }
{
    let mut n: u32 = 0;
    for i in 0..128 {
        n += queue::word_used(wire::get32(s, at + 4 * i));
    }
    n
}

// What the frames in `count` slots from slot `head` on come to: those up to the last slot, then those from slot 0 on.
fn frames(s: &[u8], at: usize, bounds: Bounds, head: usize, count: usize) -> Found
    requires { (at + 512 ≤ length s.now) × (head < 128) × (count ≤ 128) }
    ensures { result ≡ found_of bounds (frames_from (words_at 128 s.now at) head count) }
{
    let end = head + count;
    let near = decide::lesser(end as u64, 128) as usize;
    let first = run(s, at, bounds, head, near);
    let rest = run(s, at, bounds, 0, end - near);
    Found {
        good: first.good & rest.good,
        bytes: first.bytes + rest.bytes,
    }
}

// What the frames in the slots from slot `from` on that stand before slot `to` come to.
fn run(s: &[u8], at: usize, bounds: Bounds, from: usize, to: usize) -> Found
    requires { (at + 512 ≤ length s.now) × (to ≤ 128) }
    ensures { result ≡ found_of bounds (frames_from (words_at 128 s.now at) from (to - from)) }
{
    let mut good = true;
    let mut bytes: u32 = 0;
    for i in from..to {
        let w = wire::get32(s, at + 4 * i);
        good = good & queue::word_ok(bounds, w);
        bytes += Frame::of(w).size;
    }
    Found { good, bytes }
}

// Writes one slot of the queue whose bytes stand in `s` from `at` on, and what stands behind the slots.
fn write_slot(i: usize, word: u32, held: u32, head: u8, count: u8, s: &mut [u8], at: usize)
    requires { (at + queue_length ≤ length s.old) × (i < 128) }
    ensures { s.new ≡ put s.old at (queue_bytes (slot_anew (queue_at s.old at) i word held head count)) }
{
    wire::put32(s, at + 4 * i, word);
    wire::put32(s, at + 512, held);
    s[at + 516] = head;
    s[at + 517] = count;
}
