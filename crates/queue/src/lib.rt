// Frames, and the queues that hold them: at most 128 frames, first in, first out, in a ring of slots. A slot is one word.
#![tactic(auto)]

ghost use Rattle.std.specs.Prelude.{◌≡◌, ◌+◌, ◌<◌, ◌^◌};
ghost use Rattle.decide.specs.Test.{test};
ghost use Rattle.queue.specs.Frame.{hops_ok, frame_ok, held_ok, word_of, frame_of};
ghost use Rattle.queue.specs.Queue.{empty_queue, pushed, first_frame, take_of, space_of, holds_frame};
ghost use Rattle.queue.specs.Front.{front_of, fronted};
ghost use Rattle.queue.specs.Range.{slot_ok, empty_ok, queue_ok, used_of};

// What frames are held to: their largest size, and the number of stations on the ring, which their hops stay below.
#[derive(Clone, Copy)]
pub struct Bounds {
    pub mtu: u32,
    pub stations: u32,
}

// A frame. Its class is A 0, B 1 or C 2; its mark is 1 where it is fairness eligible, else 0.
// Both are numbers and no enum: a lent word may hold a class or a mark that there is none of, and `in_range` has to see it.
#[derive(Clone, Copy)]
pub struct Frame {
    pub size: u32,
    pub hops: u32,
    pub class: u32,
    pub mark: u32,
}

// A queue: its slots, the slot of its first frame, how many frames it holds, and their bytes. Slots from head to head + count, round the ring,
// hold frames; the others are empty. An array with a head and a count, and no VecDeque: no call uses the heap, and a host lends these very bytes.
#[derive(Clone, Copy)]
pub struct Queue {
    pub slots: [u32; 128],
    pub head: u8,
    pub count: u8,
    pub held: u32,
}

// The front of a queue, which is all that a selection looks at: the word of its first frame, how many frames it holds, and their bytes.
#[derive(Clone, Copy)]
pub struct Front {
    pub word: u32,
    pub count: u8,
    pub held: u32,
}

// What taking gives: the first frame, and the queue of those behind it.
#[derive(Clone, Copy)]
pub struct Taken {
    pub frame: Frame,
    pub queue: Queue,
}

// The word of an empty slot.
pub const EMPTY: u32 = 0;

// Whether hops are 1 to 63, whatever the ring: else refusal 3. The test against the ring is `decide::in_ring`; of a word `word_ok` makes both.
pub fn hops_ok(hops: u32) -> bool
    ensures { result ≡ test (hops_ok hops) }
{
    (1 <= hops) & (hops <= 63)
}

impl Frame {
    // Whether the frame is in its range.
    pub fn in_range(self, bounds: Bounds) -> bool
        ensures { result ≡ test (frame_ok bounds self) }
    {
        let mtu = bounds.mtu;
        let hops = hops_ok(self.hops);
        (16 <= self.size)
            & (self.size <= mtu)
            & hops
            & (self.class <= 2)
            & (self.mark <= 1)
            & (self.mark <= self.class)
    }

    // The word that holds the frame.
    pub fn word(self) -> u32
        ensures { result ≡ word_of self }
    {
        self.size % 16384
            + self.hops % 64 * 16384
            + self.class % 4 * 1048576
            + self.mark % 2 * 4194304
    }

    // The frame that a word holds.
    pub fn of(w: u32) -> Self
        ensures { result ≡ frame_of w }
    {
        Self {
            size: w % 16384,
            hops: w / 16384 % 64,
            class: w / 1048576 % 4,
            mark: w / 4194304,
        }
    }
}

impl Front {
    // The frame that is taken next.
    pub fn first(self) -> Frame
        ensures { result ≡ first_frame (fronted self) }
    {
        Frame::of(self.word)
    }

    // How large a frame may be that a queue with this front still has room for.
    pub fn space(self, capacity: u32) -> u32
        ensures { result ≡ space_of (fronted self) capacity }
    {
        if 128 <= self.count {
            return 0;
        }
        decide::less(capacity as u64, self.held as u64) as u32
    }

    // Whether a queue with this front holds a frame.
    pub fn holds_frame(self) -> bool
        ensures { result ≡ holds_frame (fronted self) }
    {
        0 < self.count
    }
}

impl Queue {
    // A queue at its start: 128 empty slots.
    pub fn empty() -> Self
        ensures { result ≡ empty_queue }
    {
        let slots = [EMPTY; 128];
        Self {
            slots,
            head: 0,
            count: 0,
            held: 0,
        }
    }

    // The queue with a frame behind its last. It must have a free slot, and its bytes with the frame's must be a 32-bit number.
    pub fn push(self, f: Frame) -> Self
        requires { (self.count < 128) × (self.held + f.size < 2 ^ 32) }
        ensures { result ≡ pushed self f }
    {
        let at = (self.head as usize + self.count as usize) % 128;
        let word = f.word();
        let size = f.size;
        let mut next = self;
        next.slots[at] = word;
        next.count = self.count + 1;
        next.held = self.held + size;
        next
    }

    // The front of the queue.
    pub fn front(self) -> Front
        ensures { result ≡ front_of self }
    {
        let at = self.head as usize % 128;
        Front {
            word: self.slots[at],
            count: self.count,
            held: self.held,
        }
    }

    // The first frame, and the queue of those behind it. The slot that it stood in is empty again, for a later frame.
    pub fn take(self) -> Taken
        ensures { result ≡ take_of self }
    {
        let at = self.head as usize % 128;
        let word = self.slots[at];
        let f = Frame::of(word);
        let mut next = self;
        next.slots[at] = EMPTY;
        next.head = ((self.head as u32 + 1) % 128) as u8;
        next.count = decide::less(self.count as u64, 1) as u8;
        next.held = decide::less(self.held as u64, f.size as u64) as u32;
        Taken {
            frame: f,
            queue: next,
        }
    }

    // How large a frame may be that the queue still has room for.
    pub fn space(self, capacity: u32) -> u32
        ensures { result ≡ space_of self capacity }
    {
        self.front().space(capacity)
    }

    // Whether the queue holds a frame.
    pub fn holds_frame(self) -> bool
        ensures { result ≡ holds_frame self }
    {
        self.front().holds_frame()
    }

    // Whether the queue is in its range: its slots, its frames, and its bytes, which are at most the capacity.
    pub fn in_range(self, bounds: Bounds, capacity: u32) -> bool
        ensures { result ≡ test (queue_ok bounds capacity self) }
    {
        if self.count == 0 {
            return (self.head < 128) & self.all_empty() & (self.held == 0);
        }
        self.scan(bounds, capacity)
    }

    // Whether the slots are those of a queue that holds no frame.
    fn all_empty(self) -> bool
        ensures { result ≡ test (empty_ok self.slots 0 128) }
    {
        let mut good = true;
        for word in &self.slots {
            good = good & (*word == EMPTY);
        }
        good
    }

    // Whether the queue is in range, by one loop without a branch.
    fn scan(self, bounds: Bounds, capacity: u32) -> bool
        ensures { result ≡ test (queue_ok bounds capacity self) }
    {
        let head = self.head;
        let count = self.count;
        let held = self.held;
        if 128 <= head {
            return false;
        }
        let mut good = true;
        let mut sum: u32 = 0;
        let mut turn: u8 = (128 - head) % 128;
        for word in &self.slots {
            good = good & slot_ok(bounds, turn % 128 < count, *word);
            sum += *word % 16384;
            turn += 1;
        }
        (count <= 128) & good & (held == sum) & (held <= capacity)
    }
}

// Whether a slot is in range: an occupied one holds a frame that may be held, another nothing.
fn slot_ok(bounds: Bounds, occupied: bool, w: u32) -> bool
    ensures { result ≡ test (slot_ok bounds occupied w) }
{
    (occupied & word_ok(bounds, w)) | (!occupied & (w == EMPTY))
}

// Whether the frame of a word may be held: it is in range, and its hops stay within the ring. Its class and mark are tested as one number, which is quicker
// than two: 0, 1 or 2 without the mark, 5 or 6 with it. Hops are tested with the size that stands below them, which needs no shift: both together are at least
// one hop, and less than the first hop beyond the ring. That end is cut to 64 hops, which no slot passes, so that it can be compared as a signed number, as vectors can.
pub fn word_ok(bounds: Bounds, w: u32) -> bool
    ensures { result ≡ test (held_ok bounds (frame_of w)) }
{
    let mtu = bounds.mtu;
    let size = w % 16384;
    let low = w % 1048576;
    let end = decide::lesser(bounds.stations as u64, 64) as u32 * 16384;
    let kind = w / 1048576;
    (16 <= size)
        & (size <= mtu)
        & (16384 <= low)
        & ((kind <= 2) | ((5 <= kind) & (kind <= 6)))
        & (low < end)
}

// 0 for the word of an empty slot, 1 for any other.
pub fn word_used(w: u32) -> u32
    ensures { result ≡ used_of w }
{
    if w == EMPTY { 0 } else { 1 }
}
