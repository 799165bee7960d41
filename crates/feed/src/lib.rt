// A shaper record fed in chunks of any sizes, in constant memory.
#![tactic(auto)]

ghost use Rattle.std.specs.Prelude.{true, ◌≡◌, length, drop, set, ◌+◌, ◌<◌, ◌≤◌};
ghost use Rattle.summary.specs.Range.{in_range};
ghost use Rattle.feed.specs.declared.Stage.TheVariants.{Heading, Summing};
ghost use Rattle.feed.specs.Feed.{start_of, stage_of, item_size, next_stage, held_byte, stopped_at, fed_byte, fed_of, with_items, may_sum, AtOnce, ends_of, finish_of};

use decide::Refusal;
use summary::Summary;

// How far a record has come: in its header, among its events with the summary of those before, or past its earliest fault.
#[derive(Clone, Copy)]
pub enum Stage {
    Heading,
    Summing(Summary),
    Stopped(Refusal),
}

// A record's bytes so far: the stage, and the bytes of a header or an item that is not yet whole.
#[derive(Clone, Copy)]
pub struct Feed {
    pub stage: Stage,
    pub pending: [u8; 14],
    pub held: u8,
}

impl Feed {
    // How many bytes a header has, an event, and a run.
    pub const HEADER: u8 = 14;

    pub const EVENT: u8 = 6;

    pub const RUN: u8 = 10;

    // A record of which no byte has come.
    pub fn new() -> Feed
        ensures { result ≡ start_of }
    {
        let pending = [0u8; 14];
        Feed {
            stage: Stage::Heading,
            pending,
            held: 0,
        }
    }

    // The record with one byte more.
    pub fn byte(self, b: u8) -> Feed
        ensures { result ≡ fed_byte self b }
    {
        match self.stage {
            Stage::Heading => self.hold(Feed::HEADER, b),
            Stage::Summing(sum) => {
                if Summary::MAX_EVENTS <= sum.events {
                    return self.stopped(Refusal::TooMany);
                }
                self.hold(held_size(self.pending), b)
            }
            Stage::Stopped(_) => self,
        }
    }

    // The record with all bytes of a chunk more: one by one to where an item begins, and from there whole items at once.
    pub fn feed(self, chunk: &[u8]) -> Feed
        ensures { result ≡ fed_of self chunk.now }
    {
        let mut next = self;
        for (i, &b) in chunk.iter().enumerate() {
            if next.is_between() {
                return next.items(&chunk[i..]);
            }
            next = next.byte(b);
        }
        next
    }

    // Whether a fault was seen: no byte more changes what the record comes to.
    pub fn ends(self) -> bool
        ensures { result ≡ ends_of self }
    {
        matches!(self.stage, Stage::Stopped(_))
    }

    // What the bytes so far come to as a whole record: its summary, or its earliest fault.
    pub fn finish(self) -> Result<Summary, Refusal>
        ensures { result ≡ finish_of self }
    {
        match self.stage {
            Stage::Heading => Err(Refusal::NotWhole),
            Stage::Summing(sum) => {
                if 0 < self.held {
                    return Err(Refusal::NotWhole);
                }
                Ok(sum)
            }
            Stage::Stopped(fault) => Err(fault),
        }
    }

    // Whether an item begins here, or a fault was seen: from here on a chunk need not go byte by byte.
    fn is_between(self) -> bool {
        match self.stage {
            Stage::Heading => false,
            Stage::Summing(_) => self.held == 0,
            Stage::Stopped(_) => true,
        }
    }

    // The record with the bytes of a chunk more, one by one.
    fn bytes(self, chunk: &[u8]) -> Feed
        ensures { result ≡ fed_of self chunk.now }
    {
        let mut next = self;
        for &b in chunk {
            next = next.byte(b);
        }
        next
    }

    // The same, the items that stand whole at its front summed at once. Where one of them has a fault, it is found byte by byte.
    fn items(self, chunk: &[u8]) -> Feed
        ensures { result ≡ fed_of self chunk.now }
    {
        match self.stage {
            Stage::Heading => self.bytes(chunk),
            Stage::Summing(sum) => {
                if !may_sum(sum, self.held, chunk.len()) {
                    return self.bytes(chunk);
                }
                let front = at_once(sum, chunk);
                let end = front.end;
                match front.answer {
                    Ok(all) => {
                        let pending = [0u8; 14];
                        let next = Feed {
                            stage: Stage::Summing(all),
                            pending,
                            held: 0,
                        };
                        next.bytes(&chunk[end..])
                    }
                    Err(_) => self.bytes(chunk),
                }
            }
            Stage::Stopped(_) => self,
        }
    }

    // The byte held; the last of so many makes the header or the item whole.
    fn hold(self, size: u8, b: u8) -> Feed
        ensures { result ≡ held_byte size self b }
    {
        let held = self.held;
        let before = self.pending;
        let pending = placed(before, held, b);
        let stage = self.stage;
        if held as u64 + 1 < size as u64 {
            return Feed {
                stage,
                pending,
                held: held + 1,
            };
        }
        let stage = next_stage(stage, pending);
        let pending = [0u8; 14];
        Feed {
            stage,
            pending,
            held: 0,
        }
    }

    // The record past a fault.
    fn stopped(self, fault: Refusal) -> Feed
        ensures { result ≡ stopped_at self fault }
    {
        let pending = self.pending;
        Feed {
            stage: Stage::Stopped(fault),
            pending,
            held: self.held,
        }
    }
}

// Items at the front of a chunk that were summed at once: the summary with them or a refusal, and where they end.
#[derive(Clone, Copy)]
struct Front {
    answer: Result<Summary, Refusal>,
    end: usize,
}

// Whether items of a chunk of so many bytes may be summed at once: it begins with an item, one of either size stands in it, and the summary so far is in range.
fn may_sum(sum: Summary, held: u8, length: usize) -> bool
    ensures { result ≡ may_sum sum held length }
{
    (held == 0) & ((10 <= length) & sum.in_range())
}

// The items at the front of a chunk summed at once. In a record of the old form each has 6 bytes; where they are refused so, their kinds say how many each has.
fn at_once(sum: Summary, chunk: &[u8]) -> Front
    requires { (in_range sum ≡ true) × (10 ≤ length chunk.now) }
    ensures { AtOnce sum chunk.now result }
{
    let end = chunk.len() / 6 * 6;
    match with_items(sum, &chunk[..end]) {
        Ok(all) => Front {
            answer: Ok(all),
            end,
        },
        Err(_) => {
            let end = items_end(chunk);
            let answer = with_items(sum, &chunk[..end]);
            Front { answer, end }
        }
    }
}

// The summary with all items of some bytes more, or their earliest fault.
fn with_items(sum: Summary, items: &[u8]) -> Result<Summary, Refusal>
    requires { in_range sum ≡ true }
    ensures { result ≡ with_items sum items.now }
{
    let may = record::may_come(sum.events as u64);
    sum.join_next(account::events(items, sum.limits, may, true))
}

// Where items at the front of a chunk end, by their kinds: fewer than the 10 bytes that the longest has are left behind them.
fn items_end(chunk: &[u8]) -> usize
    requires { 10 ≤ length chunk.now }
    ensures { (0 < result) × (result ≤ length chunk.now) }
{
    let mut at = 0;
    // No `for`: an item says itself how far on the next one is.
    while 10 <= chunk.len() - at {
        at += item_size(chunk, at) as usize;
    }
    at
}

// How many bytes the item at a place has, by its kind.
fn item_size(s: &[u8], at: usize) -> u8
    requires { at + 4 ≤ length s.now }
    ensures { result ≡ item_size (drop at s.now) }
{
    if wire::get16(s, at + 2) == 4 {
        return Feed::RUN;
    }
    Feed::EVENT
}

// How many bytes the item has that these begin.
fn held_size(bytes: [u8; 14]) -> u8
    ensures { result ≡ item_size bytes }
{
    item_size(&bytes, 0)
}

// The bytes with one at a place, where there is such a place.
fn placed(mut bytes: [u8; 14], at: u8, b: u8) -> [u8; 14]
    ensures { result ≡ set bytes at b }
{
    let at = at as usize;
    if at < 14 {
        bytes[at] = b;
    }
    bytes
}

// The stage after the bytes of a header or of an item.
fn next_stage(stage: Stage, bytes: [u8; 14]) -> Stage
    ensures { result ≡ next_stage stage bytes }
{
    match stage {
        Stage::Heading => Stage::from(opened(bytes)),
        Stage::Summing(sum) => Stage::from(passed(sum, bytes)),
        Stage::Stopped(fault) => Stage::Stopped(fault),
    }
}

// The summary of no event under the settings of a header, or the header's fault.
fn opened(bytes: [u8; 14]) -> Result<Summary, Refusal>
    ensures { stage_of result ≡ next_stage Heading bytes }
{
    let limits = record::header_of(&bytes)?;
    Summary::empty(limits)
}

// The summary with the events of an item more, or the item's fault.
fn passed(sum: Summary, bytes: [u8; 14]) -> Result<Summary, Refusal>
    ensures { stage_of result ≡ next_stage (Summing sum) bytes }
{
    let end = held_size(bytes) as usize;
    let may = record::may_come(sum.events as u64);
    match record::event_within(
        &bytes[..end],
        0,
        sum.limits.mtu,
        may,
        Refusal::TooMany,
        true,
    )? {
        Some(item) => sum.join_next(Summary::counted(
            sum.limits,
            item.kind,
            item.number,
            item.count,
        )),
        None => Ok(sum),
    }
}

// The stage by a summary or a refusal.
impl From<Result<Summary, Refusal>> for Stage {
    ghost from_gives = { λ answer stage. stage ≡ stage_of answer };

    fn from(answer: Result<Summary, Refusal>) -> Stage {
        match answer {
            Ok(sum) => Stage::Summing(sum),
            Err(fault) => Stage::Stopped(fault),
        }
    }
}
