// A reader walks the lent bytes of a shaper record, in either form, and remembers its place.
#![tactic(auto)]

ghost use Rattle.std.specs.Prelude.{◌≡◌};
ghost use Rattle.reader.specs.Place.{next_at, after_at};
ghost use Rattle.reader.specs.Walk.{new_of, next_of, moved_of};

use decide::Refusal;
use record::Placed;

// Where the first item begins, behind the header.
pub const START: usize = 14;

// A place of a record: where an item begins, and how many events stand before it.
#[derive(Clone, Copy)]
pub struct Place {
    pub at: usize,
    pub done: u64,
}

// The lent bytes of a record, and a place in them.
#[derive(Clone, Copy)]
pub struct Reader<'a> {
    pub bytes: &'a [u8],
    pub place: Place,
}

impl<'a> Reader<'a> {
    // A reader at the first item.
    pub fn new(bytes: &'a [u8]) -> Reader<'a>
        ensures { result ≡ new_of bytes.entry }
    {
        Reader {
            bytes,
            place: Place { at: START, done: 0 },
        }
    }

    // The item at the reader's place, an event or a run; none at the end; or what is wrong.
    pub fn next(self) -> Result<Option<Placed>, Refusal>
        ensures { result ≡ next_of self.entry }
    {
        read_at(self.bytes, self.place)
    }

    // The reader behind the item at its place; at the end and at a fault it stays.
    pub fn moved(self) -> Reader<'a>
        ensures { result ≡ moved_of self.entry }
    {
        Reader {
            bytes: self.bytes,
            place: after_at(self.bytes, self.place),
        }
    }
}

// What a reader finds at a place, for callers that keep the place themselves: behind an item its `next` and its `count` lead on. The record's header counts first; behind the
// millionth event only the end may stand, and no run may pass it.
pub fn read_at(bytes: &[u8], place: Place) -> Result<Option<Placed>, Refusal>
    ensures { result ≡ next_at bytes.now place }
{
    let limits = record::header_of(bytes)?;
    let left = record::may_come(place.done);
    record::event_within(bytes, place.at, limits.mtu, left, Refusal::TooMany, true)
}

// The place behind the item at a place.
fn after_at(bytes: &[u8], place: Place) -> Place
    ensures { result ≡ after_at bytes.now place }
{
    match read_at(bytes, place) {
        Ok(Some(item)) => Place {
            at: item.next,
            done: place.done + item.count as u64,
        },
        _ => place,
    }
}
