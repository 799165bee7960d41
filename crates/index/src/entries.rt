// An entry of an index as 40 bytes. The settings are the record's, and stand in none.
ghost use Rattle.std.specs.Prelude.{◌≡◌, ◌+◌, ◌≤◌, length};
ghost use Rattle.wire.specs.Wire.{put};
ghost use Rattle.index.specs.Entry.{entry_bytes, summary_in, place_in};

use excerpt::Place;
use shaper::Limits;
use summary::Summary;

// Writes to the 40 bytes from a place of the slice on the entry of a summary whose first event stands there in the record. What does not fit its 4 bytes is cut off; of a record of
// 1,000,000 events nothing is.
pub fn put_entry(s: &mut [u8], at: usize, place: Place, sum: Summary)
    requires { at + 40 ≤ length s.old }
    ensures { s.new ≡ put s.old at (entry_bytes place sum) }
{
    let ceiling = wire::unsigned64(sum.ceiling);
    wire::put32(s, at, sum.events);
    wire::put32(s, at + 4, (place.at % 4294967296) as u32);
    wire::put32(s, at + 8, (place.gone % 4294967296) as u32);
    wire::put32(s, at + 12, (sum.need % 4294967296) as u32);
    wire::put64(s, at + 16, sum.accrued);
    wire::put64(s, at + 24, sum.sent);
    wire::put64(s, at + 32, ceiling);
}

// The summary of the entry at a place of an index, under the record's settings, in range or not.
pub fn summary_at(s: &[u8], at: usize, limits: Limits) -> Summary
    requires { at + 40 ≤ length s.now }
    ensures { result ≡ summary_in limits s.now at }
{
    Summary {
        limits,
        events: wire::get32(s, at),
        accrued: wire::get64(s, at + 16),
        sent: wire::get64(s, at + 24),
        ceiling: wire::signed64(wire::get64(s, at + 32)),
        need: wire::get32(s, at + 12) as u64,
    }
}

// The place of its first event.
pub fn place_at(s: &[u8], at: usize) -> Place
    requires { at + 40 ≤ length s.now }
    ensures { result ≡ place_in s.now at }
{
    Place {
        at: wire::get32(s, at + 4) as usize,
        gone: wire::get32(s, at + 8) as u64,
    }
}
