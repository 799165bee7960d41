// What the movers write, each to a slice from a place on. A function that answers a number answers the place behind what it wrote. An event's kind and number are one word, as
// they lie in a record: read together, they are written together.
ghost use Rattle.std.specs.Prelude.{◌≡◌, ◌+◌, ◌*◌, ◌/◌, ◌%◌, ◌≤◌, length};
ghost use Rattle.decide.specs.Test.{Holds};
ghost use Rattle.shaper.specs.Limits.{limits_ok};
ghost use Rattle.wire.specs.Wire.{put};
ghost use Rattle.record.specs.Record.{header_bytes};
ghost use Rattle.roll.specs.Steps.{event_fields, run_fields, item_fields, item_length, repeated_fields};

use shaper::Limits;

// The header of a record with these settings, at the front of the slice.
pub fn put_header(s: &mut [u8], limits: Limits)
    requires { Holds (limits_ok limits) × (14 ≤ length s.old) }
    ensures { s.new ≡ put s.old 0 (header_bytes limits) }
{
    wire::put16(s, 0, 14);
    wire::put16(s, 2, 16);
    wire::put16(s, 4, limits.mtu as u16);
    wire::put32(s, 6, limits.lo);
    wire::put32(s, 10, limits.hi);
}

// So many equal events as one item.
pub fn put_item(s: &mut [u8], at: usize, event: u32, count: usize) -> usize
    requires { (at + item_length count ≤ length s.old) × (count ≤ 65535) }
    ensures value { result ≡ at + item_length count }
    ensures s_after { s.new ≡ put s.old at (item_fields (event % 65536) (event / 65536) count) }
{
    if count == 1 {
        put_event(s, at, event);
        return at + 6;
    }
    put_run(s, at, event, count as u16);
    at + 10
}

// How many bytes they take as one item.
pub fn item_length(count: usize) -> usize
    ensures { result ≡ item_length count }
{
    if count == 1 { 6 } else { 10 }
}

// So many equal ticks, one by one.
pub fn put_ticks(s: &mut [u8], at: usize, tick: u32, count: u32) -> usize
    requires { at + 6 * count ≤ length s.old }
    ensures value { result ≡ at + 6 * count }
    ensures s_after { s.new ≡ put s.old at (repeated_fields count (tick % 65536) (tick / 65536)) }
{
    let mut end = at;
    for _ in 0..count {
        put_event(s, end, tick);
        end += 6;
    }
    end
}

// An event.
pub fn put_event(s: &mut [u8], at: usize, event: u32)
    requires { at + 6 ≤ length s.old }
    ensures { s.new ≡ put s.old at (event_fields (event % 65536) (event / 65536)) }
{
    wire::put16(s, at, 6);
    wire::put32(s, at + 2, event);
}

// A run of equal ticks.
fn put_run(s: &mut [u8], at: usize, tick: u32, count: u16)
    requires { at + 10 ≤ length s.old }
    ensures { s.new ≡ put s.old at (run_fields (tick % 65536) (tick / 65536) count) }
{
    wire::put16(s, at, 10);
    wire::put16(s, at + 2, 4);
    wire::put32(s, at + 4, tick);
    wire::put16(s, at + 8, count);
}
