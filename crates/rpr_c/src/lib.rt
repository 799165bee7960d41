// The library for a host written in C: each call of rpr.h, which is the function of that name in the crate rpr and promises what that promises.
#![tactic(auto)]

ghost use Rattle.std.specs.Prelude.{◌≡◌};
ghost use Rattle.rpr.specs.Ways.{choose_answer, path_answer};
ghost use Rattle.rpr.specs.Calls.{version_number, summarize_answer, summarize_after, join_answer, join_after, settle_answer};
ghost use Rattle.rpr.specs.Movers.{roll_answer, roll_after, unroll_answer, unroll_after};
ghost use Rattle.layout.specs.Layout.{station_length};
ghost use Rattle.rpr.specs.Station.{start_answer, start_after, tick_answer, tick_after, age_answer, age_after};
ghost use Rattle.rpr.specs.Station.{offer_client_answer, offer_client_after, offer_transit_answer, offer_transit_after, offer_control_answer, offer_control_after};
ghost use Rattle.rpr.specs.Station.{select_answer, select_after, read_frame_answer, read_frame_after};
ghost use Rattle.rpr.specs.Station.{write_frame_answer, write_frame_after, show_answer, show_after};

use rpr::lending;

// The version: 256 times its first number and the second.
#[unsafe(no_mangle)]
pub extern "C" fn rpr_version() -> u64
    ensures { result ≡ version_number }
{
    rpr::rpr_version()
}

// Leaves in the room the summary of a shaper record, of either form. 2 where the room is not 48 bytes, then the number of the record's earliest fault.
#[unsafe(no_mangle)]
pub extern "C" fn rpr_summarize(record: &[u8], room: &mut [u8]) -> u64
    ensures value { result ≡ summarize_answer «record».now room.old }
    ensures room_after { room.new ≡ summarize_after «record».now room.old }
{
    rpr::rpr_summarize(record, room)
}

// Leaves in the room the summary of the first's events and then the second's. 2 where a slice is not 48 bytes, then 3, 10 and 9.
#[unsafe(no_mangle)]
pub extern "C" fn rpr_join(first: &[u8], second: &[u8], room: &mut [u8]) -> u64
    ensures value { result ≡ join_answer first.now second.now room.old }
    ensures room_after { room.new ≡ join_after first.now second.now room.old }
{
    rpr::rpr_join(first, second, room)
}

// Whether every send of a summary's events is permitted from a starting credit, and the credit at the end. 2 where the slice is not 48 bytes, then 3.
#[unsafe(no_mangle)]
pub extern "C" fn rpr_settle(summary: &[u8], start: u64) -> u64
    ensures { result ≡ settle_answer summary.now start }
{
    rpr::rpr_settle(summary, start)
}

// Leaves in the room an old record in the new form, where equal ticks stand in runs, and answers how many bytes that is. The number of the record's earliest fault, a run
// being 2; then 12 where the room is too short.
#[unsafe(no_mangle)]
pub extern "C" fn rpr_roll(record: &[u8], room: &mut [u8]) -> u64
    ensures value { result ≡ roll_answer «record».now room.old }
    ensures room_after { room.new ≡ roll_after «record».now room.old }
{
    rpr::rpr_roll(record, room)
}

// Leaves in the room a record of either form in the old one, and answers how many bytes that is. The number of the record's earliest fault; then 12 where the room is
// too short.
#[unsafe(no_mangle)]
pub extern "C" fn rpr_unroll(record: &[u8], room: &mut [u8]) -> u64
    ensures value { result ≡ unroll_answer «record».now room.old }
    ensures room_after { room.new ≡ unroll_after «record».now room.old }
{
    rpr::rpr_unroll(record, room)
}

// Which side a frame takes round the ring: the side, its distance, the ttl and the wrap mark.
#[unsafe(no_mangle)]
pub extern "C" fn rpr_choose(
    stations: u64,
    own: u64,
    target: u64,
    links: u64,
    side: u64,
    protection: u64,
    ring: u64,
) -> u64
    ensures { result ≡ choose_answer stations own target links side protection ring }
{
    rpr::rpr_choose(stations, own, target, links, side, protection, ring)
}

// Whether a wrap-marked frame is delivered, and the hops that it moves.
#[unsafe(no_mangle)]
pub extern "C" fn rpr_path(stations: u64, own: u64, target: u64, links: u64, home: u64) -> u64
    ensures { result ≡ path_answer stations own target links home }
{
    rpr::rpr_path(stations, own, target, links, home)
}

// How many bytes a station takes.
#[unsafe(no_mangle)]
pub extern "C" fn rpr_station_length() -> u64
    ensures { result ≡ station_length }
{
    lending::rpr_station_length()
}

// Makes the station a fresh one under these settings, whatever its bytes were. 2 where a slice is of another length, then 1.
#[unsafe(no_mangle)]
pub extern "C" fn rpr_start(settings: &[u8], station: &mut [u8]) -> u64
    ensures value { result ≡ start_answer settings.now station.old }
    ensures station_after { station.new ≡ start_after settings.now station.old }
{
    lending::rpr_start(settings, station)
}

// A tick. The host says whether A, B and C traffic waits: 1 for yes, 0 for no. 2, 1, then 3.
#[unsafe(no_mangle)]
pub extern "C" fn rpr_tick(station: &mut [u8], a: u64, b: u64, c: u64) -> u64
    ensures value { result ≡ tick_answer station.old a b c }
    ensures station_after { station.new ≡ tick_after station.old a b c }
{
    lending::rpr_tick(station, a, b, c)
}

// Takes a client frame into the stage, and answers the mark that it got. 2, 1, 3, 13, 5, 6 and how far short, then 7.
#[unsafe(no_mangle)]
pub extern "C" fn rpr_offer_client(station: &mut [u8], class: u64, size: u64, hops: u64) -> u64
    ensures value { result ≡ offer_client_answer station.old class size hops }
    ensures station_after { station.new ≡ offer_client_after station.old class size hops }
{
    lending::rpr_offer_client(station, class, size, hops)
}

// Takes a transit frame into the queue of its class. 2, 1, 3, 13, then 4.
#[unsafe(no_mangle)]
pub extern "C" fn rpr_offer_transit(
    station: &mut [u8],
    class: u64,
    size: u64,
    hops: u64,
    eligible: u64,
) -> u64
    ensures value { result ≡ offer_transit_answer station.old class size hops eligible }
    ensures station_after { station.new ≡ offer_transit_after station.old class size hops eligible }
{
    lending::rpr_offer_transit(station, class, size, hops, eligible)
}

// Takes a control frame, given by its size alone, into the control queue. 2, 1, 3, then 4.
#[unsafe(no_mangle)]
pub extern "C" fn rpr_offer_control(station: &mut [u8], size: u64) -> u64
    ensures value { result ≡ offer_control_answer station.old size }
    ensures station_after { station.new ≡ offer_control_after station.old size }
{
    lending::rpr_offer_control(station, size)
}

// Selects the frame that goes next, and answers where it comes from and the frame. 2, then 1.
#[unsafe(no_mangle)]
pub extern "C" fn rpr_select(station: &mut [u8]) -> u64
    ensures value { result ≡ select_answer station.old }
    ensures station_after { station.new ≡ select_after station.old }
{
    lending::rpr_select(station)
}

// Ends an aging interval. 2, then 1.
#[unsafe(no_mangle)]
pub extern "C" fn rpr_age(station: &mut [u8]) -> u64
    ensures value { result ≡ age_answer station.old }
    ensures station_after { station.new ≡ age_after station.old }
{
    lending::rpr_age(station)
}

// Reads a fairness frame. 2 (the frame's shape and its ringlet bit too), 1, 3, 13, then 11.
#[unsafe(no_mangle)]
pub extern "C" fn rpr_read_frame(station: &mut [u8], frame: &[u8]) -> u64
    ensures value { result ≡ read_frame_answer station.old frame.now }
    ensures station_after { station.new ≡ read_frame_after station.old frame.now }
{
    lending::rpr_read_frame(station, frame)
}

// Leaves in the room the fairness frame that the station advertises. 2, then 1.
#[unsafe(no_mangle)]
pub extern "C" fn rpr_write_frame(station: &[u8], room: &mut [u8]) -> u64
    ensures value { result ≡ write_frame_answer station.now room.old }
    ensures room_after { room.new ≡ write_frame_after station.now room.old }
{
    lending::rpr_write_frame(station, room)
}

// Leaves in the room a reading of the station. 2, then 1.
#[unsafe(no_mangle)]
pub extern "C" fn rpr_show(station: &[u8], room: &mut [u8]) -> u64
    ensures value { result ≡ show_answer station.now room.old }
    ensures room_after { room.new ≡ show_after station.now room.old }
{
    lending::rpr_show(station, room)
}
