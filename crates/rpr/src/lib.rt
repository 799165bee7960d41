// The functions that a host written in C calls, by the exports of rpr_c.
#![tactic(auto)]

ghost use Rattle.std.specs.Prelude.{◌≡◌};
ghost use Rattle.rpr.specs.Ways.{choose_answer, path_answer};
ghost use Rattle.rpr.specs.Calls.{version_number, summarize_answer, summarize_after, join_answer, join_after, settle_answer};
ghost use Rattle.rpr.specs.Movers.{roll_answer, roll_after, unroll_answer, unroll_after};

pub mod lending;

// The refusal of bytes that are not of the length named.
const NOT_WHOLE: u64 = 2;

// The two numbers of the version that this library is, as rpr.h has them in RPR_VERSION.
const VERSION: u64 = 4;

const REVISION: u64 = 1;

// The version: 256 times its first number and the second.
pub fn rpr_version() -> u64
    ensures { result ≡ version_number }
{
    256 * VERSION + REVISION
}

// Leaves in the room the summary of a shaper record, of either form. 2 where the room is not 48 bytes, then the number of the record's earliest fault.
pub fn rpr_summarize(record: &[u8], room: &mut [u8]) -> u64
    ensures value { result ≡ summarize_answer «record».now room.old }
    ensures room_after { room.new ≡ summarize_after «record».now room.old }
{
    if room.len() != sheet::LENGTH {
        return NOT_WHOLE;
    }
    let whole = account::summarize(record, true);
    sheet::hand_over(whole, room)
}

// Leaves in the room the summary of the first's events and then the second's. 2 where a slice is not 48 bytes, then 3, 10 and 9.
pub fn rpr_join(first: &[u8], second: &[u8], room: &mut [u8]) -> u64
    ensures value { result ≡ join_answer first.now second.now room.old }
    ensures room_after { room.new ≡ join_after first.now second.now room.old }
{
    if first.len() != sheet::LENGTH {
        return NOT_WHOLE;
    }
    if second.len() != sheet::LENGTH {
        return NOT_WHOLE;
    }
    if room.len() != sheet::LENGTH {
        return NOT_WHOLE;
    }
    let joined = sheet::read(first).join(sheet::read(second));
    sheet::hand_over(joined, room)
}

// Whether every send of a summary's events is permitted from a starting credit, and the credit at the end. 2 where the slice is not 48 bytes, then 3.
pub fn rpr_settle(summary: &[u8], start: u64) -> u64
    ensures { result ≡ settle_answer summary.now start }
{
    if summary.len() != sheet::LENGTH {
        return NOT_WHOLE;
    }
    match sheet::read(summary).settle(start) {
        Ok(Some(credit)) => answer::permitted(credit),
        Ok(None) => 0,
        Err(refusal) => refusal.number(),
    }
}

// Leaves in the room an old record in the new form, where equal ticks stand in runs, and answers how many bytes that is. The number of the record's earliest fault, a run
// being 2; then 12 where the room is too short.
pub fn rpr_roll(record: &[u8], room: &mut [u8]) -> u64
    ensures value { result ≡ roll_answer «record».now room.old }
    ensures room_after { room.new ≡ roll_after «record».now room.old }
{
    let moved = roll::roll(record, room);
    match moved {
        Ok(n) => answer::written(n),
        Err(refusal) => refusal.number(),
    }
}

// Leaves in the room a record of either form in the old one, and answers how many bytes that is. The number of the record's earliest fault; then 12 where the room is
// too short.
pub fn rpr_unroll(record: &[u8], room: &mut [u8]) -> u64
    ensures value { result ≡ unroll_answer «record».now room.old }
    ensures room_after { room.new ≡ unroll_after «record».now room.old }
{
    let moved = roll::unroll(record, room);
    match moved {
        Ok(n) => answer::written(n),
        Err(refusal) => refusal.number(),
    }
}

// Which side a frame takes round the ring: the side, its distance, the ttl and the wrap mark.
pub fn rpr_choose(
    stations: u64,
    own: u64,
    target: u64,
    links: u64,
    side: u64,
    protection: u64,
    ring: u64,
) -> u64
    ensures { result ≡ choose_answer stations own target links side protection ring }
{
    match ring::choose(stations, own, target, links, side, protection, ring) {
        Ok(choice) => answer::chosen(choice.side, choice.distance, choice.ttl, choice.mark),
        Err(refusal) => refusal.number(),
    }
}

// Whether a wrap-marked frame is delivered, and the hops that it moves.
pub fn rpr_path(stations: u64, own: u64, target: u64, links: u64, home: u64) -> u64
    ensures { result ≡ path_answer stations own target links home }
{
    match wrap::path(stations, own, target, links, home) {
        Ok(journey) => answer::moved(journey.delivered, journey.hops),
        Err(refusal) => refusal.number(),
    }
}
