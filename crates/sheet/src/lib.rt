// A summary as 48 bytes, in which a host keeps it.
#![tactic(auto)]

ghost use Rattle.std.specs.Prelude.{◌≡◌, length};
ghost use Rattle.summary.specs.Answer.{answer_number};
ghost use Rattle.sheet.specs.Sheet.{sheet_length, sheet_of, summary_at, handed};
ghost use Rattle.sheet.specs.Files.{opened_of, joined_with};

use decide::Refusal;
use shaper::Limits;
use summary::Summary;

// How many bytes a summary takes.
pub const LENGTH: usize = 48;

// The summary that 48 bytes hold, in range or not.
pub fn read(s: &[u8]) -> Summary
    requires { length s.now ≡ sheet_length }
    ensures { result ≡ summary_at s.now }
{
    let limits = Limits {
        mtu: wire::get32(s, 0),
        lo: wire::get32(s, 4),
        hi: wire::get32(s, 8),
    };
    Summary {
        limits,
        events: wire::get32(s, 12),
        accrued: wire::get64(s, 16),
        sent: wire::get64(s, 24),
        ceiling: wire::signed64(wire::get64(s, 32)),
        need: wire::get64(s, 40),
    }
}

// Writes a summary to 48 bytes.
pub fn write(v: Summary, s: &mut [u8])
    requires { length s.old ≡ sheet_length }
    ensures { s.new ≡ sheet_of v }
{
    let limits = v.limits;
    let ceiling = wire::unsigned64(v.ceiling);
    wire::put32(s, 0, limits.mtu);
    wire::put32(s, 4, limits.lo);
    wire::put32(s, 8, limits.hi);
    wire::put32(s, 12, v.events);
    wire::put64(s, 16, v.accrued);
    wire::put64(s, 24, v.sent);
    wire::put64(s, 32, ceiling);
    wire::put64(s, 40, v.need);
}

// Writes the summary of an answer to the room and answers 0, or answers the number of a refusal and writes nothing.
pub fn hand_over(answer: Result<Summary, Refusal>, room: &mut [u8]) -> u64
    requires { length room.old ≡ sheet_length }
    ensures value { result ≡ answer_number answer }
    ensures room_after { room.new ≡ handed room.old answer }
{
    match answer {
        Ok(whole) => {
            write(whole, room);
            0
        }
        Err(refusal) => refusal.number(),
    }
}

// The summary that a file's bytes hold. 2 where they are not 48, then 3 where it is outside its range.
pub fn opened(s: &[u8]) -> Result<Summary, Refusal>
    ensures { result ≡ opened_of s.now }
{
    if s.len() != LENGTH {
        return Err(Refusal::NotWhole);
    }
    let held = read(s);
    if !held.in_range() {
        return Err(Refusal::OutOfRange);
    }
    Ok(held)
}

// The summary so far joined with that of the next file's bytes, or the first refusal.
pub fn joined(before: Result<Summary, Refusal>, s: &[u8]) -> Result<Summary, Refusal>
    ensures { result ≡ joined_with before s.now }
{
    before?.join_next(opened(s))
}
