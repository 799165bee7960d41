// Heartbeats that always fit: whether a pattern of events, repeated, is permitted throughout from loLimit, and the credit at the end. The pattern is a record of at most 256
// events, in either form; its summary is joined with itself, doubling.
#![tactic(auto)]

ghost use Rattle.std.specs.Prelude.{◌≡◌, ◌+◌, ◌≤◌};
ghost use Rattle.heartbeat.specs.Repeat.{repeated_of};
ghost use Rattle.heartbeat.specs.Doubling.{most_joins, none_of, joined_more, twice_of, doubling_of};
ghost use Rattle.heartbeat.specs.Heartbeat.{many_told, pattern_of, heartbeats_of, from_low_of, heartbeat_answer};

use decide::Refusal;
use summary::Summary;

// The most events of a pattern.
const MAX_PATTERN: u64 = 256;

// The most binary digits of a number of repeats.
const DIGITS: u64 = 64;

// Some repeats: their summary, or a refusal, and how many joins were asked for. Behind a refusal none is made.
#[derive(Clone, Copy)]
pub struct Repeats {
    pub sum: Result<Summary, Refusal>,
    pub joins: u64,
}

// Whether a pattern, repeated so many times, is permitted throughout from loLimit, and if so the credit at the end. The number of the pattern's earliest fault, which is 3 at a
// 257th event; then 9 where the repeats have over 1,000,000 events.
pub fn rpr_heartbeat(pattern: &[u8], repeats: u64) -> u64
    ensures { result ≡ heartbeat_answer pattern.now repeats }
{
    match from_low(heartbeats(pattern, repeats)) {
        Ok(Some(credit)) => answer::permitted(credit),
        Ok(None) => 0,
        Err(refusal) => refusal.number(),
    }
}

// The summary of a pattern that is repeated so many times. The number of the pattern's earliest fault; then 9.
pub fn heartbeats(pattern: &[u8], repeats: u64) -> Result<Summary, Refusal>
    ensures { result ≡ heartbeats_of pattern.now repeats }
{
    repeated(pattern_of(pattern)?, repeats)
}

// What the events of a summary do from loLimit; a refusal stays.
pub fn from_low(answer: Result<Summary, Refusal>) -> Result<Option<u64>, Refusal>
    ensures { result ≡ from_low_of answer }
{
    let whole = answer?;
    whole.settle(whole.limits.lo as u64)
}

// The summary of a pattern: a record of at most 256 events, in either form. The number of its earliest fault: any byte past the 256th event is 3, and so is a run without a fault of
// its own that passes it.
pub fn pattern_of(pattern: &[u8]) -> Result<Summary, Refusal>
    ensures { result ≡ pattern_of pattern.now }
{
    let limits = record::header_of(pattern)?;
    many_told(account::events(&pattern[14..], limits, MAX_PATTERN, true))
}

// The same answer with 3 for 9: where 256 events may come, too many are told by 9, which no other fault is.
fn many_told(answer: Result<Summary, Refusal>) -> Result<Summary, Refusal>
    ensures { result ≡ many_told answer }
{
    match answer {
        Err(refusal) if refusal.number() == 9 => Err(Refusal::OutOfRange),
        other => other,
    }
}

// The summary of a summary's events, repeated so many times. 3 where it is outside its range; 9 where the repeats have over 1,000,000 events, as the joins say.
pub fn repeated(one: Summary, repeats: u64) -> Result<Summary, Refusal>
    ensures { result ≡ repeated_of one repeats }
{
    if !one.in_range() {
        return Err(Refusal::OutOfRange);
    }
    doubled(one, repeats).sum
}

// So many repeats of a summary's events, by doubling, a turn for each binary digit of their number: from the first digit on, the repeats so far are joined with themselves,
// and with one more where the digit is 1.
pub fn doubled(one: Summary, repeats: u64) -> Repeats
    ensures { result ≡ doubling_of one repeats }
{
    let mut all = none(one);
    let digits = DIGITS - repeats.leading_zeros() as u64;
    for digit in (0..digits).rev() {
        all = all.twice(one, (repeats >> digit) % 2 == 1);
    }
    all
}

// No repeat.
fn none(one: Summary) -> Repeats
    ensures { result ≡ none_of one }
{
    Repeats {
        sum: Summary::empty(one.limits),
        joins: 0,
    }
}

impl Repeats {
    // Twice the repeats so far, joined with themselves, and one more where that makes the number odd.
    fn twice(self, one: Summary, odd: bool) -> Repeats
        requires { self.joins ≤ most_joins }
        ensures { result ≡ twice_of odd one self }
    {
        let even = self.join(self.sum);
        if odd {
            return even.join(Ok(one));
        }
        even
    }

    // The repeats so far and then these, by one join more; a refusal stays.
    fn join(self, next: Result<Summary, Refusal>) -> Repeats
        requires { self.joins ≤ most_joins + 1 }
        ensures { result ≡ joined_more self next }
    {
        Repeats {
            sum: self.sum.and_then(|so_far| so_far.join_next(next)),
            joins: self.joins + 1,
        }
    }
}
