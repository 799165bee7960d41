// `rpr heartbeat PATTERN REPEATS`: whether a pattern of events, a record file as bytes, in either form, is permitted throughout from loLimit where it is repeated so many times.
// What is printed, where it is not refused, is what `rpr summarize` prints of the written-out record.
use crate::named::{NAME, bytes, name};
use console::status::{Status, heartbeat_status};
use console::tell::Said;
use console::words::{Asked, Files};
use console::{Host, tell, words};

// The bytes to read a pattern into. One without a fault has at most 1,550, as an event takes at most 6. Behind 255 events the next item begins at byte 1,544 at the latest, and takes
// at most 10: so the fault of a longer file lies within 1,554.
const PATTERN: usize = 1554;

// Reads the number of repeats first, and then the pattern.
pub fn run(rt: &impl Host) -> Result<Status, Said> {
    let Asked {
        bytes: false,
        sheet: false,
        unknown: false,
        files: Files::Two(pattern, repeats),
    } = words::all(rt)
    else {
        return Err(tell::usage(rt, b"heartbeat PATTERN REPEATS"));
    };
    let mut word = [0u8; NAME];
    let n = words::word_into(rt, repeats, &mut word).map_err(|_| no_number(rt, &word))?;
    let repeats = number(&word[..n]).ok_or_else(|| no_number(rt, &word[..n]))?;
    let mut room = [0u8; NAME];
    of_file(rt, name(rt, pattern, &mut room)?, repeats)
}

// Says that a word is no number of repeats.
fn no_number(rt: &impl Host, word: &[u8]) -> Said {
    tell::say_word(rt, word, b"not a number of repeats")
}

// Reads a file to its end, or to where the rest can change nothing, prints what the repeats of its pattern come to, and says why where they are refused.
fn of_file(rt: &impl Host, name: &[u8], repeats: u64) -> Result<Status, Said> {
    let mut pattern = [0u8; PATTERN];
    let all = heartbeat::heartbeats(bytes(rt, name, &mut pattern)?, repeats);
    let written = report::print(rt, all);
    match (written, all) {
        (Err(why), _) => {
            tell::unwritten(rt, why);
        }
        (Ok(()), Err(refusal)) => {
            tell::refused_pattern(rt, name, refusal);
        }
        (Ok(()), Ok(_)) => {}
    }
    Ok(heartbeat_status(written.is_ok(), heartbeat::from_low(all)))
}

// The number that a word is: digits, and at least one. It is the largest of 64 bits where it is larger: then the repeats of any event are too many in either case, and those of none
// are none.
fn number(word: &[u8]) -> Option<u64> {
    let mut number = None;
    for c in word {
        if !c.is_ascii_digit() {
            return None;
        }
        let digit = decide::less(u64::from(*c), u64::from(b'0'));
        let before = number.unwrap_or(0u64);
        number = Some(before.saturating_mul(10).saturating_add(digit));
    }
    number
}
