// What is said on standard error: one line, and nothing where all is done. A line is put together in a room and written at once, so that the lines of commands that
// run side by side stay whole; the system's own words stand behind what they are of.
ghost use Rattle.std.specs.Prelude.{◌≡◌, ◌+◌, ◌-◌, ◌≤◌, length, min, take};
ghost use Rattle.wire.specs.Wire.{put};
ghost use Rattle.decide.specs.Number.{number_in};
ghost use Rattle.console.specs.Meaning.{record_words, pattern_words, summary_words};
ghost use Rattle.console.specs.declared.status.Status.TheVariants.{Trouble};

use crate::host::Host;
use crate::status::Status;
use decide::Refusal;
use std::fmt::Display;
use std::io;
use std::io::{Cursor, Write};

// The room for a line: a name of 4,096 bytes, the longest that a word is read for, and the words around it.
const LINE: usize = 4352;

// What is wrong is said: nothing is left but to end with trouble.
#[derive(Clone, Copy, Debug, PartialEq, Eq)]
pub struct Said;

impl From<Said> for Status {
    ghost from_gives = { λ _ status. status ≡ Trouble };

    fn from(_: Said) -> Status {
        Status::Trouble
    }
}

// Whether a file's name stands for standard input.
pub fn is_input(name: &[u8]) -> bool {
    matches!(name, b"-")
}

// Says how a command is called.
pub fn usage(rt: &impl Host, words: &[u8]) -> Said {
    line(rt, &mut [0u8; LINE], &[b"usage: rpr ", words])
}

// Says that a file cannot be read, and the system's reason.
pub fn trouble(rt: &impl Host, name: &[u8], why: io::Error) -> Said {
    trouble_with(rt, b"rpr: ", shown(name), why)
}

// Says that standard output cannot be written, and the system's reason.
pub fn unwritten(rt: &impl Host, why: io::Error) -> Said {
    trouble_of(rt, b"rpr: standard output", why)
}

// Says what there is trouble with, and the system's reason.
pub fn trouble_of(rt: &impl Host, what: &[u8], why: io::Error) -> Said {
    trouble_with(rt, b"", what, why)
}

// Says words of a file.
pub fn say(rt: &impl Host, name: &[u8], words: &[u8]) -> Said {
    say_word(rt, shown(name), words)
}

// Says words of a word of the command line that is no file.
pub fn say_word(rt: &impl Host, word: &[u8], words: &[u8]) -> Said {
    line(rt, &mut [0u8; LINE], &[b"rpr: ", word, b": ", words])
}

// Says a refusal of a file, with its number and what that means there.
pub fn refused(rt: &impl Host, name: &[u8], why: Refusal, words: &[u8]) -> Said {
    let mut room = [0u8; 28];
    let told = text(&mut room, why);
    line(
        rt,
        &mut [0u8; LINE],
        &[b"rpr: ", shown(name), b": ", told, b": ", words],
    )
}

// Says a refusal of a record.
pub fn refused_record(rt: &impl Host, name: &[u8], why: Refusal) -> Said {
    refused(rt, name, why, of_record(why))
}

// Says a refusal of a heartbeat's pattern.
pub fn refused_pattern(rt: &impl Host, name: &[u8], why: Refusal) -> Said {
    refused(rt, name, why, of_pattern(why))
}

// Says a refusal of a summary that is joined to those before it.
pub fn refused_summary(rt: &impl Host, name: &[u8], why: Refusal) -> Said {
    refused(rt, name, why, of_summary(why))
}

// What a refusal means of a record, by its number.
fn of_record(why: Refusal) -> &'static [u8]
    ensures { result.now ≡ record_words (number_in why) }
{
    match why.number() {
        1 => b"a setting is outside its range",
        2 => b"the bytes are not a whole record",
        3 => b"the size of a send is outside its range",
        _ => b"over 1,000,000 events",
    }
}

// What a refusal means of a heartbeat's pattern, by its number.
fn of_pattern(why: Refusal) -> &'static [u8]
    ensures { result.now ≡ pattern_words (number_in why) }
{
    match why.number() {
        3 => b"over 256 events, or the size of a send is outside its range",
        9 => b"over 1,000,000 events with so many repeats",
        _ => of_record(why),
    }
}

// What a refusal means of a summary that is joined to those before it, by its number.
fn of_summary(why: Refusal) -> &'static [u8]
    ensures { result.now ≡ summary_words (number_in why) }
{
    match why.number() {
        2 => b"not the 48 bytes of a summary",
        3 => b"the summary is outside its range",
        10 => b"its settings are not those of the files before it",
        _ => b"over 1,000,000 events with the files before it",
    }
}

// What a file is called in a line.
fn shown(name: &[u8]) -> &[u8] {
    if is_input(name) {
        b"standard input"
    } else {
        name
    }
}

// Says what there is trouble with, in two parts, and the system's reason.
fn trouble_with(rt: &impl Host, who: &[u8], what: &[u8], why: io::Error) -> Said {
    let mut room = [0u8; 320];
    let reason = reason(text(&mut room, why), why.raw_os_error().is_some());
    line(rt, &mut [0u8; LINE], &[who, what, b": ", reason])
}

// The reason: where the system's number stands behind it, in brackets, what stands before the last blank that a bracket follows.
fn reason(text: &[u8], numbered: bool) -> &[u8] {
    let number = text.windows(2).rposition(|two| matches!(two, b" ("));
    match number {
        Some(end) if numbered => &text[..end],
        _ => text,
    }
}

// A value as text, as far as it fits this room.
fn text<D: Display + Drop>(room: &mut [u8], value: D) -> &[u8] {
    let mut room = Cursor::new(room);
    let _ = write!(room, "{value}");
    written(room)
}

// What is written to a room.
fn written<'a>(room: Cursor<&'a mut [u8]>) -> &'a [u8] {
    let end = room.position();
    let bytes = room.into_inner();
    &bytes[..end.min(bytes.len() as u64) as usize]
}

// Writes a line of these parts, as far as they fit this room.
pub fn line(rt: &impl Host, room: &mut [u8], parts: &[&[u8]]) -> Said {
    let mut at = 0;
    for part in parts {
        at = put(room, at, part);
    }
    let end = put(room, at, b"\n");
    // Where standard error cannot be written, nothing is left to say it on.
    let _ = rt.tell(&room[..end]);
    Said
}

// Puts words into a room from a place on, as far as they fit, and answers the place behind them.
pub fn put(room: &mut [u8], at: usize, words: &[u8]) -> usize
    requires { at ≤ length room.old }
    ensures within { result ≤ length room.new }
    ensures value { result ≡ min (at + length words.now) (length room.old) }
    ensures room_after { room.new ≡ put room.old at (take (length room.old - at) words.now) }
{
    let n = (room.len() - at).min(words.len());
    let end = at + n;
    room[at..end].copy_from_slice(&words[..n]);
    end
}
