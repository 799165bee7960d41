// `rpr summarize [--bytes] [--sheet] [FILE]`: the summary of a shaper record, given as hex text or as bytes.
use crate::named::{NAME, name};
use console::status::{Status, status_of};
use console::tell::Said;
use console::words::{Asked, Files};
use console::{Host, files, tell, words};
use decide::Refusal;
use feed::Feed;
use hex_text::{Hex, Place};
use std::io::Read;
use summary::Summary;

// A record as far as it is read: as bytes, or as the text that gives them.
#[derive(Clone, Copy)]
enum Record {
    Bytes(Feed),
    Text(Hex),
}

impl Record {
    // The record with a chunk more.
    fn and(self, chunk: &[u8]) -> Record {
        match self {
            Record::Bytes(feed) => Record::Bytes(feed.feed(chunk)),
            Record::Text(text) => Record::Text(text.text(chunk)),
        }
    }

    // Whether the rest of the input can change nothing: behind a fault of bytes, or where a text can only be refused with 2.
    fn ends(self) -> bool {
        match self {
            Record::Bytes(feed) => feed.ends(),
            Record::Text(text) => text.ends(),
        }
    }

    // What the record comes to.
    fn finish(self) -> Result<Summary, Refusal> {
        match self {
            Record::Bytes(feed) => feed.finish(),
            Record::Text(text) => text.finish(),
        }
    }

    // Whether it is refused as it is no hex: by a character, or by an odd digit at the end of what was read whole.
    fn is_other(self, whole: bool) -> bool {
        match self {
            Record::Bytes(_) => false,
            Record::Text(text) => match text.place {
                Place::Between => false,
                Place::Behind(_) => whole,
                Place::Lost => true,
            },
        }
    }
}

pub fn run(rt: &impl Host) -> Result<Status, Said> {
    let mut room = [0u8; NAME];
    let asked = words::all(rt);
    match asked.files {
        Files::None if !asked.unknown => of_file(rt, b"-", asked),
        Files::One(at) if !asked.unknown => of_file(rt, name(rt, at, &mut room)?, asked),
        _ => Err(tell::usage(rt, b"summarize [--bytes] [--sheet] [FILE]")),
    }
}

// Reads a file to its end, or to where the rest can change nothing, and tells what it comes to. A read that fails is no end of the input: then nothing is summarized. A proved
// loop has to end, and nothing says that an input does: no run uses up so many turns.
fn of_file<R: Host>(rt: &R, name: &[u8], asked: Asked) -> Result<Status, Said> {
    let mut file = files::opened(rt, name)?;
    let mut record = if asked.bytes {
        Record::Bytes(Feed::new())
    } else {
        Record::Text(Hex::new())
    };
    let mut chunk = [0u8; 65536];
    for _ in 0..u64::MAX {
        let n = file
            .read(&mut chunk)
            .map_err(|why| tell::trouble(rt, name, why))?;
        record = record.and(&chunk[..n]);
        if n == 0 || record.ends() {
            return Ok(finish(rt, name, record, asked.sheet, n == 0));
        }
    }
    Ok(Status::Trouble)
}

// Prints what the record comes to, and says why where it is refused. `whole` tells whether the input was read to its end.
fn finish(rt: &impl Host, name: &[u8], record: Record, sheet: bool, whole: bool) -> Status {
    let answer = record.finish();
    let written = files::print(rt, answer, sheet);
    match (written, answer) {
        (Err(why), _) => {
            tell::unwritten(rt, why);
        }
        (Ok(()), Err(refusal)) => {
            say_why(rt, name, refusal, record.is_other(whole));
        }
        (Ok(()), Ok(_)) => {}
    }
    status_of(written.is_ok(), answer)
}

// Says why a record is refused: as other text than hex, or what the refusal means.
fn say_why(rt: &impl Host, name: &[u8], refusal: Refusal, other: bool) -> Said {
    if other {
        tell::refused(
            rt,
            name,
            refusal,
            b"hex is expected, and this is other text; --bytes reads bytes",
        )
    } else {
        tell::refused_record(rt, name, refusal)
    }
}
