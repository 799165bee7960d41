// Runs the cases on its input, one on each line: a name, then a record's bytes as words. A word is hex digits, or a number, a star and hex digits: these
// bytes so many times; a word `|` begins the next piece, a record of its own. For each case its name and what the record, or its pieces joined from the
// left, comes to. An empty line, and one that begins with #, is skipped.
#![tactic(auto)]

use decide::Refusal;
use feed::Feed;
use script::Fault;
use script::print::{text, wrong_by};
use std::io;
use summary::Summary;

// A case so far: the piece that is being fed, the pieces before it joined, and the refusal of the first that was refused.
#[derive(Clone, Copy)]
struct Case {
    feed: Feed,
    whole: Option<Result<Summary, Refusal>>,
    refused: Option<Refusal>,
}

impl Case {
    // A case of which no byte has come.
    fn new() -> Case {
        Case {
            feed: Feed::new(),
            whole: None,
            refused: None,
        }
    }

    // Feeds some bytes, so often.
    fn feed(&mut self, bytes: &[u8], times: u64) {
        for _ in 0..times {
            self.feed = self.feed.feed(bytes);
        }
    }

    // Ends the piece: it is joined to those before it, or its refusal is kept.
    fn part(&mut self) {
        match self.feed.finish() {
            Ok(s) => self.whole = Some(joined(self.whole, s)),
            Err(refusal) => self.refused = self.refused.or(Some(refusal)),
        }
        self.feed = Feed::new();
    }

    // What the case comes to. One of which no piece has ended comes to nothing whole.
    fn answer(self) -> Result<Summary, Refusal> {
        match self.refused {
            Some(refusal) => Err(refusal),
            None => self.whole.unwrap_or(Err(Refusal::NotWhole)),
        }
    }
}

// A piece's summary behind those before it.
fn joined(whole: Option<Result<Summary, Refusal>>, s: Summary) -> Result<Summary, Refusal> {
    match whole {
        Some(before) => before?.join(s),
        None => Ok(s),
    }
}

// Runs the case on a line, and prints its name and what it comes to, each whatever became of what was printed before it.
fn run(rt: &impl Print, line: &[u8]) -> io::Result<()> {
    let mut words = script::words_of(line);
    let Some(name) = words.next() else {
        return Ok(());
    };
    let _ = text(rt, name).and(text(rt, b"\n"));
    let mut case = Case::new();
    let mut room = [0u8; 4096];
    for word in words {
        let _ = apply(rt, &mut case, word, &mut room);
    }
    case.part();
    report::print(rt, case.answer())
}

// Does what a word says: a bar ends the piece, and other words are bytes.
fn apply(rt: &impl Print, case: &mut Case, word: &[u8], room: &mut [u8]) -> io::Result<()> {
    match word {
        b"|" => case.part(),
        _ => {
            if let Err(fault) = spelt(case, word, room) {
                return wrong_by(rt, word, fault);
            }
        }
    }
    Ok(())
}

// Feeds the bytes of a word, as often as they come, by way of the room.
fn spelt(case: &mut Case, word: &[u8], room: &mut [u8]) -> Result<(), Fault> {
    let times = script::times_of(word);
    let count = script::bytes_into(times.what, room)?;
    case.feed(&room[..count], times.number?);
    Ok(())
}

fn main(rt: HostRuntime) -> io::Result<()> {
    script::each_line(&rt, |line| run(&rt, line))
}
