// Walks the records on its input, one on each line as words of hex, and prints what a reader finds in each: a line for each event, then `end` or
// `refused N`. An empty line, and one that begins with #, is skipped.
#![tactic(auto)]

use reader::Place;
use script::print::{number, text, wrong_by};
use std::io;

// Walks the record on a line.
fn run(rt: &impl Print, line: &[u8]) -> io::Result<()> {
    let mut room = [0u8; 4096];
    let mut count = 0;
    // Each word's bytes stand behind those of the words before it.
    for word in script::words_of(line) {
        match script::bytes_into(word, &mut room[count..]) {
            Ok(n) => count += n,
            Err(fault) => return wrong_by(rt, word, fault),
        }
    }
    match count {
        0 => Ok(()),
        _ => walk(rt, &room[..count]),
    }
}

// Prints what a reader finds from the first item on. What cannot be printed is lost, and what comes after it is printed all the same.
fn walk(rt: &impl Print, bytes: &[u8]) -> io::Result<()> {
    let mut place = Place {
        at: reader::START,
        done: 0,
    };
    loop {
        match reader::read_at(bytes, place) {
            Ok(Some(item)) => {
                events(rt, item.kind, item.number, item.count);
                place = Place {
                    at: item.next,
                    done: place.done + item.count as u64,
                };
            }
            Ok(None) => return text(rt, b"end\n"),
            Err(refusal) => return numbered(rt, b"refused ", refusal.number()),
        }
    }
}

// An item's lines, one for each of its events: a run prints what its ticks print one by one.
fn events(rt: &impl Print, kind: u16, number: u16, count: u32) {
    for _ in 0..count {
        let _ = event(rt, kind, number);
    }
}

// An event's line.
fn event(rt: &impl Print, kind: u16, number: u16) -> io::Result<()> {
    let label: &[u8] = match kind {
        1 => b"waiting tick ",
        2 => b"idle tick ",
        _ => b"send ",
    };
    numbered(rt, label, u64::from(number))
}

// A line of a text and a number.
fn numbered(rt: &impl Print, label: &[u8], n: u64) -> io::Result<()> {
    number(rt, label, n).and(text(rt, b"\n"))
}

fn main(rt: HostRuntime) -> io::Result<()> {
    script::each_line(&rt, |line| run(&rt, line))
}
