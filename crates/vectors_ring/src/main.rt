// Runs the cases on its input, one on each line: `choose STATIONS OWN TARGET LINKS SIDE PROTECTION RING` or `path STATIONS OWN TARGET LINKS HOME`, and
// prints what the ring's two calls answer. Numbers are decimal, or hex behind 0x. An empty line, and one that begins with #, is skipped.
#![tactic(auto)]

use decide::Refusal;
use ring::Choice;
use script::Words;
use script::print::{number, text, wrong};
use std::io;
use wrap::Journey;

// Does what a line asks for.
fn run(rt: &impl Print, line: &[u8]) -> io::Result<()> {
    let mut words = script::words_of(line);
    match words.next() {
        Some(name) => called(rt, name, words),
        None => Ok(()),
    }
}

// The call of this name with the numbers that the words are.
fn called(rt: &impl Print, name: &[u8], words: Words<'_>) -> io::Result<()> {
    let row = script::numbers(words);
    match (name, row.all()) {
        (b"choose", Ok([stations, own, target, links, side, protection, ring])) => chosen(
            rt,
            ring::choose(*stations, *own, *target, *links, *side, *protection, *ring),
        ),
        (b"path", Ok([stations, own, target, links, home])) => {
            moved(rt, wrap::path(*stations, *own, *target, *links, *home))
        }
        _ => wrong(
            rt,
            name,
            b"choose with 7 numbers, or path with 5, is wanted",
        ),
    }
}

// Prints a choice.
fn chosen(rt: &impl Print, answer: Result<Choice, Refusal>) -> io::Result<()> {
    match answer {
        Ok(choice) => number(rt, b"choose side ", choice.side)
            .and(number(rt, b" distance ", choice.distance))
            .and(number(rt, b" ttl ", choice.ttl))
            .and(number(rt, b" mark ", u64::from(choice.mark))),
        Err(refusal) => number(rt, b"choose refused ", refusal.number()),
    }
    .and(text(rt, b"\n"))
}

// Prints what became of a frame.
fn moved(rt: &impl Print, answer: Result<Journey, Refusal>) -> io::Result<()> {
    match answer {
        Ok(journey) => number(rt, b"path delivered ", u64::from(journey.delivered)).and(number(
            rt,
            b" hops ",
            journey.hops,
        )),
        Err(refusal) => number(rt, b"path refused ", refusal.number()),
    }
    .and(text(rt, b"\n"))
}

fn main(rt: HostRuntime) -> io::Result<()> {
    script::each_line(&rt, |line| run(&rt, line))
}
