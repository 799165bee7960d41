// What is printed of an answer: one line for each call.
use advert::Advert;
use queue::Frame;
use script::print::text;
use shaper::Refused;
use std::io;

// `NAME done`.
pub fn done(rt: &impl Print, name: &[u8]) -> io::Result<()> {
    text(rt, name).and(text(rt, b" done\n"))
}

// `NAME refused N`, and how far short where the refusal says it.
pub fn refused(rt: &impl Print, name: &[u8], refused: Refused) -> io::Result<()> {
    let said = text(rt, name).and(script::print::number(
        rt,
        b" refused ",
        refused.refusal.number(),
    ));
    match refused.detail {
        0 => said,
        short => said.and(script::print::number(rt, b" short ", short)),
    }
    .and(text(rt, b"\n"))
}

// The mark of a client's frame.
pub fn marked(rt: &impl Print, mark: u32) -> io::Result<()> {
    text(rt, b"client")
        .and(number(rt, b" eligible ", mark))
        .and(text(rt, b"\n"))
}

// What goes next, and where it comes from.
pub fn selected(rt: &impl Print, origin: u32, frame: Frame) -> io::Result<()> {
    text(rt, b"select")
        .and(number(rt, b" origin ", origin))
        .and(number(rt, b" class ", frame.class))
        .and(number(rt, b" hops ", frame.hops))
        .and(number(rt, b" eligible ", frame.mark))
        .and(number(rt, b" size ", frame.size))
        .and(text(rt, b"\n"))
}

// What is told: the bytes of the frame in hex.
pub fn told(rt: &impl Print, said: Advert) -> io::Result<()> {
    let mut room = [0u8; advert::LENGTH];
    advert::write(said, &mut room);
    text(rt, b"tell")
        .and(text(rt, b" "))
        .and(script::print::hex(rt, &room))
        .and(text(rt, b"\n"))
}

// A word and a number of 32 bits.
pub fn number(rt: &impl Print, word: &[u8], n: u32) -> io::Result<()> {
    script::print::number(rt, word, u64::from(n))
}
