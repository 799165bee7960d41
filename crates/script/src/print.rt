// What an answer is printed with, on standard output, piece by piece: each piece is a write of its own, so that one which fails loses nothing but itself. `and`
// tries what comes after a print that failed all the same, and answers the first failure.
use std::fmt::Display;
use std::io;

/// Some text as it is.
pub fn text(rt: &impl Print, bytes: &[u8]) -> io::Result<()> {
    rt.write_all(bytes)
}

/// A text and a number.
pub fn number(rt: &impl Print, label: &[u8], n: u64) -> io::Result<()> {
    text(rt, label).and(rt.print(n))
}

/// A line that says what is wrong with a word of the script.
pub fn wrong(rt: &impl Print, word: &[u8], what: &[u8]) -> io::Result<()> {
    about(rt, word).and(text(rt, what)).and(text(rt, b"\n"))
}

/// The same where a value says what is wrong, as a fault does.
pub fn wrong_by(rt: &impl Print, word: &[u8], what: impl Display + Drop) -> io::Result<()> {
    about(rt, word).and(rt.print(what)).and(text(rt, b"\n"))
}

/// Some bytes, two hex digits each.
pub fn hex(rt: &impl Print, bytes: &[u8]) -> io::Result<()> {
    let mut written = Ok(());
    for byte in bytes {
        written = written.and(print!(rt; "{byte:02x}"));
    }
    written
}

// The word that a line is about.
fn about(rt: &impl Print, word: &[u8]) -> io::Result<()> {
    text(rt, word).and(text(rt, b": "))
}
