// What no clause says: which lines are run, and what is a number and what are bytes.
use crate::{Fault, Input, Words, bytes_into, bytes_of, each_line, line, number, numbers, print};
use arrayvec::ArrayVec;
use std::alloc::Allocator;
use std::cell::Cell;
use std::fmt::Display;
use std::io;
use std::io::{BufRead, ErrorKind, Lines};
use std::test::Fail;

static LONG: [u8; 4097] = [b'x'; 4097];

// 41 words, the last of which is not kept.
static MANY: &[u8] =
    b"1 1 1 1 1 1 1 1 1 1 1 1 1 1 1 1 1 1 1 1 1 1 1 1 1 1 1 1 1 1 1 1 1 1 1 1 1 1 1 1 9";

// A runtime whose input is this text, and whose output goes nowhere, or fails where it is full. It counts the prints that are tried.
#[derive(Drop)]
struct Page {
    text: &'static [u8],
    full: bool,
    tried: Cell<usize>,
}

impl Page {
    fn new(text: &'static [u8], full: bool) -> Page {
        Page {
            text,
            full,
            tried: Cell::new(0),
        }
    }

    // Tries a print.
    fn take(&self) -> io::Result<()> {
        self.tried.set(self.tried.get().wrapping_add(1));
        match self.full {
            true => Err(ErrorKind::StorageFull.into()),
            false => Ok(()),
        }
    }
}

impl io::Input for Page {
    type Reader = &'static [u8];

    fn read_line<A: Allocator + Clone>(&self, buf: &mut String<A>) -> io::Result<usize> {
        self.reader().read_line(buf)
    }

    fn lines<A: Allocator>(&self, alloc: A) -> Lines<&'static [u8], A> {
        self.reader().lines(alloc)
    }

    fn reader(&self) -> &'static [u8] {
        self.text
    }
}

impl Print for Page {
    fn print<D: Display + Drop>(&self, _value: D) -> io::Result<()> {
        self.take()
    }

    fn println<D: Display + Drop>(&self, _value: D) -> io::Result<()> {
        self.take()
    }

    fn write_all(&self, _bytes: &[u8]) -> io::Result<()> {
        self.take()
    }
}

// The lengths of the lines that are run of a text.
fn run_lengths(text: &'static [u8]) -> io::Result<ArrayVec<usize, 8>> {
    let mut lengths = ArrayVec::<usize, 8>::new();
    each_line(&Page::new(text, false), |line| {
        let _ = lengths.try_push(line.len());
        Ok(())
    })?;
    Ok(lengths)
}

#[test]
fn lines_are_run(rt: HostRuntime) -> Result<(), Fail> {
    let lines = run_lengths(b"ab\n\nc\r\nlast")?;
    assert!(rt; lines.as_slice() == [2, 0, 2, 4].as_slice());
    let ended = run_lengths(b"ab\n")?;
    assert!(rt; ended.as_slice() == [2, 0].as_slice());
    let longest = run_lengths(&LONG[1..])?;
    assert!(rt; longest.as_slice() == [4096].as_slice());
    assert!(rt; run_lengths(&LONG)?.is_empty());
    Ok(())
}

#[test]
fn lost_prints_end_nothing(rt: HostRuntime) -> Result<(), Fail> {
    let page = Page::new(b"first\nsecond", true);
    let mut runs = 0usize;
    each_line(&page, |line| {
        runs = runs.wrapping_add(1);
        print::hex(&page, line)
    })?;
    assert!(rt; runs == 2 && page.tried.get() == 11);
    // A word, what stands behind it, what is wrong, and the line's end: each is tried.
    assert!(rt; print::wrong(&page, b"word", b"\xff").is_err());
    assert!(rt; page.tried.get() == 15);
    assert!(rt; print::wrong_by(&page, b"word", Fault::NoHex).is_err());
    assert!(rt; page.tried.get() == 19);
    assert!(rt; print::number(&page, b"label ", 7).is_err());
    assert!(rt; page.tried.get() == 21);
    Ok(())
}

#[test]
fn lines_are_taken(rt: HostRuntime) {
    let page = Page::new(b"ab\n\ncde", false);
    let mut buffer = [0u8; 64];
    let mut room = [0u8; 2];
    let first = line(&page, Input::whole(), &mut buffer, &mut room);
    assert!(rt; first.length == Some(2) && !first.last);
    assert!(rt; room == *b"ab");
    let second = line(&page, first.input, &mut buffer, &mut room);
    assert!(rt; second.length == Some(0) && !second.last);
    // A reader of this page begins it anew, so that a fourth line stands behind the third.
    let third = line(&page, second.input, &mut buffer, &mut room);
    assert!(rt; third.length.is_none() && !third.last);
}

#[test]
fn rows_are_read(rt: HostRuntime) {
    let row = numbers(Words(b"3 0x10 2"));
    assert!(rt; row.all().is_ok_and(|n| n == [3, 16, 2].as_slice()));
    assert!(rt; row.are(3) && !row.are(2) && row.largest == 16);
    assert!(rt; row.only_or(5).is_err());
    let spoilt = numbers(Words(b"3 x 2"));
    assert!(rt; spoilt.wrong && spoilt.count == 2 && spoilt.largest == 3);
    assert!(rt; !spoilt.are(2) && spoilt.all().is_err());
    let none = numbers(Words(b" "));
    assert!(rt; none.are(0) && none.only_or(5) == Ok(5));
    assert!(rt; numbers(Words(b"7")).only_or(5) == Ok(7));
    let many = numbers(Words(MANY));
    assert!(rt; many.are(40) && many.largest == 1);
}

#[test]
fn bytes_are_put(rt: HostRuntime) {
    let mut room = [7u8; 3];
    assert!(rt; bytes_into(b" 0aFf ", &mut room) == Ok(2));
    assert!(rt; room == [10, 255, 7]);
    assert!(rt; bytes_into(b"01020304", &mut room) == Err(Fault::NoHex));
    assert!(rt; room == [10, 255, 7]);
}

#[test]
fn numbers_are_read(rt: HostRuntime) {
    let most: &[u8] = b"18446744073709551615";
    let most_hex: &[u8] = b"0xfFfFfFfFfFfFfFfF";
    for (word, want) in [
        (b"0".as_slice(), 0),
        (b"0007", 7),
        (b"0x0a", 10),
        (most, u64::MAX),
        (most_hex, u64::MAX),
    ] {
        assert!(rt; number(word) == Ok(want));
    }
    let over: &[u8] = b"18446744073709551616";
    let over_hex: &[u8] = b"0x10000000000000000";
    for word in [
        b"".as_slice(),
        b"0x",
        b"0X1",
        b"+1",
        b"0x+1",
        b"-1",
        b"a",
        b"1 ",
        b"\xff",
        over,
        over_hex,
    ] {
        assert!(rt; number(word).is_err());
    }
}

#[test]
fn bytes_are_read(rt: HostRuntime) {
    for (text, want) in [
        (b"".as_slice(), b"".as_slice()),
        (b" \t", b""),
        (b" 0aFf\r", b"\x0a\xff"),
    ] {
        assert!(rt; bytes_of(text).is_ok_and(|bytes| bytes.as_slice() == want));
    }
    for text in [b"0".as_slice(), b"0g", b"+a", b"00 00", b"0x00"] {
        assert!(rt; bytes_of(text).is_err());
    }
    assert!(rt; bytes_of(&[b'0'; 8194]).is_err());
}
