// Lines, each written to a slice from a place on. Each function answers the place behind what it wrote.
ghost use Rattle.std.specs.Prelude.{◌≡◌, ◌+◌, ◌≤◌, length};
ghost use Rattle.wire.specs.Wire.{put};
ghost use Rattle.apart.specs.Text.{named, setting_text, head_text, event_text, both_text, only_text};
ghost use Rattle.apart.specs.Turn.{line_text};

use crate::Finding;
use shaper::Event;

// Writes the line of a setting, `WORDS A, B`, where the two differ.
pub fn put_setting(s: &mut [u8], at: usize, words: &[u8], a: u64, b: u64) -> usize
    requires { at + length (setting_text words.now a b) ≤ length s.old }
    ensures value { result ≡ at + length (setting_text words.now a b) }
    ensures s_after { s.new ≡ put s.old at (setting_text words.now a b) }
{
    if a == b {
        return at;
    }
    let comma = put_named(s, at, words, a);
    report::put_line(s, comma, b", ", b)
}

// Writes what is listed of a position: one line, or nothing.
pub fn put_line(s: &mut [u8], at: usize, n: u64, line: Finding) -> usize
    requires { at + length (line_text n line) ≤ length s.old }
    ensures value { result ≡ at + length (line_text n line) }
    ensures s_after { s.new ≡ put s.old at (line_text n line) }
{
    match line {
        Finding::Nothing => at,
        Finding::Both(e, f) => put_both(s, at, n, e, f),
        Finding::First(e) => put_only(s, at, b"first only, event ", n, e),
        Finding::Second(f) => put_only(s, at, b"second only, event ", n, f),
    }
}

// Writes the line of a position at which two events differ.
pub fn put_both(s: &mut [u8], at: usize, n: u64, e: Event, f: Event) -> usize
    requires { at + length (both_text n e f) ≤ length s.old }
    ensures value { result ≡ at + length (both_text n e f) }
    ensures s_after { s.new ≡ put s.old at (both_text n e f) }
{
    let first = put_head(s, at, b"event ", n);
    let comma = put_event(s, first, e);
    let second = report::put_words(s, comma, b", ");
    let end = put_event(s, second, f);
    report::put_words(s, end, b"\n")
}

// Writes the line of a position at which only one record has an event; the words say which.
fn put_only(s: &mut [u8], at: usize, words: &[u8], n: u64, e: Event) -> usize
    requires { at + length (only_text words.now n e) ≤ length s.old }
    ensures value { result ≡ at + length (only_text words.now n e) }
    ensures s_after { s.new ≡ put s.old at (only_text words.now n e) }
{
    let event = put_head(s, at, words, n);
    let end = put_event(s, event, e);
    report::put_words(s, end, b"\n")
}

// Writes what a line begins with: words, the position and a colon.
fn put_head(s: &mut [u8], at: usize, words: &[u8], n: u64) -> usize
    requires { at + length (head_text words.now n) ≤ length s.old }
    ensures value { result ≡ at + length (head_text words.now n) }
    ensures s_after { s.new ≡ put s.old at (head_text words.now n) }
{
    let end = put_named(s, at, words, n);
    report::put_words(s, end, b": ")
}

// Writes an event: its kind and its number.
fn put_event(s: &mut [u8], at: usize, e: Event) -> usize
    requires { at + length (event_text e) ≤ length s.old }
    ensures value { result ≡ at + length (event_text e) }
    ensures s_after { s.new ≡ put s.old at (event_text e) }
{
    match e {
        Event::Waiting(amount) => put_named(s, at, b"waiting ", amount as u64),
        Event::Idle(amount) => put_named(s, at, b"idle ", amount as u64),
        Event::Send(size) => put_named(s, at, b"send ", size as u64),
    }
}

// Writes words and a number.
fn put_named(s: &mut [u8], at: usize, words: &[u8], n: u64) -> usize
    requires { at + length (named words.now n) ≤ length s.old }
    ensures value { result ≡ at + length (named words.now n) }
    ensures s_after { s.new ≡ put s.old at (named words.now n) }
{
    let number = report::put_words(s, at, words);
    report::put_numeral(s, number, n)
}
