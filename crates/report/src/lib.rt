// What the programs print of a record: its summary and what it says of the start at loLimit, or a refusal's number.
#![tactic(auto)]

ghost use Rattle.std.specs.Prelude.{◌≡◌, ◌+◌, ◌≤◌, length};
ghost use Rattle.wire.specs.Wire.{put};
ghost use Rattle.report.specs.Text.{numeral, signed_numeral, line};
ghost use Rattle.report.specs.Report.{ceiling_line, counts_text, started_text, settled_text, printed_of};

use decide::Refusal;
use std::io;
use summary::Summary;

// Prints a summary as six lines, or `refused N`, by one write; answers whether all of it was written, or why not.
pub fn print(rt: &impl Print, answer: Result<Summary, Refusal>) -> io::Result<()> {
    let mut room = [0u8; 256];
    let end = fill(answer, &mut room);
    rt.write_all(&room[..end])
}

// Fills a room's first bytes with what is printed of an answer, and answers how many they are.
pub fn fill(answer: Result<Summary, Refusal>, room: &mut [u8; 256]) -> usize
    ensures value { result ≡ length (printed_of answer) }
    ensures room_after { room.new ≡ put room.old 0 (printed_of answer) }
{
    put_answer(room, 0, answer)
}

// Writes what is printed of an answer to `s` from `at` on, and answers the place behind it.
pub fn put_answer(s: &mut [u8], at: usize, answer: Result<Summary, Refusal>) -> usize
    requires { at + length (printed_of answer) ≤ length s.old }
    ensures value { result ≡ at + length (printed_of answer) }
    ensures s_after { s.new ≡ put s.old at (printed_of answer) }
{
    match answer {
        Ok(summary) => {
            let limits = summary.limits;
            let outcome = summary.settle(limits.lo as u64);
            put_settled(s, at, summary, outcome)
        }
        Err(refusal) => put_line(s, at, b"refused ", refusal.number()),
    }
}

// Writes the lines of a summary whose events do this from the start to `s` from `at` on, and answers the place behind them.
fn put_settled(
    s: &mut [u8],
    at: usize,
    summary: Summary,
    outcome: Result<Option<u64>, Refusal>,
) -> usize
    requires { at + length (settled_text summary outcome) ≤ length s.old }
    ensures value { result ≡ at + length (settled_text summary outcome) }
    ensures s_after { s.new ≡ put s.old at (settled_text summary outcome) }
{
    match outcome {
        Ok(end) => {
            let verdict = put_started(s, at, summary);
            match end {
                Some(credit) => put_line(s, verdict, b" permitted end ", credit),
                None => put_words(s, verdict, b" not permitted\n"),
            }
        }
        Err(refusal) => put_line(s, at, b"refused ", refusal.number()),
    }
}

// Writes the first five lines of a summary and the start of the last to `s` from `at` on, and answers the place behind them.
fn put_started(s: &mut [u8], at: usize, summary: Summary) -> usize
    requires { at + length (started_text summary) ≤ length s.old }
    ensures value { result ≡ at + length (started_text summary) }
    ensures s_after { s.new ≡ put s.old at (started_text summary) }
{
    let limits = summary.limits;
    let start = put_counts(s, at, summary);
    let lo = put_words(s, start, b"start ");
    put_numeral(s, lo, limits.lo as u64)
}

// Writes the first five lines of a summary to `s` from `at` on, and answers the place behind them.
fn put_counts(s: &mut [u8], at: usize, summary: Summary) -> usize
    requires { at + length (counts_text summary) ≤ length s.old }
    ensures value { result ≡ at + length (counts_text summary) }
    ensures s_after { s.new ≡ put s.old at (counts_text summary) }
{
    let accrued = put_line(s, at, b"events ", summary.events as u64);
    let sent = put_line(s, accrued, b"accrued ", summary.accrued);
    let ceiling = put_line(s, sent, b"sent ", summary.sent);
    let need = put_ceiling(s, ceiling, summary);
    put_line(s, need, b"need ", summary.need)
}

// Writes the line of a summary's ceiling to `s` from `at` on, and answers the place behind it.
fn put_ceiling(s: &mut [u8], at: usize, summary: Summary) -> usize
    requires { at + length (ceiling_line summary) ≤ length s.old }
    ensures value { result ≡ at + length (ceiling_line summary) }
    ensures s_after { s.new ≡ put s.old at (ceiling_line summary) }
{
    let number = put_words(s, at, b"ceiling ");
    let end = put_signed(s, number, summary.ceiling);
    put_words(s, end, b"\n")
}

// Writes words, `n` in decimal and the end of the line to `s` from `at` on, and answers the place behind them.
pub fn put_line(s: &mut [u8], at: usize, words: &[u8], n: u64) -> usize
    requires { at + length (line words.now (numeral n)) ≤ length s.old }
    ensures value { result ≡ at + length (line words.now (numeral n)) }
    ensures s_after { s.new ≡ put s.old at (line words.now (numeral n)) }
{
    let number = put_words(s, at, words);
    let end = put_numeral(s, number, n);
    put_words(s, end, b"\n")
}

// Writes `n`, which may be negative, in decimal to `s` from `at` on, and answers the place behind it.
pub fn put_signed(s: &mut [u8], at: usize, n: i64) -> usize
    requires { at + length (signed_numeral n) ≤ length s.old }
    ensures value { result ≡ at + length (signed_numeral n) }
    ensures s_after { s.new ≡ put s.old at (signed_numeral n) }
{
    let bits = wire::unsigned64(n);
    if bits < 9223372036854775808 {
        return put_numeral(s, at, bits);
    }
    let next = put_words(s, at, b"-");
    put_numeral(s, next, 18446744073709551615 - bits + 1)
}

// Writes `n` in decimal to `s` from `at` on, and answers the place behind it.
pub fn put_numeral(s: &mut [u8], at: usize, n: u64) -> usize
    requires { at + length (numeral n) ≤ length s.old }
    ensures value { result ≡ at + length (numeral n) }
    ensures s_after { s.new ≡ put s.old at (numeral n) }
{
    if n < 10 {
        s[at] = b'0' + n as u8;
        return at + 1;
    }
    let last = put_numeral(s, at, n / 10);
    s[last] = b'0' + (n % 10) as u8;
    last + 1
}

// Writes words to `s` from `at` on, and answers the place behind them.
pub fn put_words(s: &mut [u8], at: usize, words: &[u8]) -> usize
    requires { at + length words.now ≤ length s.old }
    ensures value { result ≡ at + length words.now }
    ensures s_after { s.new ≡ put s.old at words.now }
{
    let end = at + words.len();
    s[at..end].copy_from_slice(words);
    end
}
