// The words of a line, and how often one of them asks for something.
ghost use Rattle.std.specs.Prelude.{◌≡◌, ◌≢◌, ◌+◌, ◌-◌, ◌<◌, ◌≤◌, [], ◌++◌, List, ℕ, length, drop, slice_index_or, MatchOption};
ghost use Rattle.std.specs.Iterator.{at_most};

use crate::{Fault, number};

/// The words of a text from here on. Words stand between blanks.
#[derive(Clone, Copy)]
pub struct Words<'a>(pub &'a [u8]);

/// How often a word asks for what: `N*WHAT`, or once, `WHAT`.
#[derive(Clone, Copy)]
pub struct Times<'a> {
    pub number: Result<u64, Fault>,
    pub what: &'a [u8],
}

impl<'a> Iterator for Words<'a> {
    type Item = &'a [u8];

    // A word is not empty, and what is left stands right behind it: the text is what was passed over, the word, and what is left.
    ghost next_gives = { λ s r t. MatchOption r (t.0.now ≡ s.0.now) (λ word. (0 < length word.now) × (length word.now + length t.0.now ≤ length s.0.now) × ((before : List ℕ) × (before ++ word.now ++ t.0.now ≡ s.0.now))) };

    ghost remaining = { λ s. at_most (length s.0.now) };

    fn next(&mut self) -> Option<&'a [u8]> {
        let start = self.0.iter().position(|c| !is_blank(*c))?;
        let text = &self.0[start..];
        let (_, behind) = text.split_first()?;
        let more = behind.iter().position(|c| is_blank(*c));
        let (word, rest) = text.split_at(1 + more.unwrap_or(behind.len()));
        self.0 = rest;
        Some(word)
    }
}

/// The words of a line, the first of which says what it asks for. A line that begins with # has none.
pub fn words_of(line: &[u8]) -> Words<'_>
    ensures comment { slice_index_or line.now 0 0 ≡ 35 → result.0.now ≡ [] }
    ensures other { slice_index_or line.now 0 0 ≢ 35 → result.0.now ≡ line.now }
{
    match line {
        [b'#', ..] => Words(b""),
        _ => Words(line),
    }
}

/// How often a word asks for what.
pub fn times_of(word: &[u8]) -> Times<'_>
    ensures fits { length result.what.now ≤ length word.now }
    ensures behind { result.what.now ≡ drop (length word.now - length result.what.now) word.now }
{
    match word.iter().position(|c| *c == b'*') {
        Some(star) => Times {
            number: number(&word[..star]).map_err(|_| Fault::NoTimes),
            what: &word[star + 1..],
        },
        None => Times {
            number: Ok(1),
            what: word,
        },
    }
}

// Whether a character is blank: a space, a tab, or what some systems put before a line's end.
fn is_blank(c: u8) -> bool {
    matches!(c, b' ' | b'\t' | b'\r')
}
