// Numbers: in decimal, or in hex behind 0x, of 64 bits at most.
ghost use Rattle.std.specs.Prelude.{◌≡◌, ◌≤◌, eqb, take, true, false, IfOk, IsOk, IsErr};

use crate::{Fault, Words};
use std::str;

/// The numbers of a text: their values, how many there are (ROOM where there are more), the largest, and whether a word among them was none.
#[derive(Clone, Copy, Debug, PartialEq, Eq)]
pub struct Row {
    pub values: [u64; Row::ROOM],
    pub count: usize,
    pub largest: u64,
    pub wrong: bool,
}

impl Row {
    /// How many numbers of a text are kept.
    pub const ROOM: usize = 40;

    /// Whether they are so many, and each is one.
    pub fn are(self, count: usize) -> bool
        ensures right { self.wrong ≡ false → result ≡ eqb self.count count }
        ensures wrong { self.wrong ≡ true → result ≡ false }
    {
        !self.wrong && self.count == count
    }

    /// The only number, or this one where there is none.
    pub fn only_or(self, usual: u64) -> Result<u64, Fault>
        ensures none { self.wrong ≡ false → self.count ≡ 0 → result ≡ Ok usual }
        ensures one { self.wrong ≡ false → self.count ≡ 1 → IsOk result }
        ensures wrong { self.wrong ≡ true → IsErr result }
    {
        match self.all()? {
            [] => Ok(usual),
            [only] => Ok(*only),
            _ => Err(Fault::NoNumber),
        }
    }

    /// All of them, where each is one.
    pub fn all(&self) -> Result<&[u64], Fault>
        ensures kept { IfOk result (λ numbers. numbers.now ≡ take self.now.count self.now.values) }
        ensures right { self.now.wrong ≡ false → self.now.count ≤ 40 → IsOk result }
        ensures wrong { self.now.wrong ≡ true → IsErr result }
    {
        match self.values.get(..self.count) {
            Some(numbers) if !self.wrong => Ok(numbers),
            _ => Err(Fault::NoNumber),
        }
    }

    // Takes one number more, as long as there is room.
    fn push(&mut self, n: u64) {
        if let Some(place) = self.values.get_mut(self.count) {
            *place = n;
            self.count += 1;
            self.largest = decide::larger(self.largest, n);
        }
    }
}

/// The numbers that words are. Each word is looked at, also behind those that are kept.
pub fn numbers(words: Words<'_>) -> Row {
    let mut row = Row {
        values: [0; Row::ROOM],
        count: 0,
        largest: 0,
        wrong: false,
    };
    for word in words {
        match number(word) {
            Ok(n) => row.push(n),
            Err(_) => row.wrong = true,
        }
    }
    row
}

/// What a word is as a number. A sign is none of its digits.
pub fn number(word: &[u8]) -> Result<u64, Fault> {
    let (digits, radix) = match word.strip_prefix(b"0x") {
        Some(digits) => (digits, 16),
        None => (word, 10),
    };
    if digits.starts_with(b"+") {
        return Err(Fault::NoNumber);
    }
    let Ok(text) = str::from_utf8(digits) else {
        return Err(Fault::NoNumber);
    };
    u64::from_str_radix(text, radix).map_err(|_| Fault::NoNumber)
}
