// The words behind a command's name: its options, wherever they stand, and the files.
ghost use Rattle.std.specs.Prelude.{◌≡◌, ◌*◌, ◌+◌, ◌-◌, ◌||◌, ◌≤◌, length, IfOk, IfSome, IsTrue, MatchOption, false};
ghost use Rattle.std.specs.Iterator.{at_most};
ghost use Rattle.console.specs.Words.{ends, is_file};
ghost use Rattle.console.specs.declared.words.Word.{Word};

use std::env::FillError;
use std::io;
use std::rt::Env;

// What a word is. A file has its place.
#[derive(Clone, Copy, Debug, PartialEq, Eq)]
pub enum Word {
    Bytes,
    Sheet,
    Help,
    End,
    File(usize),
    Unknown,
}

// The words behind the command's own name, in turn. Behind `--` every word is a file.
#[derive(Drop)]
pub struct Words<'a, R> {
    rt: &'a R,
    at: usize,
    ended: bool,
}

impl<'a, R: Env> Words<'a, R> {
    pub fn new(rt: &'a R) -> Words<'a, R>
        ensures begins { result.at ≡ 1 }
        ensures takes_options { result.ended ≡ false }
    {
        Words {
            rt,
            at: 1,
            ended: false,
        }
    }
}

impl<R: Env> Iterator for Words<'_, R> {
    type Item = Word;

    // The place is the next one. Behind `--` a word is a file, and a file has its place.
    ghost next_gives = { λ s r t. MatchOption r (t ≡ s) (λ word. (t.at ≡ s.at + 1) × (t.ended ≡ (s.ended || ends word)) × (IsTrue s.ended → word ≡ Word.File s.at) × (IsTrue (is_file word) → word ≡ Word.File s.at)) };

    ghost remaining = { λ words. at_most (18446744073709551615 - words.at) };

    fn next(&mut self) -> Option<Word> {
        let at = self.at;
        if at == usize::MAX {
            return None;
        }
        let word = there(self.rt, at, self.ended)?;
        self.at = at + 1;
        self.ended |= ends(word);
        Some(word)
    }
}

// What the word at a place is, where one is there; behind `--` every word is a file, and one that is too long is a file too.
fn there(rt: &impl Env, at: usize, ended: bool) -> Option<Word>
    ensures behind_end { IsTrue ended → IfSome result (λ word. word ≡ Word.File at) }
    ensures its_place { IfSome result (λ word. IsTrue (is_file word) → word ≡ Word.File at) }
{
    let mut text = [0u8; 4096];
    match rt.arg(at, &mut text) {
        Ok(n) if !ended => Some(word_of(&text[..n], at)),
        Ok(_) | Err(FillError::TooLong) => Some(Word::File(at)),
        Err(FillError::NotPresent) => None,
    }
}

// What the word at a place is; behind `--` every word is a file, and so is one that is too long or not there.
pub fn word_at(rt: &impl Env, i: usize, ended: bool) -> Word
    ensures behind_end { IsTrue ended → result ≡ Word.File i }
    ensures its_place { IsTrue (is_file result) → result ≡ Word.File i }
{
    there(rt, i, ended).unwrap_or(Word::File(i))
}

// How many words there are, the command's own name among them: the first place at which none stands.
pub fn count(rt: &impl Env) -> usize {
    (0..usize::MAX)
        .position(|at| matches!(rt.arg(at, &mut [0]), Err(FillError::NotPresent)))
        .unwrap_or(usize::MAX)
}

// Whether the words behind this one are files.
pub fn ends(word: Word) -> bool
    ensures { result ≡ ends word }
{
    matches!(word, Word::End)
}

// Whether a word is a file.
pub fn is_file(word: Word) -> bool
    ensures { result ≡ is_file word }
{
    matches!(word, Word::File(_))
}

// What a word is, by its text. `-` alone is a file: standard input.
fn word_of(text: &[u8], at: usize) -> Word
    ensures { IsTrue (is_file result) → result ≡ Word.File at }
{
    match text {
        b"--" => Word::End,
        b"--bytes" => Word::Bytes,
        b"--sheet" => Word::Sheet,
        b"--help" => Word::Help,
        [b'-', _, ..] => Word::Unknown,
        _ => Word::File(at),
    }
}

// Which files the words name, by their places. The command that takes any number of them reads the words itself.
#[derive(Clone, Copy, Debug, PartialEq, Eq)]
pub enum Files {
    None,
    One(usize),
    Two(usize, usize),
    More,
}

impl Files {
    // The files with one more, at this place.
    fn and(self, at: usize) -> Files {
        match self {
            Files::None => Files::One(at),
            Files::One(first) => Files::Two(first, at),
            Files::Two(_, _) | Files::More => Files::More,
        }
    }
}

// What the words ask for: options, whether one is an option that no command has, and files.
#[derive(Clone, Copy, Debug, PartialEq, Eq)]
pub struct Asked {
    pub bytes: bool,
    pub sheet: bool,
    pub unknown: bool,
    pub files: Files,
}

// What all words of the command ask for.
pub fn all(rt: &impl Env) -> Asked {
    let mut asked = Asked {
        bytes: false,
        sheet: false,
        unknown: false,
        files: Files::None,
    };
    for word in Words::new(rt) {
        match word {
            Word::Bytes => asked.bytes = true,
            Word::Sheet => asked.sheet = true,
            Word::End => {}
            Word::File(at) => asked.files = asked.files.and(at),
            Word::Help | Word::Unknown => asked.unknown = true,
        }
    }
    asked
}

// What the system says of a name that is too long, and of a word that is not there.
const TOO_LONG: i32 = 36;

const NOT_THERE: i32 = 22;

// Puts the word at a place at the front of a room, and answers its length, or why it is not there whole.
pub fn word_into(rt: &impl Env, at: usize, room: &mut [u8]) -> io::Result<usize>
    ensures { IfOk result (λ n. n ≤ length room.new) }
{
    rt.arg(at, room).map_err(|why| {
        io::Error::from_raw_os_error(match why {
            FillError::TooLong => TOO_LONG,
            FillError::NotPresent => NOT_THERE,
        })
    })
}
