// What can be wrong with a line of a script.
use std::error::Error;
use std::fmt;

/// Why a line or a word of it is turned down.
#[derive(Clone, Copy, Debug, PartialEq, Eq)]
pub enum Fault {
    /// A line is longer than the room for one.
    TooLong,
    /// A word is no number of 64 bits.
    NoNumber,
    /// What stands before a word's star is no number of 64 bits.
    NoTimes,
    /// A text is not one word of hex.
    NoHex,
}

impl fmt::Display for Fault {
    fn fmt<W: fmt::Write>(&self, f: &mut fmt::Formatter<W>) -> fmt::Result {
        f.write_str(match self {
            Fault::TooLong => "it is too long",
            Fault::NoNumber => "a number is wanted",
            Fault::NoTimes => "a number is wanted before the star",
            Fault::NoHex => "hex is wanted",
        })
    }
}

impl Error for Fault {}
