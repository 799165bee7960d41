// What programs share that run a script: its lines and their words, the numbers and the bytes that words spell, and how an answer is printed. A line asks for
// something by its first word; one that is empty or begins with # asks for nothing. Any text may be given; what is no number and no byte is said to be wrong.
#![tactic(auto)]

mod fault;
mod input;
mod numerals;
mod pairs;
pub mod print;
#[cfg(test)]
mod tests;
mod words;

pub use fault::Fault;
pub use input::{Got, Input, each_line, each_line_in, line};
pub use numerals::{Row, number, numbers};
pub use pairs::{Bytes, bytes_into, bytes_of};
pub use words::{Times, Words, times_of, words_of};
