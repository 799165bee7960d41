// Standard input, line by line.
ghost use Rattle.std.specs.Prelude.{◌≡◌, ◌+◌, ◌≤◌, length, max};

use crate::{Fault, print};
use std::io;
use std::io::Read;

/// How far an input was taken. Characters that were read and not taken yet stand in the reader's buffer, from one place to another.
#[derive(Clone, Copy, Debug, PartialEq, Eq)]
pub struct Input {
    from: usize,
    end: usize,
}

/// A line that was taken: how many characters it has, or none where its room does not hold it; whether it is the input's last; and the input behind it.
#[derive(Clone, Copy, Debug, PartialEq, Eq)]
pub struct Got {
    pub length: Option<usize>,
    pub last: bool,
    pub input: Input,
}

impl Input {
    /// An input of which nothing was taken.
    pub fn whole() -> Input {
        Input { from: 0, end: 0 }
    }
}

/// Runs each line of the input, without its end, as `each_line_in` does, in a room of 4,096 characters.
pub fn each_line<R: io::Input + Print, F: FnMut(&[u8]) -> io::Result<()>>(
    rt: &R,
    run: F,
) -> io::Result<()>
    requires { F.IsAlwaysCallable run }
    ensures { result ≡ Ok tt }
{
    each_line_in(rt, &mut [0u8; 4096], run)
}

/// Runs each line of the input, without its end. A line that the room does not hold is said to be too long and not run. What a run cannot print is lost, and
/// the next line is run all the same: this never fails. A proved loop has to end, and nothing says that an input does: no run uses up so many turns.
pub fn each_line_in<R: io::Input + Print, F: FnMut(&[u8]) -> io::Result<()>>(
    rt: &R,
    room: &mut [u8],
    mut run: F,
) -> io::Result<()>
    requires { F.IsAlwaysCallable run }
    ensures { result ≡ Ok tt }
{
    let mut reader = rt.reader();
    let mut buffer = [0u8; 4096];
    let mut input = Input::whole();
    for _ in 0..u64::MAX {
        let got = taken(&mut reader, input, &mut buffer, room);
        let _ = match got.length.and_then(|length| room.get(..length)) {
            Some(line) => run(line),
            None => print::wrong_by(rt, b"line", Fault::TooLong),
        };
        if got.last {
            break;
        }
        input = got.input;
    }
    Ok(())
}

/// Takes the next line, without its end, into `room`. The input's end, or a read that fails, ends the last line.
pub fn line(rt: &impl io::Input, input: Input, buffer: &mut [u8], room: &mut [u8]) -> Got {
    taken(&mut rt.reader(), input, buffer, room)
}

// The next line of what a reader still brings.
fn taken(reader: &mut impl Read, input: Input, buffer: &mut [u8], room: &mut [u8]) -> Got {
    let mut input = input;
    let mut length = Some(0);
    for _ in 0..u64::MAX {
        if input.end <= input.from {
            input = Input {
                from: 0,
                end: reader.read(buffer).unwrap_or(0),
            };
        }
        let ready = ready(input, buffer);
        if ready.is_empty() {
            break;
        }
        let end = ready.iter().position(|c| *c == b'\n');
        let part = &ready[..end.unwrap_or(ready.len())];
        length = length.and_then(|length| put(room, length, part));
        input.from += part.len();
        if end.is_some() {
            input.from += 1;
            return Got {
                length,
                last: false,
                input,
            };
        }
    }
    Got {
        length,
        last: true,
        input,
    }
}

// The characters that were read and not taken yet, of those that the buffer has.
fn ready(input: Input, buffer: &[u8]) -> &[u8]
    ensures { input.from + length result.now ≤ max input.from input.end }
{
    let end = input.end.min(buffer.len());
    buffer.get(input.from..end).unwrap_or(b"")
}

// Puts a part of a line behind the characters before it, and answers how many there are then; or none where the room does not hold it.
fn put(room: &mut [u8], length: usize, part: &[u8]) -> Option<usize> {
    let end = length.checked_add(part.len())?;
    room.get_mut(length..end)?.copy_from_slice(part);
    Some(end)
}
