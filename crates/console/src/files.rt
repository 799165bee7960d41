// Files: opened by name, and read into a room. And the two ways in which a summary is printed.
ghost use Rattle.std.specs.Prelude.{◌≤◌, length, IfOk, IfErr};

use crate::host::Host;
use crate::tell::Said;
use decide::Refusal;
use std::io;
use std::io::Read;
use summary::Summary;

// A read that failed: where what was read before it ends, and why.
#[derive(Clone, Copy)]
pub struct Failed {
    pub end: usize,
    pub why: io::Error,
}

// Opens a file to read, `-` being standard input; or says why that cannot be.
pub fn opened<R: Host>(rt: &R, name: &[u8]) -> Result<R::File, Said> {
    if crate::tell::is_input(name) {
        return Ok(rt.input());
    }
    named(rt, name).map_err(|why| crate::tell::trouble(rt, name, why))
}

// What the system says of a name that is no text: `Invalid or incomplete multibyte or wide character`.
const NO_TEXT: i32 = 84;

// Opens the file of this name. The library opens files by names in UTF-8 alone.
pub fn named<R: Host>(rt: &R, name: &[u8]) -> io::Result<R::File> {
    let text = std::str::from_utf8(name).map_err(|_| io::Error::from_raw_os_error(NO_TEXT))?;
    rt.open(text)
}

// Reads into a room behind its first bytes until it is full, the file ends or a read fails; answers where what was read ends.
pub fn fill<F: Read>(file: &mut F, room: &mut [u8], from: usize) -> Result<usize, Failed>
    requires { from ≤ length room.old }
    ensures read { IfOk result (λ end. (from ≤ end) × (end ≤ length room.new)) }
    ensures failed { IfErr result (λ failed. (from ≤ failed.end) × (failed.end ≤ length room.new)) }
{
    let mut end = from;
    while end < room.len() {
        match file.read(&mut room[end..]) {
            Ok(0) => break,
            Ok(n) => end += n,
            Err(why) => return Err(Failed { end, why }),
        }
    }
    Ok(end)
}

// Closes a file that was opened; standard input stays.
pub fn close<F: Drop>(file: F) {
    drop(file);
}

// Prints an answer as lines, or a summary as its 48 bytes and a refusal not at all; answers whether all of it was written, or why not.
pub fn print(rt: &impl Print, answer: Result<Summary, Refusal>, bytes: bool) -> io::Result<()> {
    match answer {
        _ if !bytes => report::print(rt, answer),
        Ok(sum) => {
            let mut room = [0u8; sheet::LENGTH];
            sheet::write(sum, &mut room);
            rt.write_all(&room)
        }
        Err(_) => Ok(()),
    }
}
