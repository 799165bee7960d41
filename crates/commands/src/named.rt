// The files that the words name: their names, and what they hold.
use console::tell::Said;
use console::{Host, files, tell, words};

// The longest name that is read.
pub const NAME: usize = 4096;

// The name at a place among the words, in this room; or says that it is not there whole, and what there is of it.
pub fn name<'a>(rt: &impl Host, at: usize, room: &'a mut [u8; NAME]) -> Result<&'a [u8], Said> {
    let end = words::word_into(rt, at, room).map_err(|why| tell::trouble(rt, room, why))?;
    Ok(&room[..end])
}

// The bytes of a file, in this room: to the file's end, or as many as fit; or says why they cannot be read.
pub fn bytes<'a, R: Host>(rt: &R, name: &[u8], room: &'a mut [u8]) -> Result<&'a [u8], Said> {
    let mut file = files::opened(rt, name)?;
    let end = files::fill(&mut file, room, 0).map_err(|read| tell::trouble(rt, name, read.why))?;
    files::close(file);
    Ok(&room[..end])
}
