// A standard stream that the caller closed stays such that it cannot be read or written: no file that is opened later gets its number.
use std::fs::File;
use std::os::fd::{AsFd, BorrowedFd, IntoRawFd};
use std::{fs, io};

// What the system says of a number that no file has.
const CLOSED: i32 = 9;

// Keeps each standard stream, or says why one could not be kept.
pub fn keep(rt: &HostRuntime) -> io::Result<()> {
    if is_closed(rt.stdin().as_fd()) {
        taken(File::options().write(true).open(rt, "/dev/null")?, 0)?;
    }
    if is_closed(rt.stdout().as_fd()) {
        taken(fs::open(rt, "/dev/null")?, 1)?;
    }
    if is_closed(rt.stderr().as_fd()) {
        taken(fs::open(rt, "/dev/null")?, 2)?;
    }
    Ok(())
}

fn is_closed(stream: BorrowedFd<'_>) -> bool {
    stream
        .try_clone_to_owned()
        .is_err_and(|why| why.raw_os_error() == Some(CLOSED))
}

// A file that stays open at a stream's number.
fn taken(file: File, number: i32) -> io::Result<()> {
    if file.into_raw_fd() != number {
        return Err(io::Error::from_raw_os_error(CLOSED));
    }
    Ok(())
}
