// What a command reaches: the words that it is called by, which begin with the command's own name, files, standard output and standard error.
use crate::place::place_of;
use std::fs::File;
use std::io::{Read, Seek, SeekFrom};
use std::os::unix::fs::FileTypeExt;
use std::rt::{Env, Stdin};
use std::{fs, io};

pub trait Host: Print + Env {
    type File: Read + Seek + Drop;

    // Opens the file of this name to read.
    fn open(&self, name: &str) -> io::Result<Self::File>;

    // Standard input, which is read from where it stands.
    fn input(&self) -> Self::File;

    // Standard input as a file that is read more than once, from where standard input stands.
    fn input_again(&self) -> io::Result<Self::File>;

    // Writes bytes on standard error.
    fn tell(&self, bytes: &[u8]) -> io::Result<()>;
}

// A file of the system: one that was opened by its name, standard input, or standard input opened once more, so that it can be read twice. What cannot be read as
// standard input cannot be read then either.
#[derive(Drop)]
pub enum Source {
    Named(File),
    Input(Stdin),
    Again(Stdin, File),
}

impl Read for Source {
    fn read(&mut self, buf: &mut [u8]) -> io::Result<usize> {
        match self {
            Source::Named(file) => file.read(buf),
            Source::Input(stdin) => stdin.read(buf),
            Source::Again(stdin, file) => {
                stdin.read(&mut [])?;
                file.read(buf)
            }
        }
    }
}

impl Seek for Source {
    fn seek(&mut self, to: SeekFrom) -> io::Result<u64> {
        match self {
            Source::Named(file) => file.seek(to),
            Source::Input(_) => Err(io::Error::from(io::ErrorKind::NotSeekable)),
            Source::Again(_, file) => file.seek(to),
        }
    }
}

impl Host for HostRuntime {
    type File = Source;

    fn open(&self, name: &str) -> io::Result<Source> {
        Ok(Source::Named(fs::open(self, name)?))
    }

    fn input(&self) -> Source {
        Source::Input(self.stdin())
    }

    fn input_again(&self) -> io::Result<Source> {
        // A pipe is not opened again: where nobody writes to it any more, that would wait for ever.
        let about = fs::metadata(self, "/dev/stdin")?;
        if about.file_type().is_fifo() {
            return Err(io::Error::from(io::ErrorKind::NotSeekable));
        }
        let mut file = fs::open(self, "/dev/stdin")?;
        let mut told = fs::open(self, "/proc/self/fdinfo/0")?;
        let mut text = [0u8; 64];
        let n = told.read(&mut text)?;
        let place = place_of(&text[..n]);
        file.seek(SeekFrom::Start(place))?;
        Ok(Source::Again(self.stdin(), file))
    }

    fn tell(&self, bytes: &[u8]) -> io::Result<()> {
        self.stderr().write_all(bytes)
    }
}
