// A host whose words are those behind another's first: what a command reaches that is called by the first word of a program.
ghost use Rattle.std.specs.Prelude.{◌≡◌, ◌≤◌, length, IfOk};
ghost use Rattle.std.specs.Io.{WritesAtMost};

use crate::host::Host;
use std::env::FillError;
use std::fmt::Display;
use std::io;
use std::rt::Env;

#[derive(Drop)]
pub struct Behind<'a, R> {
    host: &'a R,
}

impl<'a, R> Behind<'a, R> {
    // The host behind the first word of another.
    pub fn new(host: &'a R) -> Behind<'a, R>
        ensures { result.host.now ≡ host.now }
    {
        Behind { host }
    }
}

impl<R: Host> Host for Behind<'_, R> {
    type File = R::File;

    fn open(&self, name: &str) -> io::Result<R::File> {
        self.host.open(name)
    }

    fn input(&self) -> R::File {
        self.host.input()
    }

    fn input_again(&self) -> io::Result<R::File> {
        self.host.input_again()
    }

    fn tell(&self, bytes: &[u8]) -> io::Result<()> {
        self.host.tell(bytes)
    }
}

impl<R: Print> Print for Behind<'_, R> {
    fn print<D: Display + Drop>(&self, value: D) -> io::Result<()> {
        self.host.print(value)
    }

    fn println<D: Display + Drop>(&self, value: D) -> io::Result<()> {
        self.host.println(value)
    }

    fn write_all(&self, bytes: &[u8]) -> io::Result<()> {
        self.host.write_all(bytes)
    }

    fn write_some(&self, bytes: &[u8]) -> io::Result<usize> {
        self.host.write_some(bytes)
    }
}

impl<R: Env> Env for Behind<'_, R> {
    fn arg(&self, i: usize, buf: &mut [u8]) -> Result<usize, FillError> {
        let behind = i.checked_add(1).ok_or(FillError::NotPresent)?;
        self.host.arg(behind, buf)
    }

    fn var(&self, name: &str, buf: &mut [u8]) -> Result<usize, FillError> {
        self.host.var(name, buf)
    }

    fn var_at(&self, i: usize, buf: &mut [u8]) -> Result<usize, FillError> {
        self.host.var_at(i, buf)
    }
}
