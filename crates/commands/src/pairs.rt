// Two files read in step: a window of each, refilled where no whole item of it is left, and both records fed what was read.
ghost use Rattle.std.specs.Prelude.{◌≡◌, ◌≤◌, length};

use console::files::fill;
use console::tell::Said;
use console::{Host, tell};
use std::io;
use std::io::{Read, Seek, SeekFrom};
use window::Pair;

// The bytes of a window.
pub const WINDOW: usize = 30000;

// A file as far as it is read: its name, what its window holds, where those bytes end, and where those begin that were read last; and whether no byte stands behind them.
#[derive(Drop)]
pub struct Reading<'a, F> {
    pub name: &'a [u8],
    file: F,
    window: [u8; WINDOW],
    from: usize,
    end: usize,
    last: bool,
    ghost in_window: { (from ≤ end) × (end ≤ 30000) },
}

impl<'a, F: Read + Seek> Reading<'a, F> {
    // A file of which nothing is read.
    pub fn new(name: &'a [u8], file: F) -> Reading<'a, F> {
        Reading {
            name,
            file,
            window: [0u8; WINDOW],
            from: 0,
            end: 0,
            last: false,
        }
    }

    // The bytes in the window.
    pub fn bytes(&self) -> &[u8] {
        &self.window[..self.end]
    }

    // Whether the file has ended.
    pub fn has_ended(&self) -> bool {
        self.last
    }

    // Those of the window's bytes that were read last.
    fn fresh(&self) -> &[u8] {
        &self.window[self.from..self.end]
    }

    // Takes the file back to its beginning.
    fn rewind(&mut self) {
        let _ = self.file.seek(SeekFrom::Start(0));
        self.from = 0;
        self.end = 0;
        self.last = false;
    }

    // Refills the window behind the bytes from a place on, which move to its front, where more is wanted and the file has not ended.
    fn refill(&mut self, keep: Option<usize>) -> io::Result<()> {
        self.from = self.end;
        match keep {
            Some(at) if !self.last => {
                let at = decide::lesser(at as u64, self.end as u64) as usize;
                self.window.copy_within(at..self.end, 0);
                self.fill(self.end - at)
            }
            _ => Ok(()),
        }
    }

    // Fills the window behind so many bytes.
    fn fill(&mut self, kept: usize) -> io::Result<()>
        requires { kept ≤ 30000 }
    {
        let (end, read) = match fill(&mut self.file, &mut self.window, kept) {
            Ok(end) => (end, Ok(())),
            Err(failed) => (failed.end, Err(failed.why)),
        };
        self.from = kept;
        self.end = end;
        self.last = end < WINDOW;
        read
    }
}

// Which of two files could not be read, and why.
#[derive(Clone, Copy)]
pub enum Lost {
    First(io::Error),
    Second(io::Error),
}

// Both files as far as they are read, and what their bytes come to so far.
#[derive(Drop)]
pub struct Both<'a, F> {
    pub first: Reading<'a, F>,
    pub second: Reading<'a, F>,
    pub fed: Pair,
}

impl<'a, F: Read + Seek> Both<'a, F> {
    // Two files of which nothing is read.
    pub fn new(first: Reading<'a, F>, second: Reading<'a, F>) -> Both<'a, F> {
        Both {
            first,
            second,
            fed: window::both(),
        }
    }

    // Takes both files back to their beginnings.
    pub fn rewind(&mut self) {
        self.first.rewind();
        self.second.rewind();
        self.fed = window::both();
    }

    // Reads on in each file of which more is wanted, and keeps its bytes from a place on. Where the first cannot be read the second is left.
    pub fn further(&mut self, one: Option<usize>, two: Option<usize>) -> Result<(), Lost> {
        self.first.refill(one).map_err(Lost::First)?;
        let second = self.second.refill(two);
        self.fed = window::fed(self.fed, self.first.fresh(), self.second.fresh());
        second.map_err(Lost::Second)
    }

    // Says which of them could not be read, and why.
    pub fn say(&self, rt: &impl Host, lost: Lost) -> Said {
        match lost {
            Lost::First(why) => tell::trouble(rt, self.first.name, why),
            Lost::Second(why) => tell::trouble(rt, self.second.name, why),
        }
    }
}
