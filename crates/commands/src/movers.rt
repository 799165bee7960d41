// `rpr roll [FILE]` and `rpr unroll [FILE]`: a record, given as bytes, written in the other form. It is read whole into memory that the caller lends, and moved within that
// memory. Where it is refused nothing stands on standard output, so that a file which has bytes in it is a record.
ghost use Rattle.std.specs.Prelude.{◌≤◌, length, IfOk};

use crate::named::{NAME, bytes, name};
use console::status::{Status, status_of};
use console::tell::Said;
use console::words::{Asked, Files};
use console::{Host, tell, words};
use decide::Refusal;

// The bytes to read a file into. A record without a fault has at most 6,000,014, as an event takes at most 6. Behind 999,999 events the next item begins at byte 6,000,008 at
// the latest, and takes at most 10: so the fault of a longer file lies within these.
const RECORD: usize = 6000018;

// The bytes for what is written.
const ROOM: usize = 6000014;

// The form in which a record is written.
#[derive(Clone, Copy)]
pub enum Form {
    Rolled,
    Unrolled,
}

impl Form {
    // How the command is called.
    fn usage(self) -> &'static [u8] {
        match self {
            Form::Rolled => b"roll [FILE]",
            Form::Unrolled => b"unroll [FILE]",
        }
    }

    // Leaves the record in the room, in this form.
    fn moved(self, record: &[u8], room: &mut [u8]) -> Result<u64, Refusal>
        ensures { IfOk result (λ n. n ≤ length room.new) }
    {
        match self {
            Form::Rolled => roll::roll(record, room),
            Form::Unrolled => roll::unroll(record, room),
        }
    }

    // Says which file is refused and why, by the refusal's number.
    fn refuse(self, rt: &impl Host, name: &[u8], refusal: Refusal) -> Said {
        match (self, refusal.number()) {
            (Form::Rolled, 2) => tell::refused(
                rt,
                name,
                refusal,
                b"the bytes are not a whole record without runs",
            ),
            _ => tell::refused_record(rt, name, refusal),
        }
    }
}

// Reads the file that the words name, and writes its record in this form.
pub fn run(rt: &impl Host, form: Form, record: &mut [u8], room: &mut [u8]) -> Result<Status, Said> {
    let mut named = [0u8; NAME];
    match words::all(rt) {
        Asked {
            bytes: false,
            sheet: false,
            unknown: false,
            files: Files::None,
        } => of_file(rt, b"-", form, record, room),
        Asked {
            bytes: false,
            sheet: false,
            unknown: false,
            files: Files::One(at),
        } => of_file(rt, name(rt, at, &mut named)?, form, record, room),
        _ => Err(tell::usage(rt, form.usage())),
    }
}

// Reads a file to its end, or to where the rest can change nothing, moves its record, and writes what it is moved to, or says why it is refused.
fn of_file(
    rt: &impl Host,
    name: &[u8],
    form: Form,
    record: &mut [u8],
    room: &mut [u8],
) -> Result<Status, Said> {
    if record.len() < RECORD || room.len() < ROOM {
        return Err(tell::say(rt, name, b"cannot be moved, as too little memory is lent"));
    }
    match form.moved(bytes(rt, name, record)?, room) {
        Ok(n) => {
            rt.write_all(&room[..n as usize])
                .map_err(|why| tell::unwritten(rt, why))?;
            Ok(Status::Yes)
        }
        Err(refusal) => {
            form.refuse(rt, name, refusal);
            Ok(status_of(true, Err(refusal)))
        }
    }
}
