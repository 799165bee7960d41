// `rpr join [--sheet] SUMMARY..`: summaries, each a file of 48 bytes, joined in the order given.
use crate::named::{NAME, bytes, name};
use console::status::{Status, status_of};
use console::words::{Files, Word, Words};
use console::{Host, files, tell, words};
use decide::Refusal;
use summary::Summary;

// The files so far: their summaries joined, where there was any, and whether standard input was among them.
#[derive(Clone, Copy)]
struct Joined {
    sum: Option<Summary>,
    input: bool,
}

// Reads the files in turn, to the last or to the first that cannot be read or is refused, and prints what they come to.
pub fn run(rt: &impl Host) -> Result<Status, Status> {
    let asked = words::all(rt);
    if asked.unknown || asked.bytes || asked.files == Files::None {
        return Err(tell::usage(rt, b"join [--sheet] SUMMARY..").into());
    }
    all_joined(rt, asked.sheet)
}

fn all_joined(rt: &impl Host, sheet: bool) -> Result<Status, Status> {
    let mut joined = Joined {
        sum: None,
        input: false,
    };
    for word in Words::new(rt) {
        if let Word::File(at) = word {
            joined = joined.and(rt, at, sheet)?;
        }
    }
    let sum = joined.sum.ok_or(Refusal::NotWhole);
    let written = files::print(rt, sum, sheet);
    if let Err(why) = written {
        tell::unwritten(rt, why);
    }
    Ok(status_of(written.is_ok(), sum))
}

impl Joined {
    // The files so far and the one that the word at a place names; or the status, where what is wrong with it is said.
    fn and(self, rt: &impl Host, at: usize, sheet: bool) -> Result<Joined, Status> {
        let mut room = [0u8; NAME];
        let name = name(rt, at, &mut room)?;
        let input = tell::is_input(name);
        if self.input && input {
            return Err(tell::say(rt, name, b"cannot be two files").into());
        }
        let mut room = [0u8; 49];
        let sum = self.with(bytes(rt, name, &mut room)?);
        match sum {
            Ok(sum) => Ok(Joined {
                sum: Some(sum),
                input: self.input || input,
            }),
            Err(refusal) => Err(refuse(rt, name, refusal, sheet)),
        }
    }

    // The summaries so far and the one that a file's bytes hold.
    fn with(self, bytes: &[u8]) -> Result<Summary, Refusal> {
        match self.sum {
            Some(sum) => sheet::joined(Ok(sum), bytes),
            None => sheet::opened(bytes),
        }
    }
}

// Prints the refusal of a file, and says which it is and why.
fn refuse(rt: &impl Host, name: &[u8], refusal: Refusal, sheet: bool) -> Status {
    let sum = Err(refusal);
    let written = files::print(rt, sum, sheet);
    match written {
        Ok(()) => tell::refused_summary(rt, name, refusal),
        Err(why) => tell::unwritten(rt, why),
    };
    status_of(written.is_ok(), sum)
}
