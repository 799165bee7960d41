// `rpr compare FIRST SECOND`: where two records part, two record files as bytes, in either form. Both are read twice, window by window: first to test them, then to list.
// What is printed is what `apart` puts into its room; what a file comes to is what `feed` says of its bytes.
use crate::listing::{Sums, list};
use crate::named::{NAME, name};
use crate::pairs::{Both, Lost, Reading, WINDOW};
use console::status::Status;
use console::tell::Said;
use console::words::{Asked, Files};
use console::{Host, files, tell, words};
use feed::Feed;
use std::io;
use std::io::{Read, Seek};
use summary::Summary;

// The most windows of a record: 200 that are full, and a last one that is not.
const WINDOWS: u32 = 201;

pub fn run(rt: &impl Host) -> Result<Status, Said> {
    let Asked {
        bytes: false,
        sheet: false,
        unknown: false,
        files: Files::Two(first, second),
    } = words::all(rt)
    else {
        return Err(tell::usage(rt, b"compare FIRST SECOND"));
    };
    let mut one = [0u8; NAME];
    let mut two = [0u8; NAME];
    let first = name(rt, first, &mut one)?;
    let second = name(rt, second, &mut two)?;
    compare(rt, first, second)
}

// Opens both files, tests them, and lists where they part. Standard input has one place to read from, and so is one file. The rooms of a listing are large: the other
// commands, which run from the same place, do without them.
#[inline(never)]
fn compare<R: Host>(rt: &R, first: &[u8], second: &[u8]) -> Result<Status, Said> {
    if tell::is_input(first) && tell::is_input(second) {
        return Err(tell::say(rt, first, b"cannot be two files"));
    }
    let a = Reading::new(first, opened(rt, first)?);
    let b = Reading::new(second, opened(rt, second)?);
    let mut both = Both::new(a, b);
    let tested = test(&mut both);
    let sums = sums(rt, &both, tested)?;
    list(rt, &mut both, sums)
}

// Opens a file for two readings; or says why that cannot be.
fn opened<R: Host>(rt: &R, name: &[u8]) -> Result<R::File, Said> {
    let file = if tell::is_input(name) {
        rt.input_again()
    } else {
        Ok(files::opened(rt, name)?)
    };
    match placed(file) {
        Ok((file, 0)) => Ok(file),
        Ok(_) => Err(tell::say(
            rt,
            name,
            b"does not stand at its beginning, and is read twice",
        )),
        Err(_) => Err(tell::say(
            rt,
            name,
            b"cannot be read twice, as a pipe's bytes are gone once read",
        )),
    }
}

// A file, and the place at which it stands.
fn placed<F: Seek + Drop>(file: io::Result<F>) -> io::Result<(F, u64)> {
    let mut file = file?;
    let at = file.stream_position()?;
    Ok((file, at))
}

// The first reading: both files, to their ends or to the first fault that counts. No more of the first file is read behind its end or a fault, and of the second nor behind a fault of
// the first; none of its bytes is kept.
fn test<F: Read + Seek>(both: &mut Both<'_, F>) -> Result<(), Lost> {
    for _ in 0..WINDOWS {
        let faulty = both.fed.first.ends();
        let first = !both.first.has_ended() && !faulty;
        let second = !both.second.has_ended() && !faulty && !both.fed.second.ends();
        if !first && !second {
            break;
        }
        both.further(first.then_some(WINDOW), second.then_some(WINDOW))?;
    }
    Ok(())
}

// What both files come to; or says what is wrong with one of them: with the first before the second, as far as it was read.
fn sums<F: Read + Seek>(
    rt: &impl Host,
    both: &Both<'_, F>,
    tested: Result<(), Lost>,
) -> Result<Sums, Said> {
    let one = both.fed.first;
    if let Err(lost) = tested {
        // Where the second cannot be read the first is read no further.
        if matches!(lost, Lost::Second(_)) && (both.first.has_ended() || one.ends()) {
            sum(rt, one, both.first.name)?;
        }
        return Err(both.say(rt, lost));
    }
    Ok(Sums {
        first: sum(rt, one, both.first.name)?,
        second: sum(rt, both.fed.second, both.second.name)?,
    })
}

// What a file comes to; or prints the number by which it is refused, and says which it is.
fn sum(rt: &impl Host, fed: Feed, name: &[u8]) -> Result<Summary, Said> {
    fed.finish().map_err(|refusal| match report::print(rt, Err(refusal)) {
        Ok(()) => tell::refused_record(rt, name, refusal),
        Err(why) => tell::unwritten(rt, why),
    })
}
