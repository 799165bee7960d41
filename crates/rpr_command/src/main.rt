// The command rpr: runs the command that its first word names, and ends with that command's status. What a command reads of its words and files, and what it prints, is the
// crate commands' part; this program chooses the command, and lends roll and unroll their memory.
#![tactic(auto)]

mod command;
mod line;
mod streams;

use command::Command;
use console::status::Status;
use console::tell::Said;
use console::{Behind, Host, tell};
use std::alloc::{AllocError, Global};
use std::env::FillError;
use std::io;
use std::process::ExitCode;
use std::rt::Env;

// The version, RPR_VERSION of host/rpr.h.
const VERSION: &[u8] = b"rpr 4.1\n";

// What roll and unroll are lent: bytes to read a record into, and a room for what they write, as long as the longest record without runs. Behind 999,999 events a run may
// stand, which passes the million: with its bytes too, the fault of any longer file is among the bytes that are read.
const RECORD: usize = 6000018;

const ROOM: usize = 6000014;

fn main(rt: HostRuntime) -> ExitCode {
    ExitCode::from(asked(&rt).unwrap_or(Status::Trouble))
}

// Does what the first word asks for, and answers the status.
fn asked(rt: &HostRuntime) -> Result<Status, Said> {
    let mut room = [0u8; 64];
    match rt.arg(1, &mut room) {
        Ok(n) => called(rt, &room[..n]),
        Err(FillError::TooLong) => Err(line::unknown(rt)),
        Err(FillError::NotPresent) => Err(line::usage(rt)),
    }
}

// Does what this word asks for.
fn called(rt: &HostRuntime, word: &[u8]) -> Result<Status, Said> {
    match word {
        b"--help" => printed(rt, command::help_of_all(rt)),
        b"--version" => printed(rt, rt.write_all(VERSION)),
        _ => match Command::named(word) {
            Some(command) => run(rt, command),
            None => Err(line::unknown(rt)),
        },
    }
}

// Runs a command, or tells how it is called.
fn run(rt: &HostRuntime, command: Command) -> Result<Status, Said> {
    let behind = Behind::new(rt);
    if command::asks_help(&behind) {
        return printed(rt, command::help_of(rt, command));
    }
    streams::keep(rt).map_err(|why| line::no_null(rt, why))?;
    ran(&behind, rt.alloc(), command)
}

// The status of a command. Roll and unroll are lent their memory.
fn ran(rt: &impl Host, alloc: Global, command: Command) -> Result<Status, Said> {
    match command {
        Command::Summarize => Ok(commands::rpr_main_summarize(rt)),
        Command::Join => Ok(commands::rpr_main_join(rt)),
        Command::Compare => Ok(commands::rpr_main_compare(rt)),
        Command::Roll => lent(rt, alloc, |record: &mut [u8], room: &mut [u8]| {
            commands::rpr_main_roll(rt, record, room)
        }),
        Command::Unroll => lent(rt, alloc, |record: &mut [u8], room: &mut [u8]| {
            commands::rpr_main_unroll(rt, record, room)
        }),
        Command::Heartbeat => Ok(commands::rpr_main_heartbeat(rt)),
    }
}

// Lends a command the memory that roll and unroll need, or says that there is none.
fn lent<F: FnOnce(&mut [u8], &mut [u8]) -> Status + Drop>(
    rt: &impl Host,
    alloc: Global,
    command: F,
) -> Result<Status, Said>
    requires { F.IsAlwaysCallable command }
{
    match rooms(alloc) {
        Ok((mut record, mut room)) => Ok(command(&mut record, &mut room)),
        Err(AllocError) => Err(line::no_memory(rt)),
    }
}

// The memory to read a record into, and the room for what is written.
fn rooms(alloc: Global) -> Result<(Vec<u8>, Vec<u8>), AllocError> {
    let record = vec![in alloc; 0u8; RECORD]?;
    let room = vec![in alloc; 0u8; ROOM]?;
    Ok((record, room))
}

// The status once all that was printed is written, or says why it is not.
fn printed(rt: &impl Host, written: io::Result<()>) -> Result<Status, Said> {
    match written {
        Ok(()) => Ok(Status::Yes),
        Err(why) => Err(tell::unwritten(rt, why)),
    }
}
