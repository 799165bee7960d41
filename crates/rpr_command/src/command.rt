// The commands, and how they are called.
use console::words::{Word, Words};
use std::io;
use std::rt::Env;

#[derive(Clone, Copy, Debug, PartialEq, Eq)]
pub enum Command {
    Summarize,
    Join,
    Compare,
    Roll,
    Unroll,
    Heartbeat,
}

impl Command {
    const ALL: [Command; 6] = [
        Command::Summarize,
        Command::Join,
        Command::Compare,
        Command::Roll,
        Command::Unroll,
        Command::Heartbeat,
    ];

    // The command of this name.
    pub fn named(word: &[u8]) -> Option<Command> {
        match word {
            b"summarize" => Some(Command::Summarize),
            b"join" => Some(Command::Join),
            b"compare" => Some(Command::Compare),
            b"roll" => Some(Command::Roll),
            b"unroll" => Some(Command::Unroll),
            b"heartbeat" => Some(Command::Heartbeat),
            _ => None,
        }
    }

    fn help(self) -> &'static [u8] {
        match self {
            Command::Summarize => SUMMARIZE,
            Command::Join => JOIN,
            Command::Compare => COMPARE,
            Command::Roll => ROLL,
            Command::Unroll => UNROLL,
            Command::Heartbeat => HEARTBEAT,
        }
    }
}

// Whether a word behind the command's name, and before `--`, asks for help.
pub fn asks_help(rt: &impl Env) -> bool {
    Words::new(rt).any(|word| word == Word::Help)
}

const SUMMARIZE: &[u8] =
    b"rpr summarize [--bytes] [--sheet] [FILE]\n    The summary of a shaper record: of hex text, with --bytes of the bytes themselves. It reads FILE, or standard input.\n    --sheet writes the summary as the 48 bytes that join reads. Status: 0 done, 1 refused, 2 trouble.\n";

const JOIN: &[u8] =
    b"rpr join [--sheet] SUMMARY..\n    The summary of a whole record from those of its pieces, files of 48 bytes, in the order given.\n    --sheet writes it as 48 bytes again. Status: 0 done, 1 refused, 2 trouble.\n";

const COMPARE: &[u8] =
    b"rpr compare FIRST SECOND\n    Where two records, files of bytes, part, and the summary of each. Status: 0 the same, 1 different, 2 refused or trouble.\n";

const ROLL: &[u8] =
    b"rpr roll [FILE]\n    A record without runs, as bytes, with its equal ticks in runs, the longest that can be. It reads FILE, or standard input.\n    Status: 0 done, 1 refused, 2 trouble.\n";

const UNROLL: &[u8] =
    b"rpr unroll [FILE]\n    A record, as bytes, with each of its runs as single ticks: what roll wrote comes back. It reads FILE, or standard input.\n    Status: 0 done, 1 refused, 2 trouble.\n";

const HEARTBEAT: &[u8] =
    b"rpr heartbeat PATTERN REPEATS\n    Whether a pattern, a record of at most 256 events as bytes, is permitted throughout from loLimit, so many times over: the\n    summary of the written-out record. Status: 0 permitted, 1 not permitted, 2 refused or trouble.\n";

const END: &[u8] =
    b"rpr --help | rpr --version | rpr COMMAND --help\n    Options may stand anywhere among the words, -- ends them, and - is standard input. See rpr(1).\n";

// Prints how a command is called.
pub fn help_of(rt: &impl Print, command: Command) -> io::Result<()> {
    rt.write_all(command.help())?;
    rt.write_all(END)
}

// Prints how each command is called.
pub fn help_of_all(rt: &impl Print) -> io::Result<()> {
    for command in Command::ALL {
        rt.write_all(command.help())?;
    }
    rt.write_all(END)
}
