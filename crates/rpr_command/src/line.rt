// What is said on standard error where no command runs. Each line is written at once.
use console::tell::{Said, line, trouble_of};
use console::{Host, words};
use std::io;

// There is no word.
pub fn usage(rt: &impl Host) -> Said {
    line(
        rt,
        &mut [0u8; 128],
        &[
            b"usage: rpr summarize | join | compare | roll | unroll | heartbeat ..; rpr --help tells more",
        ],
    )
}

// The first word is no command's. A word of the system's has at most 131,071 bytes.
#[inline(never)]
pub fn unknown(rt: &impl Host) -> Said {
    let mut word = [0u8; 131072];
    let n = words::word_into(rt, 1, &mut word).unwrap_or(0);
    line(
        rt,
        &mut [0u8; 131328],
        &[
            b"rpr: there is no command ",
            &word[..n],
            b"; there are summarize, join, compare, roll, unroll and heartbeat; rpr --help tells more",
        ],
    )
}

// A standard stream is closed, and could not be kept so.
pub fn no_null(rt: &impl Host, why: io::Error) -> Said {
    trouble_of(rt, b"rpr: /dev/null", why)
}

// There is no memory to move a record in.
pub fn no_memory(rt: &impl Host) -> Said {
    line(rt, &mut [0u8; 32], &[b"rpr: out of memory"])
}
