// The exit statuses.
ghost use Rattle.std.specs.Prelude.{◌≡◌};
ghost use Rattle.std.specs.Process.{exit_status};
ghost use Rattle.console.specs.Status.{number_of, status_of, same_status, heartbeat_status};

use decide::Refusal;
use std::process::ExitCode;
use summary::Summary;

// How a command ends. Yes: all is done, the records are the same, the heartbeat is permitted. No: what was read is refused, the records differ, the heartbeat is not permitted.
// Trouble: wrong words, a file that cannot be read, an output that cannot be written; of two records and of a heartbeat also a refusal.
#[derive(Clone, Copy, Debug, PartialEq, Eq)]
pub enum Status {
    Yes,
    No,
    Trouble,
}

// The status where there is trouble.
pub const TROUBLE: Status = Status::Trouble;

impl Status {
    // The number that the system is told.
    pub fn number(self) -> u8
        ensures { result ≡ number_of self }
    {
        self as u8
    }
}

impl From<Status> for ExitCode {
    ghost from_gives = { λ status code. exit_status code ≡ number_of status };

    fn from(status: Status) -> ExitCode {
        ExitCode::from(status.number())
    }
}

// The status by whether what is printed could be written, and by what the record or the files come to.
pub fn status_of(written: bool, answer: Result<Summary, Refusal>) -> Status
    ensures { number_of result ≡ status_of written answer }
{
    match answer {
        _ if !written => TROUBLE,
        Ok(_) => Status::Yes,
        Err(_) => Status::No,
    }
}

// The status by whether two records are the same.
pub fn same_status(same: bool) -> Status
    ensures { number_of result ≡ same_status same }
{
    if same { Status::Yes } else { Status::No }
}

// The status of a heartbeat, by whether what is printed could be written, and by what the repeats do from loLimit.
pub fn heartbeat_status(written: bool, outcome: Result<Option<u64>, Refusal>) -> Status
    ensures { number_of result ≡ heartbeat_status written outcome }
{
    match outcome {
        _ if !written => TROUBLE,
        Ok(Some(_)) => Status::Yes,
        Ok(None) => Status::No,
        Err(_) => TROUBLE,
    }
}
