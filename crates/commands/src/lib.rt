// The commands of `rpr`: reading, printing, and what is said on standard error. What is printed is what `report`, `sheet`, `apart` and `roll` put into their rooms; what a
// record comes to is what `hex_text`, `feed`, `window` and `heartbeat` say of it. Each command answers its exit status.
#![tactic(auto)]

mod beats;
mod compare;
mod join;
mod listing;
mod movers;
mod named;
mod pairs;
mod summarize;

use console::Host;
use console::status::Status;
use movers::Form;

// `rpr summarize`: 0 where the summary is printed, 1 where the record is refused, 2 where there is trouble.
pub fn rpr_main_summarize(rt: &impl Host) -> Status {
    ended(summarize::run(rt))
}

// `rpr join`: 0 where the joined summary is printed, 1 where a file is refused, 2 where there is trouble.
pub fn rpr_main_join(rt: &impl Host) -> Status {
    ended(join::run(rt))
}

// `rpr compare`: 0 where the records are the same, 1 where they differ, 2 where one is refused or there is trouble.
pub fn rpr_main_compare(rt: &impl Host) -> Status {
    ended(compare::run(rt))
}

// `rpr roll`: 0 where the record is written in runs, 1 where it is refused, 2 where there is trouble. The caller lends at least 6,000,018 bytes to read the record into and
// 6,000,014 for what is written; what they hold does not matter.
pub fn rpr_main_roll(rt: &impl Host, record: &mut [u8], room: &mut [u8]) -> Status {
    ended(movers::run(rt, Form::Rolled, record, room))
}

// `rpr unroll`: the same of a record in either form, which is written without runs.
pub fn rpr_main_unroll(rt: &impl Host, record: &mut [u8], room: &mut [u8]) -> Status {
    ended(movers::run(rt, Form::Unrolled, record, room))
}

// `rpr heartbeat`: 0 where the repeated pattern is permitted throughout from loLimit, 1 where it is not, 2 where it is refused or there is trouble.
pub fn rpr_main_heartbeat(rt: &impl Host) -> Status {
    ended(beats::run(rt))
}

// The status of a run that went to its end, or ended early.
fn ended<E: Into<Status>>(run: Result<Status, E>) -> Status {
    run.unwrap_or_else(E::into)
}
