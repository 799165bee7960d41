// Runs the script on its input on one station by value, one call on each line, and prints what each answers. `N*CALL` is this call N times. Numbers are
// decimal, or hex behind 0x. An empty line, and one that begins with #, is skipped. Before its first start the station is out of range: its settings are 0.
#![tactic(auto)]

mod calls;
mod print;
mod reading;

use script::print::wrong_by;
use settings::Settings;
use station::Station;
use std::io;

// Does what a line asks for, so often.
fn run(rt: &impl Print, station: &mut Station, line: &[u8]) -> io::Result<()> {
    let mut words = script::words_of(line);
    let Some(word) = words.next() else {
        return Ok(());
    };
    let times = script::times_of(word);
    match times.number {
        Ok(n) => {
            // What a call cannot print is lost, and the next is made all the same.
            for _ in 0..n {
                let _ = calls::call(rt, station, times.what, words);
            }
            Ok(())
        }
        Err(fault) => wrong_by(rt, word, fault),
    }
}

fn main(rt: HostRuntime) -> io::Result<()> {
    let mut station = Station::fresh(calls::settings_of(&[0; Settings::WORDS]));
    script::each_line(&rt, |line| run(&rt, &mut station, line))
}
