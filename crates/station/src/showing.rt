// A reading of the station, for whoever watches it.
ghost use Rattle.std.specs.Prelude.{◌≡◌};
ghost use Rattle.decide.specs.Test.{test};
ghost use Rattle.station.specs.Range.{station_ok, StationOk};
ghost use Rattle.station.specs.Show.{held_in, held_on, reading_of, show_of};

use crate::{Held, Reading, Station};
use decide::Refusal;
use queue::{Frame, Queue};
use shaper::Refused;

impl Station {
    // The reading of the station, which stays as it is.
    pub fn show(self) -> Result<Reading, Refused>
        ensures { result ≡ show_of self }
    {
        self.show_known(self.in_range())
    }

    // The reading of the station, where it is known whether it is in range.
    pub fn show_known(self, good: bool) -> Result<Reading, Refused>
        requires { good ≡ test (station_ok self) }
        ensures { result ≡ show_of self }
    {
        if !good {
            return Err(Refusal::Setting.into());
        }
        Ok(self.reading())
    }

    // What a reading of the station says. It must be in range.
    fn reading(self) -> Reading
        requires { StationOk self }
        ensures { result ≡ reading_of self }
    {
        let flow = self.flow;
        let credits = flow.credits;
        let fair = self.fair;
        let counters = fair.counters;
        let settings = self.settings;
        let smoothed = fair.smoothed.shown(settings.fairness.lp);
        let decided = fair.decided;
        let received = fair.received;
        Reading {
            credits,
            control: Held::in_queue(flow.control),
            primary: Held::in_queue(flow.primary),
            secondary: Held::in_queue(flow.secondary),
            stage: Held::on_stage(flow.stage),
            counters,
            smoothed,
            decided,
            received,
        }
    }
}

impl Held {
    // What a queue holds.
    fn in_queue(queue: Queue) -> Held
        ensures { result ≡ held_in queue }
    {
        Held {
            frames: queue.count as u32,
            bytes: queue.held,
        }
    }

    // What a stage with this word holds.
    fn on_stage(word: u32) -> Held
        ensures { result ≡ held_on word }
    {
        if word == queue::EMPTY {
            return Held {
                frames: 0,
                bytes: 0,
            };
        }
        let frame = Frame::of(word);
        Held {
            frames: 1,
            bytes: frame.size,
        }
    }
}

impl Reading {
    // How many words a reading has.
    pub const WORDS: usize = 31;
}
