// A station on one ringlet: settings, frames and credits, and the fairness state together. Every call takes any station and any numbers, refuses by
// document 01's number, first fault first, and else answers the station afterwards: a refusal leaves it as it was. A call whose name ends in `known` is told whether the station is in
// range, by a caller that has tested it already.
#![tactic(auto)]

ghost use Rattle.std.specs.Prelude.{◌≡◌};
ghost use Rattle.decide.specs.Test.{test};
ghost use Rattle.station.specs.Range.{station_ok, StationOk};
ghost use Rattle.station.specs.Answers.{chosen_of};
ghost use Rattle.station.specs.Calls.{flags_ok, fresh_of, start_of, ticked_of, tick_of, select_of, aged_of, age_of};
ghost use Rattle.station.specs.Pick.{seen_as_of, pick_of};

mod entering;
mod hearing;
mod showing;

use credits::Credits;
use decide::Refusal;
use fair::{Decided, Fair, Four};
use flow::Flow;
use heard::Received;
use queue::Frame;
use selection::Sight;
use settings::Settings;
use shaper::Refused;

// A station: what it was set to, its credits, queues and stage, and what it knows of rates and congestion.
#[derive(Clone, Copy)]
pub struct Station {
    pub settings: Settings,
    pub flow: Flow,
    pub fair: Fair,
}

// A client's frame that was taken: the mark that it was given, and the station afterwards.
#[derive(Clone, Copy)]
pub struct Client {
    pub mark: u32,
    pub station: Station,
}

// What goes next: where it comes from (0 nothing, 1 control, 2 primary, 3 secondary, 4 stage), the frame, and what that changes of the station: its credits,
// its stage's word and its fairness state. Of its queues only the one that is named changes: its first frame leaves.
#[derive(Clone, Copy)]
pub struct Pick {
    pub origin: u32,
    pub frame: Frame,
    pub credits: Credits,
    pub stage: u32,
    pub fair: Fair,
}

// What goes next: where it comes from, the frame, and the whole station afterwards.
#[derive(Clone, Copy)]
pub struct Selected {
    pub origin: u32,
    pub frame: Frame,
    pub station: Station,
}

// How many frames a queue or the stage holds, and their bytes.
#[derive(Clone, Copy)]
pub struct Held {
    pub frames: u32,
    pub bytes: u32,
}

// A reading of a station: its 31 words are these numbers in this order, 5 credits, 8 of what is held, 8 of the counters and the smoothed rates as they are
// shown, and 5 each of what intervals decide and of what was received.
#[derive(Clone, Copy)]
pub struct Reading {
    pub credits: Credits,
    pub control: Held,
    pub primary: Held,
    pub secondary: Held,
    pub stage: Held,
    pub counters: Four,
    pub smoothed: Four,
    pub decided: Decided,
    pub received: Received,
}

impl Station {
    // A station that has just started under these settings.
    pub fn fresh(settings: Settings) -> Station
        ensures { result ≡ fresh_of settings }
    {
        let flow = Flow::start(settings);
        let fair = Fair::start(settings);
        Station {
            settings,
            flow,
            fair,
        }
    }

    // Whether settings, flow and fairness state are each in range.
    pub fn in_range(self) -> bool
        ensures { result ≡ test (station_ok self) }
    {
        let settings = self.settings;
        let flow = self.flow;
        let fair = self.fair;
        settings.in_range() & flow.in_range(settings) & fair.in_range(settings)
    }

    // Starts the station anew, whatever it was.
    pub fn start(self, settings: Settings) -> Result<Station, Refused>
        ensures { result ≡ start_of self settings }
    {
        if !settings.in_range() {
            return Err(Refusal::Setting.into());
        }
        Ok(Station::fresh(settings))
    }

    // A tick. The host says whether A, B and C traffic waits: 1 for yes, 0 for no.
    pub fn tick(self, a: u64, b: u64, c: u64) -> Result<Station, Refused>
        ensures { result ≡ tick_of self a b c }
    {
        self.tick_known(self.in_range(), a, b, c)
    }

    // A tick, where it is known whether the station is in range.
    pub fn tick_known(self, good: bool, a: u64, b: u64, c: u64) -> Result<Station, Refused>
        requires { good ≡ test (station_ok self) }
        ensures { result ≡ tick_of self a b c }
    {
        if !good {
            return Err(Refusal::Setting.into());
        }
        if !flags_ok(a, b, c) {
            return Err(Refusal::OutOfRange.into());
        }
        Ok(self.ticked(a == 1, b == 1, c == 1))
    }

    // What goes next, by table 6.4. The frame leaves its queue, and is counted where it is eligible.
    pub fn select(self) -> Result<Selected, Refused>
        ensures { result ≡ select_of self }
    {
        if !self.in_range() {
            return Err(Refusal::Setting.into());
        }
        Ok(self.chosen())
    }

    // The end of an aging interval.
    pub fn age(self) -> Result<Station, Refused>
        ensures { result ≡ age_of self }
    {
        self.age_known(self.in_range())
    }

    // The end of an aging interval, where it is known whether the station is in range.
    pub fn age_known(self, good: bool) -> Result<Station, Refused>
        requires { good ≡ test (station_ok self) }
        ensures { result ≡ age_of self }
    {
        if !good {
            return Err(Refusal::Setting.into());
        }
        Ok(self.aged())
    }

    // The station after a tick.
    fn ticked(self, a: bool, b: bool, c: bool) -> Station
        ensures { result ≡ ticked_of self a b c }
    {
        let settings = self.settings;
        let fair = self.fair;
        let flow = self.flow;
        let share = fair.share(settings);
        let ticked = flow.tick(settings, share, a, b, c);
        Station {
            settings,
            flow: ticked,
            fair,
        }
    }

    // The frame that goes next, and the station in which it left and was counted.
    fn chosen(self) -> Selected
        ensures { result ≡ chosen_of self }
    {
        let settings = self.settings;
        let flow = self.flow;
        let sight = Sight::of(flow);
        let pick = picked(settings, sight, self.fair);
        let frame = pick.frame;
        let credits = pick.credits;
        let fair = pick.fair;
        let rest = flow.leave(pick.origin, credits, pick.stage);
        let next = Station {
            settings,
            flow: rest,
            fair,
        };
        Selected {
            origin: pick.origin,
            frame,
            station: next,
        }
    }

    // The station after an interval. It must be in range.
    fn aged(self) -> Station
        requires { StationOk self }
        ensures { result ≡ aged_of self }
    {
        let settings = self.settings;
        let fair = self.fair;
        let flow = self.flow;
        let held = flow.secondary.held;
        let aged = fair.age(settings, held);
        Station {
            settings,
            flow,
            fair: aged,
        }
    }
}

// Whether each of three flags is 0 or 1.
fn flags_ok(a: u64, b: u64, c: u64) -> bool
    ensures { result ≡ test (flags_ok a b c) }
{
    (a <= 1) & ((b <= 1) & (c <= 1))
}

// What goes next, by table 6.4, counted where it is eligible: under these settings, by what a selection looks at, and with this fairness state. No queue is built for
// it. It refuses nothing: whoever asks has tested the range.
pub fn picked(settings: Settings, sight: Sight, fair: Fair) -> Pick
    ensures { result ≡ pick_of (seen_as_of settings sight fair) }
{
    let out = sight.pick(settings);
    let chosen = out.frame;
    let credits = out.credits;
    let counted = fair.count(settings, out.origin, chosen.mark, chosen.hops, chosen.size);
    Pick {
        origin: out.origin,
        frame: chosen,
        credits,
        stage: out.stage,
        fair: counted,
    }
}
