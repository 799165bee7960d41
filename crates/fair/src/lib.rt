// The fairness state of a station: what it counted, its rates, congestion both ways, and what it last received. How a frame is counted, what an
// aging interval does, what is advertised, and what a received frame changes. Settings are lent to each call and never kept here.
#![tactic(auto)]

ghost use Rattle.std.specs.Prelude.{◌≡◌, ◌&&◌};
ghost use Rattle.decide.specs.Test.{test};
ghost use Rattle.rates.specs.Rates.{share_of};
ghost use Rattle.settings.specs.Range.{SettingsOk};
ghost use Rattle.fair.specs.Range.{four_ok, stored_ok, decided_ok, fair_ok, StoredOk, FairOk};
ghost use Rattle.fair.specs.Start.{start_of};
ghost use Rattle.fair.specs.Count.{beyond, over, raised_of, count_of};
ghost use Rattle.fair.specs.Age.{SumsFit, smooth_of, shown_four, lower_of, allowed_of, allowedc_of, new_decided, age_of};

mod adjusting;
mod advertising;

use heard::Received;
use settings::{Fairness, Settings};

// A number of bytes for each of four kinds of eligible frames: those of this station (add), those on transit (fw), and of each the frames which pass
// the congested station downstream (addc and fwc, the Congested twins).
#[derive(Clone, Copy)]
pub struct Four<T = u32> {
    pub add: T,
    pub fw: T,
    pub addc: T,
    pub fwc: T,
}

// For each of the four its smoothed rate, kept times lpCoef, as a stored number. The rate shown is floor(stored number / lpCoef).
pub type Stored = Four<u64>;

// What intervals decide: localFairRate, allowedRate, allowedRateCongested, own rate, and whether the station is locally congested (1, else 0).
#[derive(Clone, Copy)]
pub struct Decided {
    pub local: u32,
    pub allowed: u32,
    pub allowedc: u32,
    pub own: u32,
    pub congested: u32,
}

// What a station knows of the rates and of congestion, its own and that of stations downstream: addRate, fwRate, addRateCongested, fwRateCongested, what is
// stored for the same smoothed (lpAddRate and so on), what the last interval decided, how many intervals have gone by since localFairRate last changed (the conservative
// method counts them while the station counts as locally congested), and what was received.
#[derive(Clone, Copy)]
pub struct Fair {
    pub counters: Four,
    pub smoothed: Stored,
    pub decided: Decided,
    pub since: u32,
    pub received: Received,
}

// What an interval decides first: whether the station is locally congested (1, else 0), localFairRate, and the intervals since its last change.
#[derive(Clone, Copy)]
pub struct Adjusted {
    pub congested: u32,
    pub local: u32,
    pub since: u32,
}

// The origins of a frame that is counted: the secondary queue, and the stage.
pub const SECONDARY: u32 = 3;

pub const STAGE: u32 = 4;

impl<T: Copy> Four<T> {
    // What this function makes of each of the four.
    fn map<U, F: Fn(T) -> U>(self, by: F) -> Four<U>
        requires { F.pre by self.add × F.pre by self.fw × F.pre by self.addc × F.pre by self.fwc }
        ensures { F.post by self.add result.add × F.post by self.fw result.fw × F.post by self.addc result.addc × F.post by self.fwc result.fwc }
    {
        Four {
            add: by(self.add),
            fw: by(self.fw),
            addc: by(self.addc),
            fwc: by(self.fwc),
        }
    }

    // Each of the four beside the other's.
    fn zip<U: Copy>(self, other: Four<U>) -> Four<(T, U)>
        ensures { result ≡ record { add = (self.add, other.add); fw = (self.fw, other.fw); addc = (self.addc, other.addc); fwc = (self.fwc, other.fwc) } }
    {
        Four {
            add: (self.add, other.add),
            fw: (self.fw, other.fw),
            addc: (self.addc, other.addc),
            fwc: (self.fwc, other.fwc),
        }
    }
}

impl Four<bool> {
    // Whether all four are true.
    fn all(self) -> bool
        ensures { result ≡ (self.add && (self.fw && (self.addc && self.fwc))) }
    {
        self.add & self.fw & self.addc & self.fwc
    }
}

impl Four {
    // The largest counter, and the largest rate that is neither own nor received.
    pub const MAX: u32 = 2147483647;

    // Whether each of the four is in its range.
    pub fn in_range(self) -> bool
        ensures { result ≡ test (four_ok self) }
    {
        self.map(|counter| counter <= Four::MAX).all()
    }

    // The four counters after an interval.
    fn lower(self, coef: u32) -> Four
        ensures { result ≡ lower_of self coef }
    {
        self.map(|counter| rates::aged(counter, coef))
    }
}

impl Stored {
    // Whether each of the four rates shown is in its range, by this lpCoef.
    fn in_range(self, coef: u32) -> bool
        ensures { result ≡ test (stored_ok coef self) }
    {
        self.map(|stored| rates::shown_ok(coef, stored)).all()
    }

    // The four stored numbers after an interval in which the counters came to these. The sums must fit.
    fn smooth(self, coef: u32, counters: Four) -> Stored
        requires { SumsFit self counters }
        ensures { result ≡ smooth_of self coef counters }
    {
        self.zip(counters)
            .map(|(stored, counter)| rates::smoothed(coef, stored, counter))
    }

    // The four rates shown, where each is in its range.
    pub fn shown(self, coef: u32) -> Four
        requires { StoredOk coef self }
        ensures { result ≡ shown_four coef self }
    {
        self.map(|stored| rates::shown(coef, stored) as u32)
    }
}

impl Decided {
    // The largest own rate.
    pub const MAX_OWN: u32 = 65534;

    // Whether each rate, and the flag, is in its range under these settings.
    fn in_range(self, settings: Settings) -> bool
        ensures { result ≡ test (decided_ok settings self) }
    {
        let unreserved = settings.fairness.unreserved;
        (self.own <= Decided::MAX_OWN)
            & (self.local <= Four::MAX)
            & (self.allowed <= unreserved)
            & (self.allowedc <= unreserved)
            & (self.congested <= 1)
            & (settings.site.is_aggressive() | (self.local <= unreserved))
    }
}

impl Fair {
    // Whether the state is in its range under these settings.
    pub fn in_range(self, settings: Settings) -> bool
        ensures { result ≡ test (fair_ok settings self) }
    {
        self.counters.in_range()
            & self.smoothed.in_range(settings.fairness.lp)
            & self.decided.in_range(settings)
            & (self.since < settings.site.trip)
            & self.received.in_range(settings.site.stations)
    }

    // The state of a station that has just started.
    pub fn start(settings: Settings) -> Fair
        ensures { result ≡ start_of settings }
    {
        let fairness = settings.fairness;
        let unreserved = fairness.unreserved;
        let own = rates::own_rate(unreserved, fairness.weight, fairness.unit);
        let zeros = Four {
            add: 0,
            fw: 0,
            addc: 0,
            fwc: 0,
        };
        let decided = Decided {
            local: unreserved,
            allowed: unreserved,
            allowedc: unreserved,
            own: own as u32,
            congested: 0,
        };
        let nothing = Four {
            add: 0,
            fw: 0,
            addc: 0,
            fwc: 0,
        };
        Fair {
            counters: zeros,
            smoothed: nothing,
            decided,
            since: 0,
            received: Received::none(),
        }
    }

    // Whether a frame with so many hops to go passes the congested station downstream.
    pub fn is_beyond(self, hops: u32) -> bool
        ensures { result ≡ test (beyond self hops) }
    {
        let received = self.received;
        (received.downstream == 1) & (heard::hops_of(received.ttl) < hops)
    }

    // Whether an eligible client frame of this size, with so many hops to go, would pass the congested fair rate: refusal 7. The sum is of 64 bits.
    pub fn is_over(self, size: u32, hops: u32) -> bool
        ensures { result ≡ test (over self size hops) }
    {
        let counters = self.counters;
        let sum = counters.addc as u64 + size as u64;
        self.is_beyond(hops) & ((self.decided.allowedc as u64) < sum)
    }

    // The state after a frame of this origin, mark, hops and size was selected under these settings.
    pub fn count(self, settings: Settings, origin: u32, mark: u32, hops: u32, size: u32) -> Fair
        ensures { result ≡ count_of settings self origin mark hops size }
    {
        // A frame that is not marked counts nowhere.
        if mark != 1 {
            return self;
        }
        let stage = origin == STAGE;
        let secondary = origin == SECONDARY;
        let beyond = self.is_beyond(hops);
        let old = self.counters;
        let counters = Four {
            add: raised(stage, old.add, size),
            fw: raised(secondary, old.fw, size),
            addc: raised(stage & beyond, old.addc, size),
            fwc: raised(secondary & beyond, old.fwc, size),
        };
        Fair { counters, ..self }
    }

    // The state after an aging interval, at the end of which the secondary queue holds so many bytes. Settings and state must be in range, so that the sums fit.
    pub fn age(self, settings: Settings, held: u32) -> Fair
        requires { SettingsOk settings × FairOk settings self }
        ensures { result ≡ age_of self settings held }
    {
        let fairness = settings.fairness;
        let counters = self.counters;
        // Smoothing reads the counters as they are before they age.
        let aged = counters.lower(fairness.age);
        let smoothed = self.smoothed.smooth(fairness.lp, counters);
        let now = Adjusted {
            congested: self.decided.congested,
            local: self.decided.local,
            since: self.since,
        };
        let adjusted = now.adjust(settings, smoothed, held);
        let received = self.received;
        Fair {
            counters: aged,
            smoothed,
            decided: self.new_decided(fairness, adjusted),
            since: adjusted.since,
            received,
        }
    }

    // What an interval decides, from congestion and localFairRate as adjusted.
    fn new_decided(self, fairness: Fairness, adjusted: Adjusted) -> Decided
        ensures { result ≡ new_decided self fairness adjusted }
    {
        let own = rates::own_rate(adjusted.local, fairness.weight, fairness.unit);
        Decided {
            local: adjusted.local,
            allowed: allowed(self.decided.allowed, fairness, adjusted),
            allowedc: self.allowed_congested(fairness),
            own: own as u32,
            congested: adjusted.congested,
        }
    }

    // allowedRateCongested after an interval.
    fn allowed_congested(self, fairness: Fairness) -> u32
        ensures { result ≡ allowedc_of self fairness }
    {
        let most = fairness.unreserved;
        let received = self.received;
        if received.downstream == 1 {
            rates::allowance(received.rate, fairness.weight, fairness.unit, most)
        } else {
            rates::ramped(self.decided.allowedc, most, fairness.ramp)
        }
    }

    // What a tick may give to shaper C of allowedRate.
    pub fn share(self, settings: Settings) -> u32
        ensures { result ≡ share_of self.decided.allowed settings.fairness.age settings.fairness.ticks }
    {
        rates::share(
            self.decided.allowed,
            settings.fairness.age,
            settings.fairness.ticks,
        )
    }
}

// allowedRate after an interval, from what it was.
fn allowed(old: u32, fairness: Fairness, adjusted: Adjusted) -> u32
    ensures { result ≡ allowed_of old fairness adjusted }
{
    let most = fairness.unreserved;
    if adjusted.congested == 1 {
        decide::lesser(adjusted.local as u64, most as u64) as u32
    } else {
        rates::ramped(old, most, fairness.ramp)
    }
}

// A counter after a frame of this size that it counts, or as it was.
fn raised(counts: bool, counter: u32, size: u32) -> u32
    ensures { result ≡ raised_of counts counter size }
{
    if counts {
        rates::counted(counter, size)
    } else {
        counter
    }
}
