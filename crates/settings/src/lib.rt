// The settings of a station: their ranges, their defaults, and their words of 4 bytes. Each is a number, so that settings and words are
// the same thing twice, and whether they are in range is asked of the numbers.
#![tactic(auto)]

ghost use Rattle.std.specs.Prelude.{◌≡◌, ◌+◌, ◌*◌, ◌≤◌, length};
ghost use Rattle.decide.specs.Test.{test};
ghost use Rattle.settings.specs.Range.{limits_of, bucket_ok, shapers_ok, capacity_ok, queues_ok, age_ok, coef_ok, fairness_ok, site_ok, settings_ok};
ghost use Rattle.settings.specs.Range.{usual_of, address_of, aggressive};
ghost use Rattle.settings.specs.Words.{settings_length, settings_at};

use shaper::Limits;

mod places;

// The settings of one shaper: loLimit, hiLimit, and the amount per tick.
#[derive(Clone, Copy)]
pub struct Bucket {
    pub lo: u32,
    pub hi: u32,
    pub amount: u32,
}

// The settings of the five shapers: M (control), A, B, C, D (downstream).
#[derive(Clone, Copy)]
pub struct Shapers {
    pub m: Bucket,
    pub a: Bucket,
    pub b: Bucket,
    pub c: Bucket,
    pub d: Bucket,
}

// The capacities of the three queues in bytes, and the secondary's low threshold.
#[derive(Clone, Copy)]
pub struct Queues {
    pub control: u32,
    pub primary: u32,
    pub secondary: u32,
    pub threshold: u32,
}

// The settings of the fairness rules: weight, rate unit, ticks per interval, unreservedRate, ageCoef, lpCoef, rampUp.
#[derive(Clone, Copy)]
pub struct Fairness {
    pub weight: u32,
    pub unit: u32,
    pub ticks: u32,
    pub unreserved: u32,
    pub age: u32,
    pub lp: u32,
    pub ramp: u32,
}

// The settings whose words stand behind those of all other parts: the number of stations on the ring, the method of adjusting localFairRate (0 aggressive,
// 1 conservative), a fairness round trip in intervals, rampDn. The method is a number and no enum: a lent word may hold another, and `in_range` has to see it.
#[derive(Clone, Copy)]
pub struct Site {
    pub stations: u32,
    pub method: u32,
    pub trip: u32,
    pub down: u32,
}

// An address of 48 bits: its high 16 and its low 32.
#[derive(Clone, Copy)]
pub struct Address {
    pub high: u32,
    pub low: u32,
}

// All settings of a station: own address, own ringlet, mtu, and the settings of its parts.
#[derive(Clone, Copy)]
pub struct Settings {
    pub address: Address,
    pub ringlet: u32,
    pub mtu: u32,
    pub shapers: Shapers,
    pub queues: Queues,
    pub fairness: Fairness,
    pub site: Site,
}

impl Settings {
    pub const MAX_RINGLET: u32 = 1;

    // Whether each setting is in its range. A setting that is out of range ends the test: tests that are left early are quicker than all of them joined.
    pub fn in_range(self) -> bool
        ensures { result ≡ test (settings_ok self) }
    {
        let mtu = self.mtu;
        if Address::MAX_HIGH < self.address.high {
            return false;
        }
        if Settings::MAX_RINGLET < self.ringlet {
            return false;
        }
        if mtu < Limits::MIN_MTU {
            return false;
        }
        if Limits::MAX_MTU < mtu {
            return false;
        }
        if !self.shapers.in_range(mtu) {
            return false;
        }
        if !self.queues.in_range(mtu) {
            return false;
        }
        self.fairness.in_range() & self.site.in_range()
    }
}

impl Address {
    pub const MAX_HIGH: u32 = 65535;

    // The address as one number.
    pub fn number(self) -> u64
        ensures { result ≡ address_of self }
    {
        self.high as u64 * 4294967296 + self.low as u64
    }
}

impl Bucket {
    pub const MAX_AMOUNT: u32 = 65535;

    // Whether a shaper's limits, at this mtu, and its amount per tick are in range.
    pub fn in_range(self, mtu: u32) -> bool
        ensures { result ≡ test (bucket_ok mtu self) }
    {
        self.limits(mtu).in_range() & (self.amount <= Bucket::MAX_AMOUNT)
    }

    // What bounds the shaper's credit.
    pub fn limits(self, mtu: u32) -> Limits
        ensures { result ≡ limits_of mtu self }
    {
        Limits {
            mtu,
            lo: self.lo,
            hi: self.hi,
        }
    }
}

impl Shapers {
    // Whether the settings of each shaper are in range at this mtu. One that is out of range ends the test, as in `Settings::in_range`.
    pub fn in_range(self, mtu: u32) -> bool
        ensures { result ≡ test (shapers_ok mtu self) }
    {
        if !self.m.in_range(mtu) {
            return false;
        }
        if !self.a.in_range(mtu) {
            return false;
        }
        if !self.b.in_range(mtu) {
            return false;
        }
        if !self.c.in_range(mtu) {
            return false;
        }
        self.d.in_range(mtu)
    }
}

impl Queues {
    pub const MAX_CAPACITY: u32 = 1048576;

    // Whether each capacity is in range at this mtu, and the low threshold at most the secondary's capacity.
    pub fn in_range(self, mtu: u32) -> bool
        ensures { result ≡ test (queues_ok mtu self) }
    {
        let least = mtu as u64;
        capacity_ok(least, self.primary)
            & capacity_ok(least, self.control)
            & capacity_ok(2 * least, self.secondary)
            & (self.threshold <= self.secondary)
    }
}

impl Fairness {
    pub const MAX_WEIGHT: u32 = 255;

    pub const MAX_UNIT: u32 = 1024;

    pub const MAX_TICKS: u32 = 10000;

    pub const MAX_UNRESERVED: u32 = 2147483647;

    pub const DEFAULT_AGE: u32 = 4;

    pub const DEFAULT_LP: u32 = 64;

    pub const DEFAULT_RAMP: u32 = 64;

    // The fairness settings with the default coefficients.
    pub fn usual(weight: u32, unit: u32, ticks: u32, unreserved: u32) -> Fairness
        ensures { result ≡ usual_of weight unit ticks unreserved }
    {
        Fairness {
            weight,
            unit,
            ticks,
            unreserved,
            age: Fairness::DEFAULT_AGE,
            lp: Fairness::DEFAULT_LP,
            ramp: Fairness::DEFAULT_RAMP,
        }
    }

    // Whether each fairness setting is in its range.
    pub fn in_range(self) -> bool
        ensures { result ≡ test (fairness_ok self) }
    {
        (1 <= self.weight)
            & (self.weight <= Fairness::MAX_WEIGHT)
            & (1 <= self.unit)
            & (self.unit <= Fairness::MAX_UNIT)
            & (1 <= self.ticks)
            & (self.ticks <= Fairness::MAX_TICKS)
            & (1 <= self.unreserved)
            & (self.unreserved <= Fairness::MAX_UNRESERVED)
            & age_ok(self.age)
            & coef_ok(self.lp)
            & coef_ok(self.ramp)
    }
}

impl Site {
    pub const MIN_STATIONS: u32 = 2;

    pub const MAX_STATIONS: u32 = 63;

    pub const AGGRESSIVE: u32 = 0;

    pub const CONSERVATIVE: u32 = 1;

    pub const MAX_TRIP: u32 = 1000;

    // Whether each setting of the site is in its range.
    fn in_range(self) -> bool
        ensures { result ≡ test (site_ok self) }
    {
        (Site::MIN_STATIONS <= self.stations)
            & (self.stations <= Site::MAX_STATIONS)
            & (self.method <= Site::CONSERVATIVE)
            & (1 <= self.trip)
            & (self.trip <= Site::MAX_TRIP)
            & coef_ok(self.down)
    }

    // Whether the aggressive method is chosen.
    pub fn is_aggressive(self) -> bool
        ensures { result ≡ test (aggressive self) }
    {
        self.method == Site::AGGRESSIVE
    }
}

// Whether the settings whose words stand in `s` from `at` on are each in their range. What is read is tested here and not handed on, which is quicker.
pub fn in_range_at(s: &[u8], at: usize) -> bool
    requires { at + settings_length ≤ length s.now }
    ensures { result ≡ test (settings_ok (settings_at s.now at)) }
{
    Settings::read(s, at).in_range()
}

// Whether a queue's capacity lies from `least` to the largest.
fn capacity_ok(least: u64, capacity: u32) -> bool
    ensures { result ≡ test (capacity_ok least capacity) }
{
    (least <= capacity as u64) & (capacity <= Queues::MAX_CAPACITY)
}

// Whether an ageCoef is one of its five values.
fn age_ok(x: u32) -> bool
    ensures { result ≡ test (age_ok x) }
{
    (x == 1) | (x == 2) | (x == 4) | (x == 8) | (x == 16)
}

// Whether an lpCoef, a rampUp or a rampDn is one of its six values.
fn coef_ok(x: u32) -> bool
    ensures { result ≡ test (coef_ok x) }
{
    (x == 16) | (x == 32) | (x == 64) | (x == 128) | (x == 256) | (x == 512)
}
