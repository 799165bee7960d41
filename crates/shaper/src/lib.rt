// A shaper: its limits, its events, and the credit that they leave.
#![tactic(auto)]

ghost use Rattle.std.specs.Prelude.{◌≡◌, ◌+◌, ◌-◌, min};
ghost use Rattle.decide.specs.Test.{test};
ghost use Rattle.shaper.specs.Limits.{limits_ok, same_limits};
ghost use Rattle.shaper.specs.Short.{shortfall};
ghost use Rattle.shaper.specs.Refused.{plain};
ghost use Rattle.shaper.specs.Shaper.{fresh_of, ticked_of, charge_of};

use decide::Refusal;
use std::error::Error;
use std::fmt;

// The settings of a shaper that bound its credit, and the longest frame.
#[derive(Clone, Copy, PartialEq, Eq)]
pub struct Limits {
    pub mtu: u32,
    pub lo: u32,
    pub hi: u32,
}

// What happens to a shaper: a tick while traffic waits or while it does not, with its amount, or a send with its size.
#[derive(Clone, Copy)]
pub enum Event {
    Waiting(u32),
    Idle(u32),
    Send(u32),
}

impl Event {
    // The most events of a record and of a summary.
    pub const MAX_EVENTS: u32 = 1000000;

    // The largest amount of a tick.
    pub const MAX_AMOUNT: u32 = 65535;

    // The smallest size of a send; the largest is the mtu.
    pub const MIN_SIZE: u16 = 16;
}

// A shaper by value.
#[derive(Clone, Copy)]
pub struct Shaper {
    pub limits: Limits,
    pub credit: u32,
}

// Why a call is turned down. `detail` is what is said beside it: of `NoCredit` how far short the shapers are, else 0.
#[derive(Clone, Copy, Debug, PartialEq, Eq)]
pub struct Refused {
    pub refusal: Refusal,
    pub detail: u64,
}

impl From<Refusal> for Refused {
    ghost from_gives = { λ r e. e ≡ plain r };

    fn from(refusal: Refusal) -> Refused {
        Refused { refusal, detail: 0 }
    }
}

impl fmt::Display for Refused {
    fn fmt<W: fmt::Write>(&self, f: &mut fmt::Formatter<W>) -> fmt::Result {
        write!(f, "{}", self.refusal)?;
        if self.detail != 0 {
            write!(f, " short {}", self.detail)?;
        }
        Ok(())
    }
}

impl Error for Refused {}

impl Limits {
    pub const MIN_MTU: u32 = 64;

    pub const MAX_MTU: u32 = 9216;

    pub const MAX_LO: u32 = 65536;

    pub const MAX_HI: u32 = 1048576;

    // Whether each setting is in its range.
    pub fn in_range(self) -> bool
        ensures { result ≡ test (limits_ok self) }
    {
        (Limits::MIN_MTU <= self.mtu)
            & (self.mtu <= Limits::MAX_MTU)
            & (self.mtu <= self.lo)
            & (self.lo <= Limits::MAX_LO)
            & (self.lo < self.hi)
            & (self.hi <= Limits::MAX_HI)
    }

    // Whether two shapers have the same settings.
    pub fn same(self, other: Limits) -> bool
        ensures { result ≡ test (same_limits self other) }
    {
        self == other
    }
}

// How far short this credit is of permitting a send: the least amount whose addition would make it exceed loLimit, 0 where it does. Every permission is asked
// for here. The answer has 64 bits, as loLimit + 1 may have 33.
pub fn ask(credit: u32, lo: u32) -> u64
    ensures { result ≡ shortfall credit lo }
{
    decide::less(lo as u64 + 1, credit as u64)
}

impl Shaper {
    // A shaper at its start.
    pub fn fresh(limits: Limits) -> Shaper
        ensures { result ≡ fresh_of limits }
    {
        let credit = limits.lo;
        Shaper { limits, credit }
    }

    // The shaper after a tick, while traffic waits or while it does not.
    pub fn tick(self, waiting: bool, amount: u32) -> Shaper
        ensures { result ≡ ticked_of self waiting amount }
    {
        let limits = self.limits;
        let cut = if waiting { limits.hi } else { limits.lo };
        let credit = self.credit.saturating_add(amount).min(cut);
        Shaper { limits, credit }
    }

    // The shaper after a send of this size, or `NoCredit` and how far short it is where it does not permit: then nothing is taken off.
    pub fn charge(self, size: u32) -> Result<Shaper, Refused>
        ensures { result ≡ charge_of self size }
    {
        let limits = self.limits;
        let short = ask(self.credit, limits.lo);
        if 0 < short {
            return Err(Refused {
                refusal: Refusal::NoCredit,
                detail: short,
            });
        }
        let credit = lowered(self.credit, size);
        Ok(Shaper { limits, credit })
    }
}

// A credit less a size; 0 where the size is larger, which no permitted send of a valid size is.
fn lowered(credit: u32, size: u32) -> u32
    ensures { result ≡ credit - size }
{
    credit.saturating_sub(size)
}
