// The refusals, and the number by which each is told.
ghost use Rattle.std.specs.Prelude.{◌≡◌};
ghost use Rattle.decide.specs.Number.{number_in, refusal_of};

use std::error::Error;
use std::fmt;

/// Why a call is turned down. Its number is what a host is told.
#[derive(Clone, Copy, Debug, PartialEq, Eq)]
pub enum Refusal {
    /// 1: a setting, or a lent station's state, is outside its range.
    Setting,
    /// 2: bytes are not a whole record, frame or station.
    NotWhole,
    /// 3: a frame, station index, summary, starting credit or coded choice is outside its range.
    OutOfRange,
    /// 4: a frame's size exceeds the queue's space.
    NoSpace,
    /// 5: the stage already holds a frame.
    StageHolds,
    /// 6: a needed shaper doesn't permit.
    NoCredit,
    /// 7: the congested fair rate would be passed.
    OverRate,
    /// 8: no usable way.
    NoWay,
    /// 9: over 1,000,000 events.
    TooMany,
    /// 10: joined summaries have different settings.
    Unlike,
    /// 11: a fairness frame bears this station's own address.
    OwnAddress,
    /// 12: lent room is too short.
    ShortRoom,
    /// 13: hops reach the number of stations.
    BeyondRing,
    /// Any other number. No call here gives one, but those that are told of a refusal, to print it or to pass it on, take every number.
    Other(u64),
}

impl Refusal {
    /// The number by which the refusal is told.
    pub fn number(self) -> u64
        ensures { result ≡ number_in self }
    {
        match self {
            Refusal::Setting => 1,
            Refusal::NotWhole => 2,
            Refusal::OutOfRange => 3,
            Refusal::NoSpace => 4,
            Refusal::StageHolds => 5,
            Refusal::NoCredit => 6,
            Refusal::OverRate => 7,
            Refusal::NoWay => 8,
            Refusal::TooMany => 9,
            Refusal::Unlike => 10,
            Refusal::OwnAddress => 11,
            Refusal::ShortRoom => 12,
            Refusal::BeyondRing => 13,
            Refusal::Other(number) => number,
        }
    }
}

impl From<u64> for Refusal {
    ghost from_gives = { λ n r. r ≡ refusal_of n };

    fn from(number: u64) -> Refusal {
        match number {
            1 => Refusal::Setting,
            2 => Refusal::NotWhole,
            3 => Refusal::OutOfRange,
            4 => Refusal::NoSpace,
            5 => Refusal::StageHolds,
            6 => Refusal::NoCredit,
            7 => Refusal::OverRate,
            8 => Refusal::NoWay,
            9 => Refusal::TooMany,
            10 => Refusal::Unlike,
            11 => Refusal::OwnAddress,
            12 => Refusal::ShortRoom,
            13 => Refusal::BeyondRing,
            other => Refusal::Other(other),
        }
    }
}

impl fmt::Display for Refusal {
    fn fmt<W: fmt::Write>(&self, f: &mut fmt::Formatter<W>) -> fmt::Result {
        write!(f, "refused {}", self.number())
    }
}

impl Error for Refusal {}
