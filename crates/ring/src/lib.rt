// Which side a frame takes round a ring of stations.
#![tactic(auto)]

ghost use Rattle.std.specs.Prelude.{◌≡◌, ◌<◌, ◌^◌, ◌≢◌, cond};
ghost use Rattle.ring.specs.Links.{other_of, rotated_of, reach_of};
ghost use Rattle.ring.specs.Choosing.{code_of, wrapping_of, distance_of, tie_of, shorter_of, reaches_of, preferred_of, along_of, goes_of, misplaced_of, choose_of, Placed};

use decide::Refusal;

// A side of a station: right goes to the next higher number.
#[derive(Clone, Copy, Debug, PartialEq, Eq)]
pub enum Way {
    Left,
    Right,
}

// The side taken, as the host codes it, with its distance, ttl and wrap mark.
#[derive(Clone, Copy, Debug, PartialEq, Eq)]
pub struct Choice {
    pub side: u64,
    pub distance: u64,
    pub ttl: u64,
    pub mark: bool,
}

// The host's code of a choice that is unprotected.
const UNPROTECTED: u64 = 2;

// The host's code of a wrapping ring.
const WRAPPING: u64 = 1;

// A station of a ring, another that it sends to, and a bit for each link, set if usable.
#[derive(Clone, Copy)]
struct Place {
    stations: u64,
    own: u64,
    target: u64,
    links: u64,
    ghost placed: { Placed stations own target links },
}

// The side that a frame from `own` to `target` takes, or why there is none. Any numbers may be given. `side`, `protection` and `ring` stay the host's codes
// throughout: what is proved of a choice speaks of each code.
pub fn choose(
    stations: u64,
    own: u64,
    target: u64,
    links: u64,
    side: u64,
    protection: u64,
    ring: u64,
) -> Result<Choice, Refusal>
    ensures { result ≡ choose_of stations own target links side protection ring }
{
    misplaced(stations, own, target, links)?;
    if (3 < side) | ((2 < protection) | (1 < ring)) {
        return Err(Refusal::OutOfRange);
    }
    let place = Place {
        stations,
        own,
        target,
        links,
    };
    place.goes(side, protection, ring)
}

// Whether the numbers are a place on a ring, or what is amiss with the ring, its word of links or its two stations.
pub fn misplaced(stations: u64, own: u64, target: u64, links: u64) -> Result<(), Refusal>
    ensures { result ≡ misplaced_of stations own target links }
{
    if (stations < 2) | (63 < stations) {
        return Err(Refusal::Setting);
    }
    if 0 < links >> stations {
        return Err(Refusal::OutOfRange);
    }
    if (stations <= own) | ((stations <= target) | (own == target)) {
        return Err(Refusal::OutOfRange);
    }
    Ok(())
}

impl Place {
    // The side that a frame takes: the preferred one, or the other where only that reaches.
    fn goes(self, side: u64, protection: u64, ring: u64) -> Result<Choice, Refusal>
        ensures { result ≡ goes_of self.stations self.own self.target self.links side protection ring }
    {
        let first = self.preferred(side);
        if protection == UNPROTECTED || self.reaches(first) {
            return Ok(self.along(first, protection, ring));
        }
        let second = first.other();
        if !self.reaches(second) {
            return Err(Refusal::NoWay);
        }
        Ok(self.along(second, protection, ring))
    }

    // The answer for a side: its distance, ttl and wrap mark.
    fn along(self, way: Way, protection: u64, ring: u64) -> Choice
        ensures { Ok result ≡ along_of way self.stations self.own self.target protection ring }
    {
        let distance = self.distance(way);
        Choice {
            side: way.code(),
            distance,
            ttl: ttl(ring, distance),
            mark: protection != UNPROTECTED && ring == WRAPPING,
        }
    }

    // The side tried first: the one that the host names, or the shorter.
    fn preferred(self, side: u64) -> Way
        ensures { result ≡ preferred_of side self.stations self.own self.target }
    {
        match side {
            1 => Way::Left,
            2 => Way::Right,
            _ => self.shorter(),
        }
    }

    // The shorter side.
    fn shorter(self) -> Way
        ensures { result ≡ shorter_of self.stations self.own self.target }
    {
        let right = self.distance(Way::Right);
        let left = self.distance(Way::Left);
        if right < left {
            Way::Right
        } else if left < right {
            Way::Left
        } else {
            tie(self.own, self.target)
        }
    }

    // Whether a side reaches the target.
    fn reaches(self, way: Way) -> bool
        ensures { result ≡ reaches_of way self.stations self.own self.target self.links }
    {
        self.distance(way) <= self.reach(way)
    }

    // The hops to the target on a side.
    fn distance(self, way: Way) -> u64
        ensures { result ≡ distance_of way self.stations self.own self.target }
    {
        let right = (self.target + (self.stations - self.own)) % self.stations;
        match way {
            Way::Left => self.stations - right,
            Way::Right => right,
        }
    }

    // How many hops a side reaches: trailing zeros of the rotated word's complement to the right, leading zeros to the left.
    fn reach(self, way: Way) -> u64
        ensures { result ≡ reach_of way self.stations self.own self.links }
    {
        let word = self.rotated();
        match way {
            Way::Left => u64::from((!(word << (64 - self.stations))).leading_zeros()),
            Way::Right => u64::from((!word).trailing_zeros()),
        }
    }

    // The word of links rotated so that the station's own link is bit 0.
    fn rotated(self) -> u64
        ensures { result ≡ rotated_of self.stations self.own self.links }
    {
        let low = self.links % (1 << self.own);
        (self.links >> self.own) | (low << (self.stations - self.own))
    }
}

impl Way {
    // The opposite side.
    pub fn other(self) -> Way
        ensures { result ≡ other_of self }
    {
        match self {
            Way::Left => Way::Right,
            Way::Right => Way::Left,
        }
    }

    // The host's code of a side.
    fn code(self) -> u64
        ensures { result ≡ code_of self }
    {
        match self {
            Way::Left => 1,
            Way::Right => 2,
        }
    }
}

// The side taken where both are equally long: right from the lower index, left from the higher, so that both ends of a pair use the same links.
fn tie(own: u64, target: u64) -> Way
    ensures { result ≡ tie_of own target }
{
    if own < target { Way::Right } else { Way::Left }
}

// How far a frame may travel: its distance, or 63 on a wrapping ring.
fn ttl(ring: u64, distance: u64) -> u64
    ensures { result ≡ cond (wrapping_of ring) 63 distance }
{
    if ring == WRAPPING { 63 } else { distance }
}
