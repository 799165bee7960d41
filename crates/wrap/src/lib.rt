// The path of a wrap-marked frame round a ring with breaks.
#![tactic(auto)]

ghost use Rattle.std.specs.Prelude.{◌≡◌, true, false, ◌+◌, ◌<◌, length};
ghost use Rattle.ring.specs.Links.{other_of, next_of, link_of, ahead_of};
ghost use Rattle.wrap.specs.Walking.{Stops, at_home, opposite, course_of, path_of};

use decide::Refusal;
use ring::Way;

// What becomes of a wrap-marked frame: whether it is delivered, and the hops that it moves.
#[derive(Clone, Copy, Debug, PartialEq, Eq)]
pub struct Journey {
    pub delivered: bool,
    pub hops: u64,
}

// A station of a ring. Its word of links stands beside it: with a third number it would go through memory, and no walk would run as a loop.
#[derive(Clone, Copy)]
struct Stop {
    stations: u64,
    at: u64,
    ghost stands: { Stops stations at },
}

// Whether a wrap-marked frame from `own` is delivered at `target`, and the hops that it moves. Any numbers may be given.
pub fn path(stations: u64, own: u64, target: u64, links: u64, home: u64) -> Result<Journey, Refusal>
    ensures { result ≡ path_of stations own target links home }
{
    ring::misplaced(stations, own, target, links)?;
    let home = match home {
        1 => Way::Left,
        2 => Way::Right,
        _ => return Err(Refusal::OutOfRange),
    };
    let start = Stop { stations, at: own };
    let most = 2 * stations;
    let hops = home_walk(start, links, target, home, most, false, 0);
    // A frame that is not delivered takes all the hops that it may, or none; one that is delivered takes some, and fewer.
    Ok(Journey {
        delivered: (hops != 0) & (hops != most),
        hops,
    })
}

// The rest of a walk on the home side, after `moved` hops: all the hops of the walk. Just after a turn the link behind is known to be unusable.
// No call of a walk is followed by anything, and one number is answered, so that it runs as a loop: with a `Journey` to hand on it took fifteen times as long.
#[cycle(home_walk_opposite_walk)]
fn home_walk(
    stop: Stop,
    links: u64,
    target: u64,
    home: Way,
    left: u64,
    turned: bool,
    moved: u64,
) -> u64
    requires { (moved + left < 127) × (turned ≡ true → ahead_of (other_of home) stop.stations links stop.at ≡ false) }
    ensures { result ≡ moved + length (course_of stop.stations links target home left at_home stop.at).links }
{
    if stop.at == target {
        moved
    } else if left == 0 {
        moved
    } else if stop.ahead(home, links) {
        let on = stop.next(home);
        home_walk(on, links, target, home, left - 1, false, moved + 1)
    } else if turned {
        moved
    } else {
        opposite_walk(stop, links, target, home, left, true, moved)
    }
}

// The rest of a walk on the opposite ringlet, and back again at the next break. Just after a turn it is short of the target, and the link behind is known to
// be unusable.
#[cycle(home_walk_opposite_walk)]
fn opposite_walk(
    stop: Stop,
    links: u64,
    target: u64,
    home: Way,
    left: u64,
    turned: bool,
    moved: u64,
) -> u64
    requires { (moved + left < 127) × (turned ≡ true → (ahead_of home stop.stations links stop.at ≡ false) × (stop.at ≡ target → ⊥)) }
    ensures { result ≡ moved + length (course_of stop.stations links target home left opposite stop.at).links }
{
    let away = home.other();
    if left == 0 {
        moved
    } else if stop.moves_on(away, links) {
        let on = stop.next(away);
        opposite_walk(on, links, target, home, left - 1, false, moved + 1)
    } else if turned {
        moved
    } else {
        home_walk(stop, links, target, home, left, true, moved)
    }
}

impl Stop {
    // Whether a frame on the opposite ringlet moves on: where the link ahead is usable, at its target too.
    fn moves_on(self, away: Way, links: u64) -> bool
        ensures { result ≡ ahead_of away self.stations links self.at }
    {
        self.ahead(away, links)
    }

    // Whether the link ahead is usable.
    fn ahead(self, way: Way, links: u64) -> bool
        ensures { result ≡ ahead_of way self.stations links self.at }
    {
        (links >> self.link(way)) % 2 == 1
    }

    // The link ahead.
    fn link(self, way: Way) -> u64
        ensures { result ≡ link_of way self.stations self.at }
    {
        match way {
            Way::Left => self.next(way).at,
            Way::Right => self.at,
        }
    }

    // The station ahead.
    fn next(self, way: Way) -> Stop
        ensures ring { result.stations ≡ self.stations }
        ensures station { result.at ≡ next_of way self.stations self.at }
    {
        let at = match way {
            Way::Left => if self.at == 0 {
                self.stations - 1
            } else {
                self.at - 1
            },
            Way::Right => if self.at + 1 == self.stations {
                0
            } else {
                self.at + 1
            },
        };
        Stop {
            stations: self.stations,
            at,
        }
    }
}
