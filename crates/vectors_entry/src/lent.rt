// Each function holds a station, or a shaper, and lends it to an entry point for one call. It hands on what the entry point answered, and what then lies in its own
// memory.
ghost use Rattle.std.specs.Prelude.{◌≡◌};
ghost use Rattle.shaper.specs.Shaper.{ticked_of, charge_of};
ghost use Rattle.station.specs.Calls.{tick_of, select_of, age_of};
ghost use Rattle.station.specs.Offers.{offer_client_of, offer_transit_of, offer_control_of};
ghost use Rattle.station.specs.Hear.{hear_of};
ghost use Rattle.vectors_entry.specs.Lent.{charge_left, call_left, offer_left, select_left};

use entry::Chosen;
use shaper::{Refused, Shaper};
use station::Station;

// What a call answered, and the shaper or the station that it left.
#[derive(Clone, Copy)]
pub struct Lent<A, S> {
    pub said: A,
    pub left: S,
}

pub fn shaper_tick(s: Shaper, waiting: bool, amount: u32) -> Shaper
    ensures { result ≡ ticked_of s waiting amount }
{
    let mut held = s;
    entry::shaper_tick(&mut held, waiting, amount);
    held
}

pub fn shaper_charge(s: Shaper, size: u32) -> Lent<Result<(), Refused>, Shaper>
    ensures { result ≡ charge_left s (charge_of s size) }
{
    let mut held = s;
    let said = entry::shaper_charge(&mut held, size);
    Lent { said, left: held }
}

pub fn tick(s: Station, a: u64, b: u64, c: u64) -> Lent<Result<(), Refused>, Station>
    ensures { result ≡ call_left s (tick_of s a b c) }
{
    let mut held = s;
    let said = entry::tick(&mut held, a, b, c);
    Lent { said, left: held }
}

pub fn offer_client(
    s: Station,
    class: u64,
    size: u64,
    hops: u64,
) -> Lent<Result<u32, Refused>, Station>
    ensures { result ≡ offer_left s (offer_client_of s class size hops) }
{
    let mut held = s;
    let said = entry::offer_client(&mut held, class, size, hops);
    Lent { said, left: held }
}

pub fn offer_transit(
    s: Station,
    class: u64,
    size: u64,
    hops: u64,
    eligible: u64,
) -> Lent<Result<(), Refused>, Station>
    ensures { result ≡ call_left s (offer_transit_of s class size hops eligible) }
{
    let mut held = s;
    let said = entry::offer_transit(&mut held, class, size, hops, eligible);
    Lent { said, left: held }
}

pub fn offer_control(s: Station, size: u64) -> Lent<Result<(), Refused>, Station>
    ensures { result ≡ call_left s (offer_control_of s size) }
{
    let mut held = s;
    let said = entry::offer_control(&mut held, size);
    Lent { said, left: held }
}

pub fn select(s: Station) -> Lent<Result<Chosen, Refused>, Station>
    ensures { result ≡ select_left s (select_of s) }
{
    let mut held = s;
    let said = entry::select(&mut held);
    Lent { said, left: held }
}

pub fn age(s: Station) -> Lent<Result<(), Refused>, Station>
    ensures { result ≡ call_left s (age_of s) }
{
    let mut held = s;
    let said = entry::age(&mut held);
    Lent { said, left: held }
}

pub fn hear(s: Station, frame: &[u8]) -> Lent<Result<(), Refused>, Station>
    ensures { result ≡ call_left s (hear_of s frame.now) }
{
    let mut held = s;
    let said = entry::hear(&mut held, frame);
    Lent { said, left: held }
}
