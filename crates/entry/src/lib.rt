// Thin entry points, for Rattle callers: the station, or a shaper, stays where its owner keeps it and is lent for the call. Each calls the step by value,
// stores what the step leaves, and answers the rest; where the step refuses, what was there stays.
#![tactic(auto)]

ghost use Rattle.std.specs.Prelude.{◌≡◌};
ghost use Rattle.shaper.specs.Shaper.{ticked_of, charge_of};
ghost use Rattle.shaper.specs.Refused.{afterwards};
ghost use Rattle.station.specs.Answers.{rest_after};
ghost use Rattle.station.specs.Calls.{tick_of, select_of, age_of};
ghost use Rattle.station.specs.Offers.{station_left, offer_client_of, offer_transit_of, offer_control_of};
ghost use Rattle.station.specs.Hear.{hear_of};
ghost use Rattle.entry.specs.Brief.{brief_of, charge_brief_of, marked_of, chosen_of};

use queue::Frame;
use shaper::{Refused, Shaper};
use station::Station;

// What goes next: where it comes from (0 nothing, 1 control, 2 primary, 3 secondary, 4 stage), and the frame.
#[derive(Clone, Copy)]
pub struct Chosen {
    pub origin: u32,
    pub frame: Frame,
}

// A tick of a shaper, while traffic waits or while it does not.
pub fn shaper_tick(s: &mut Shaper, waiting: bool, amount: u32)
    ensures { s.new ≡ ticked_of s.old waiting amount }
{
    *s = (*s).tick(waiting, amount);
}

// A send of this size through a shaper: `NoCredit`, and how far short, where it does not permit.
pub fn shaper_charge(s: &mut Shaper, size: u32) -> Result<(), Refused>
    ensures { (result ≡ charge_brief_of (charge_of s.old size)) × (s.new ≡ afterwards s.old (charge_of s.old size)) }
{
    *s = (*s).charge(size)?;
    Ok(())
}

// A tick. The host says whether A, B and C traffic waits: 1 for yes, 0 for no.
pub fn tick(s: &mut Station, a: u64, b: u64, c: u64) -> Result<(), Refused>
    ensures { (result ≡ brief_of (tick_of s.old a b c)) × (s.new ≡ afterwards s.old (tick_of s.old a b c)) }
{
    *s = (*s).tick(a, b, c)?;
    Ok(())
}

// Takes a client frame into the stage, and answers the mark that it was given. Class A is 0, B 1, C 2; a client gives no mark.
pub fn offer_client(s: &mut Station, class: u64, size: u64, hops: u64) -> Result<u32, Refused>
    ensures { (result ≡ marked_of (offer_client_of s.old class size hops)) × (s.new ≡ station_left s.old (offer_client_of s.old class size hops)) }
{
    let taken = (*s).offer_client(class, size, hops)?;
    *s = taken.station;
    Ok(taken.mark)
}

// Takes a transit frame into the queue of its class; eligible is 1 or 0.
pub fn offer_transit(
    s: &mut Station,
    class: u64,
    size: u64,
    hops: u64,
    eligible: u64,
) -> Result<(), Refused>
    ensures { (result ≡ brief_of (offer_transit_of s.old class size hops eligible)) × (s.new ≡ afterwards s.old (offer_transit_of s.old class size hops eligible)) }
{
    *s = (*s).offer_transit(class, size, hops, eligible)?;
    Ok(())
}

// Takes a control frame, given by its size alone, into the control queue.
pub fn offer_control(s: &mut Station, size: u64) -> Result<(), Refused>
    ensures { (result ≡ brief_of (offer_control_of s.old size)) × (s.new ≡ afterwards s.old (offer_control_of s.old size)) }
{
    *s = (*s).offer_control(size)?;
    Ok(())
}

// What goes next, by table 6.4. The frame leaves its queue.
pub fn select(s: &mut Station) -> Result<Chosen, Refused>
    ensures { (result ≡ chosen_of (select_of s.old)) × (s.new ≡ rest_after s.old (select_of s.old)) }
{
    let next = (*s).select()?;
    *s = next.station;
    Ok(Chosen {
        origin: next.origin,
        frame: next.frame,
    })
}

// The end of an aging interval.
pub fn age(s: &mut Station) -> Result<(), Refused>
    ensures { (result ≡ brief_of (age_of s.old)) × (s.new ≡ afterwards s.old (age_of s.old)) }
{
    *s = (*s).age()?;
    Ok(())
}

// Hears the bytes of a fairness frame.
pub fn hear(s: &mut Station, frame: &[u8]) -> Result<(), Refused>
    ensures { (result ≡ brief_of (hear_of s.old frame.now)) × (s.new ≡ afterwards s.old (hear_of s.old frame.now)) }
{
    *s = (*s).hear(frame)?;
    Ok(())
}
