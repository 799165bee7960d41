// What a fairness frame is to a station with these settings: what it received, whether a frame is refused, what one that is not leaves as received, and
// the frames of its own.
#![tactic(auto)]

ghost use Rattle.std.specs.Prelude.{◌≡◌};
ghost use Rattle.decide.specs.Test.{test};
ghost use Rattle.decide.specs.Hops.{in_ring};
ghost use Rattle.heard.specs.Range.{ttl_ok, hops_of, received_ok};
ghost use Rattle.heard.specs.Frame.{other_ringlet, own_frame, last_hop, none_received, received_of, own_ringlet, own_address};

use advert::Advert;
use settings::{Address, Settings};

// What was received: whether a station downstream is congested (1, else 0), ttl, the high 16 and the low 32 bits of the address, rate.
#[derive(Clone, Copy)]
pub struct Received {
    // a number and no bool: it is a word of the station's memory, which any bytes may fill (layout: `state_of_bytes`), and `in_range` tests it
    pub downstream: u32,
    pub ttl: u32,
    pub high: u32,
    pub low: u32,
    pub rate: u32,
}

// The rate of a frame that tells of no congestion.
pub const FULL_RATE: u16 = 65535;

impl Received {
    // The largest received rate.
    pub const MAX_RATE: u32 = 65534;

    // Nothing received.
    pub fn none() -> Received
        ensures { result ≡ none_received }
    {
        Received {
            downstream: 0,
            ttl: 255,
            high: 0,
            low: 0,
            rate: 0,
        }
    }

    // Whether rate, ttl, flag and address are each in range on a ring of so many stations.
    pub fn in_range(self, stations: u32) -> bool
        ensures { result ≡ test (received_ok stations self) }
    {
        (self.rate <= Received::MAX_RATE)
            & ttl_ok(self.ttl)
            & ttl_in_ring(stations, self.ttl)
            & (self.downstream <= 1)
            & (self.high <= Address::MAX_HIGH)
    }
}

// Whether a ttl is one that a fairness frame may have. Every test of a ttl's range is made here.
pub fn ttl_ok(ttl: u32) -> bool
    ensures { result ≡ test (ttl_ok ttl) }
{
    (193..=255).contains(&ttl)
}

// The hops to the congested station that a ttl tells of: 256 less the ttl.
pub fn hops_of(ttl: u32) -> u32
    ensures { result ≡ hops_of ttl }
{
    decide::less(256, ttl as u64) as u32
}

// Whether the hops that a ttl tells of stay within a ring of so many stations: else refusal 13.
pub fn ttl_in_ring(stations: u32, ttl: u32) -> bool
    ensures { result ≡ test (in_ring stations (hops_of ttl)) }
{
    decide::in_ring(stations, hops_of(ttl))
}

// Whether a frame bears the station's own ringlet bit: refusal 2.
pub fn is_own_ringlet(settings: Settings, advert: Advert) -> bool
    ensures { result ≡ test (own_ringlet settings advert) }
{
    advert.ringlet as u32 == settings.ringlet
}

// Whether a frame bears the station's own address: refusal 11.
pub fn is_own_address(settings: Settings, advert: Advert) -> bool
    ensures { result ≡ test (own_address settings advert) }
{
    (advert.high == settings.address.high) & (advert.low == settings.address.low)
}

// What a frame that is not refused leaves as received.
pub fn received_from(advert: Advert) -> Received
    ensures { result ≡ received_of advert }
{
    if advert.rate == FULL_RATE {
        return Received::none();
    }
    Received {
        downstream: 1,
        ttl: advert.ttl as u32,
        high: advert.high,
        low: advert.low,
        rate: advert.rate as u32,
    }
}

// A frame of the station's own: this rate, its address, and a ttl of 255.
pub fn own_frame(settings: Settings, rate: u16) -> Advert
    ensures { result ≡ own_frame settings rate }
{
    Advert {
        ringlet: other_ringlet(settings),
        ttl: 255,
        high: settings.address.high,
        low: settings.address.low,
        rate,
    }
}

// The ringlet bit of a frame that is written: the other ringlet's.
pub fn other_ringlet(settings: Settings) -> u8
    ensures { result ≡ other_ringlet settings }
{
    decide::less(1, settings.ringlet as u64) as u8
}

// Whether a received frame of this ttl goes no further: one hop more would lead round the whole ring.
pub fn last_hop(settings: Settings, ttl: u32) -> bool
    ensures { result ≡ test (last_hop settings ttl) }
{
    hops_of(ttl) as u64 == decide::less(settings.site.stations as u64, 1)
}
