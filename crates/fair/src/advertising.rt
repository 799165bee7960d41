// What a station advertises, and what a frame that it hears changes.
ghost use Rattle.std.specs.Prelude.{◌≡◌};
ghost use Rattle.decide.specs.Test.{test};
ghost use Rattle.fair.specs.Range.{FairOk};
ghost use Rattle.fair.specs.Advertise.{uncongested, own_counts, told_of, heard_of};

use crate::Fair;
use advert::Advert;
use heard::FULL_RATE;
use settings::Settings;

impl Fair {
    // What a station in this state advertises. The state must be in range, so that ttl and rates fit a frame.
    pub fn told(self, settings: Settings) -> Advert
        requires { FairOk settings self }
        ensures { result ≡ told_of self settings }
    {
        if self.is_uncongested() {
            return heard::own_frame(settings, FULL_RATE);
        }
        if self.own_counts() {
            return heard::own_frame(settings, self.decided.own as u16);
        }
        let received = self.received;
        if heard::last_hop(settings, received.ttl) {
            return heard::own_frame(settings, FULL_RATE);
        }
        Advert {
            ringlet: heard::other_ringlet(settings),
            ttl: (received.ttl - 1) as u8,
            high: received.high,
            low: received.low,
            rate: received.rate as u16,
        }
    }

    // Whether the station is not congested either way.
    fn is_uncongested(self) -> bool
        ensures { result ≡ test (uncongested self) }
    {
        (self.decided.congested == 0) & (self.received.downstream == 0)
    }

    // Whether its own rate is the one to advertise.
    fn own_counts(self) -> bool
        ensures { result ≡ test (own_counts self) }
    {
        let decided = self.decided;
        let received = self.received;
        let here = decided.congested == 1;
        let only = here & (received.downstream == 0);
        let both = here & ((received.downstream == 1) & (decided.own <= received.rate));
        only | both
    }

    // The state after a frame that is not refused.
    pub fn heard(self, advert: Advert) -> Fair
        ensures { result ≡ heard_of self advert }
    {
        let received = heard::received_from(advert);
        Fair { received, ..self }
    }
}
