// Fairness frames: what one that is heard changes, and what the station tells.
ghost use Rattle.std.specs.Prelude.{◌≡◌};
ghost use Rattle.decide.specs.Test.{test};
ghost use Rattle.station.specs.Range.{station_ok};
ghost use Rattle.station.specs.Hear.{changed_of, listen_of, hear_of, tell_of};

use crate::Station;
use advert::Advert;
use decide::Refusal;
use shaper::Refused;

impl Station {
    // Hears the bytes of a fairness frame. What is wrong with their shape and the ringlet bit is told before the station's range.
    pub fn hear(self, frame: &[u8]) -> Result<Station, Refused>
        ensures { result ≡ hear_of self frame.now }
    {
        self.hear_known(self.in_range(), frame)
    }

    // Hears the bytes of a fairness frame, where it is known whether the station is in range.
    pub fn hear_known(self, good: bool, frame: &[u8]) -> Result<Station, Refused>
        requires { good ≡ test (station_ok self) }
        ensures { result ≡ hear_of self frame.now }
    {
        let said = advert::parse(frame)?;
        self.listen(good, said)
    }

    // What the station tells: the fairness frame that it advertises now. The station stays as it is.
    pub fn tell(self) -> Result<Advert, Refused>
        ensures { result ≡ tell_of self }
    {
        self.tell_known(self.in_range())
    }

    // What the station tells, where it is known whether it is in range.
    pub fn tell_known(self, good: bool) -> Result<Advert, Refused>
        requires { good ≡ test (station_ok self) }
        ensures { result ≡ tell_of self }
    {
        if !good {
            return Err(Refusal::Setting.into());
        }
        let fair = self.fair;
        Ok(fair.told(self.settings))
    }

    // Hears what a whole frame says.
    fn listen(self, good: bool, said: Advert) -> Result<Station, Refused>
        requires { good ≡ test (station_ok self) }
        ensures { result ≡ listen_of self said }
    {
        if heard::is_own_ringlet(self.settings, said) {
            return Err(Refusal::NotWhole.into());
        }
        if !good {
            return Err(Refusal::Setting.into());
        }
        if !heard::ttl_ok(said.ttl as u32) {
            return Err(Refusal::OutOfRange.into());
        }
        if !heard::ttl_in_ring(self.settings.site.stations, said.ttl as u32) {
            return Err(Refusal::BeyondRing.into());
        }
        if heard::is_own_address(self.settings, said) {
            return Err(Refusal::OwnAddress.into());
        }
        Ok(self.changed(said))
    }

    // The station after a frame that is not refused.
    fn changed(self, said: Advert) -> Station
        ensures { result ≡ changed_of self said }
    {
        let fair = self.fair;
        let heard = fair.heard(said);
        let mut next = self;
        next.fair = heard;
        next
    }
}
