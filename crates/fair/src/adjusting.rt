// The two methods by which an interval adjusts local congestion and localFairRate: the aggressive one of document 01, and the conservative one of document 02, A7.
ghost use Rattle.std.specs.Prelude.{◌≡◌, cond};
ghost use Rattle.decide.specs.Test.{test};
ghost use Rattle.fair.specs.Range.{StoredOk};
ghost use Rattle.fair.specs.Methods.{local_test, aggressive_of, passed, near, entry_rate, changed_to, unchanged, conservative_of, adjust_of};

use crate::{Adjusted, Stored};
use settings::Settings;

impl Adjusted {
    // What an interval makes of them by the method that the settings choose, from the new stored numbers, whose rates shown must be in range, and the bytes in the
    // secondary queue.
    pub fn adjust(self, settings: Settings, smoothed: Stored, held: u32) -> Adjusted
        requires { StoredOk settings.fairness.lp smoothed }
        ensures { result ≡ adjust_of settings self smoothed held }
    {
        if settings.site.is_aggressive() {
            return self.aggressive(settings, smoothed, held);
        }
        self.conservative(settings, smoothed, held)
    }

    // Aggressive: localFairRate is lpAddRate, as it is shown, if the station is locally congested, else unreservedRate. The rates shown must be in range.
    fn aggressive(self, settings: Settings, smoothed: Stored, held: u32) -> Adjusted
        requires { StoredOk settings.fairness.lp smoothed }
        ensures { result ≡ aggressive_of settings self smoothed held }
    {
        let since = self.since;
        if local_test(settings, held) {
            let local = rates::shown(settings.fairness.lp, smoothed.add) as u32;
            return Adjusted {
                congested: 1,
                local,
                since,
            };
        }
        Adjusted {
            congested: 0,
            local: settings.fairness.unreserved,
            since,
        }
    }

    // Conservative: the station enters congestion, steps localFairRate down while it lasts and up once it is over, a round trip apart, and leaves near
    // unreservedRate.
    fn conservative(self, settings: Settings, smoothed: Stored, held: u32) -> Adjusted
        ensures { result ≡ conservative_of settings self smoothed held }
    {
        let unreserved = settings.fairness.unreserved;
        let full = local_test(settings, held);
        if self.congested == 0 {
            if full {
                return changed_to(entry_rate(settings, smoothed));
            }
            return self;
        }
        if full {
            return self.stepped(settings, rates::reduced(self.local, settings.site.down));
        }
        if self.is_near(settings) {
            return Adjusted {
                congested: 0,
                local: unreserved,
                since: 0,
            };
        }
        self.stepped(
            settings,
            rates::ramped(self.local, unreserved, settings.fairness.ramp),
        )
    }

    // A step to this localFairRate if a round trip has passed since the last change, else one interval more of waiting.
    fn stepped(self, settings: Settings, local: u32) -> Adjusted
        ensures { result ≡ cond (test (passed settings self)) (changed_to local) (unchanged self) }
    {
        let site = settings.site;
        if site.trip as u64 <= self.since as u64 + 1 {
            return changed_to(local);
        }
        Adjusted {
            congested: 1,
            local: self.local,
            since: self.since + 1,
        }
    }

    // Whether the distance to unreservedRate is less than rampUp.
    fn is_near(self, settings: Settings) -> bool
        ensures { result ≡ test (near settings self) }
    {
        let fairness = settings.fairness;
        let distance = decide::less(fairness.unreserved as u64, self.local as u64);
        distance < fairness.ramp as u64
    }
}

// Whether a station is locally congested with so many bytes in the secondary queue.
fn local_test(settings: Settings, held: u32) -> bool
    ensures { result ≡ test (local_test settings held) }
{
    settings.queues.threshold < held
}

// The localFairRate with which a station enters congestion: lpAddRate, as it is shown, cut to unreservedRate.
fn entry_rate(settings: Settings, smoothed: Stored) -> u32
    ensures { result ≡ entry_rate settings smoothed }
{
    let fairness = settings.fairness;
    let shown = rates::shown(fairness.lp, smoothed.add);
    let most = fairness.unreserved as u64;
    decide::lesser(shown, most) as u32
}

// A station that is congested, and whose localFairRate changed to this one now.
fn changed_to(local: u32) -> Adjusted
    ensures { result ≡ changed_to local }
{
    Adjusted {
        congested: 1,
        local,
        since: 0,
    }
}
