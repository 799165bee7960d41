// The words of the settings, each of 4 bytes, read from lent bytes and written there. Each part stands behind the one before it.
// No trait has these reads and writes: nothing is generic over the parts, and each names its own fields either way.
ghost use Rattle.std.specs.Prelude.{◌≡◌, ◌+◌, ◌≤◌, length};
ghost use Rattle.wire.specs.Wire.{put};
ghost use Rattle.settings.specs.Words.{address_length, address_at, address_bytes, bucket_length, bucket_at, bucket_bytes, shapers_length, shapers_at, shapers_bytes};
ghost use Rattle.settings.specs.Words.{queues_length, queues_at, queues_bytes, fairness_length, fairness_at, fairness_bytes, site_length, site_at, site_bytes};
ghost use Rattle.settings.specs.Words.{settings_length, settings_at, settings_bytes};

use crate::{Address, Bucket, Fairness, Queues, Settings, Shapers, Site};

const WORD: usize = 4;

impl Settings {
    const RINGLET: usize = Address::LENGTH;

    const MTU: usize = Settings::RINGLET + WORD;

    const SHAPERS: usize = Settings::MTU + WORD;

    const QUEUES: usize = Settings::SHAPERS + Shapers::LENGTH;

    const FAIRNESS: usize = Settings::QUEUES + Queues::LENGTH;

    const SITE: usize = Settings::FAIRNESS + Fairness::LENGTH;

    pub const LENGTH: usize = Settings::SITE + Site::LENGTH;

    pub const WORDS: usize = Settings::LENGTH / WORD;

    // The settings whose words stand in `s` from `at` on.
    pub fn read(s: &[u8], at: usize) -> Settings
        requires { at + settings_length ≤ length s.now }
        ensures { result ≡ settings_at s.now at }
    {
        Settings {
            address: Address::read(s, at),
            ringlet: wire::get32(s, at + Settings::RINGLET),
            mtu: wire::get32(s, at + Settings::MTU),
            shapers: Shapers::read(s, at + Settings::SHAPERS),
            queues: Queues::read(s, at + Settings::QUEUES),
            fairness: Fairness::read(s, at + Settings::FAIRNESS),
            site: Site::read(s, at + Settings::SITE),
        }
    }

    // Writes the words of the settings to `s` from `at` on.
    pub fn write(self, s: &mut [u8], at: usize)
        requires { at + settings_length ≤ length s.old }
        ensures { s.new ≡ put s.old at (settings_bytes self) }
    {
        self.address.write(s, at);
        wire::put32(s, at + Settings::RINGLET, self.ringlet);
        wire::put32(s, at + Settings::MTU, self.mtu);
        self.shapers.write(s, at + Settings::SHAPERS);
        self.queues.write(s, at + Settings::QUEUES);
        self.fairness.write(s, at + Settings::FAIRNESS);
        self.site.write(s, at + Settings::SITE);
    }
}

impl Address {
    const LENGTH: usize = 2 * WORD;

    // The address whose words stand in `s` from `at` on.
    fn read(s: &[u8], at: usize) -> Address
        requires { at + address_length ≤ length s.now }
        ensures { result ≡ address_at s.now at }
    {
        let [high, low] = wire::read_words::<2>(s, at);
        Address { high, low }
    }

    // Writes the words of an address to `s` from `at` on.
    fn write(self, s: &mut [u8], at: usize)
        requires { at + address_length ≤ length s.old }
        ensures { s.new ≡ put s.old at (address_bytes self) }
    {
        wire::write_words([self.high, self.low], s, at);
    }
}

impl Bucket {
    const LENGTH: usize = 3 * WORD;

    // The shaper's settings whose words stand in `s` from `at` on.
    fn read(s: &[u8], at: usize) -> Bucket
        requires { at + bucket_length ≤ length s.now }
        ensures { result ≡ bucket_at s.now at }
    {
        let [lo, hi, amount] = wire::read_words::<3>(s, at);
        Bucket { lo, hi, amount }
    }

    // Writes the words of a shaper's settings to `s` from `at` on.
    fn write(self, s: &mut [u8], at: usize)
        requires { at + bucket_length ≤ length s.old }
        ensures { s.new ≡ put s.old at (bucket_bytes self) }
    {
        wire::write_words([self.lo, self.hi, self.amount], s, at);
    }
}

impl Shapers {
    const LENGTH: usize = 5 * Bucket::LENGTH;

    // The shapers' settings whose words stand in `s` from `at` on.
    fn read(s: &[u8], at: usize) -> Shapers
        requires { at + shapers_length ≤ length s.now }
        ensures { result ≡ shapers_at s.now at }
    {
        Shapers {
            m: Bucket::read(s, at),
            a: Bucket::read(s, at + 12),
            b: Bucket::read(s, at + 24),
            c: Bucket::read(s, at + 36),
            d: Bucket::read(s, at + 48),
        }
    }

    // Writes the words of the shapers' settings to `s` from `at` on.
    fn write(self, s: &mut [u8], at: usize)
        requires { at + shapers_length ≤ length s.old }
        ensures { s.new ≡ put s.old at (shapers_bytes self) }
    {
        self.m.write(s, at);
        self.a.write(s, at + 12);
        self.b.write(s, at + 24);
        self.c.write(s, at + 36);
        self.d.write(s, at + 48);
    }
}

impl Queues {
    const LENGTH: usize = 4 * WORD;

    // The queues' settings whose words stand in `s` from `at` on.
    fn read(s: &[u8], at: usize) -> Queues
        requires { at + queues_length ≤ length s.now }
        ensures { result ≡ queues_at s.now at }
    {
        let [control, primary, secondary, threshold] = wire::read_words::<4>(s, at);
        Queues {
            control,
            primary,
            secondary,
            threshold,
        }
    }

    // Writes the words of the queues' settings to `s` from `at` on.
    fn write(self, s: &mut [u8], at: usize)
        requires { at + queues_length ≤ length s.old }
        ensures { s.new ≡ put s.old at (queues_bytes self) }
    {
        wire::write_words(
            [self.control, self.primary, self.secondary, self.threshold],
            s,
            at,
        );
    }
}

impl Fairness {
    const LENGTH: usize = 7 * WORD;

    // The fairness settings whose words stand in `s` from `at` on.
    fn read(s: &[u8], at: usize) -> Fairness
        requires { at + fairness_length ≤ length s.now }
        ensures { result ≡ fairness_at s.now at }
    {
        let [weight, unit, ticks, unreserved, age, lp, ramp] = wire::read_words::<7>(s, at);
        Fairness {
            weight,
            unit,
            ticks,
            unreserved,
            age,
            lp,
            ramp,
        }
    }

    // Writes the words of the fairness settings to `s` from `at` on.
    fn write(self, s: &mut [u8], at: usize)
        requires { at + fairness_length ≤ length s.old }
        ensures { s.new ≡ put s.old at (fairness_bytes self) }
    {
        wire::write_words(
            [
                self.weight,
                self.unit,
                self.ticks,
                self.unreserved,
                self.age,
                self.lp,
                self.ramp,
            ],
            s,
            at,
        );
    }
}

impl Site {
    const LENGTH: usize = 4 * WORD;

    // The settings of the site whose words stand in `s` from `at` on.
    fn read(s: &[u8], at: usize) -> Site
        requires { at + site_length ≤ length s.now }
        ensures { result ≡ site_at s.now at }
    {
        let [stations, method, trip, down] = wire::read_words::<4>(s, at);
        Site {
            stations,
            method,
            trip,
            down,
        }
    }

    // Writes the words of the site's settings to `s` from `at` on.
    fn write(self, s: &mut [u8], at: usize)
        requires { at + site_length ≤ length s.old }
        ensures { s.new ≡ put s.old at (site_bytes self) }
    {
        wire::write_words([self.stations, self.method, self.trip, self.down], s, at);
    }
}
