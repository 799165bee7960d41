// The fairness state as numbers with the least byte first: the counters, the stored numbers of the smoothed rates (8 bytes each), what intervals decide, the intervals since a
// change of localFairRate, what was received.
ghost use Rattle.std.specs.Prelude.{◌≡◌, ◌+◌, ◌≤◌, length};
ghost use Rattle.decide.specs.Test.{test};
ghost use Rattle.wire.specs.Wire.{put};
ghost use Rattle.fair.specs.Range.{fair_ok};
ghost use Rattle.wire.specs.Words.{words_bytes};
ghost use Rattle.layout.specs.Layout.{four_length, stored_length, decided_length, received_length, fair_length};
ghost use Rattle.layout.specs.Layout.{four_at, stored_at, decided_at, received_at, fair_at};
ghost use Rattle.layout.specs.Layout.{four_words, stored_bytes, decided_words, received_words, fair_bytes};

use fair::{Decided, Fair, Four, Stored};
use heard::Received;
use settings::Settings;

// Where the parts stand behind the counters, each behind the one before, and how many bytes they take together.
const SMOOTHED: usize = 16;

const DECIDED: usize = SMOOTHED + 32;

const SINCE: usize = DECIDED + 20;

const RECEIVED: usize = SINCE + 4;

pub const LENGTH: usize = RECEIVED + 20;

// The fairness state that stands in `s` from `at` on.
pub fn read(s: &[u8], at: usize) -> Fair
    requires { at + fair_length ≤ length s.now }
    ensures { result ≡ fair_at s.now at }
{
    Fair {
        counters: read_four(s, at),
        smoothed: read_stored(s, at + SMOOTHED),
        decided: read_decided(s, at + DECIDED),
        since: wire::get32(s, at + SINCE),
        received: read_received(s, at + RECEIVED),
    }
}

// Whether that state is in its range under these settings.
pub fn in_range_at(s: &[u8], at: usize, settings: Settings) -> bool
    requires { at + fair_length ≤ length s.now }
    ensures { result ≡ test (fair_ok settings (fair_at s.now at)) }
{
    read(s, at).in_range(settings)
}

// Writes the fairness state to `s` from `at` on.
pub fn write(f: Fair, s: &mut [u8], at: usize)
    requires { at + fair_length ≤ length s.old }
    ensures { s.new ≡ put s.old at (fair_bytes f) }
{
    write_four(f.counters, s, at);
    write_stored(f.smoothed, s, at + SMOOTHED);
    write_decided(f.decided, s, at + DECIDED);
    wire::put32(s, at + SINCE, f.since);
    write_received(f.received, s, at + RECEIVED);
}

// The four rates whose words stand in `s` from `at` on.
fn read_four(s: &[u8], at: usize) -> Four
    requires { at + four_length ≤ length s.now }
    ensures { result ≡ four_at s.now at }
{
    let [add, fw, addc, fwc] = wire::read_words::<4>(s, at);
    Four { add, fw, addc, fwc }
}

// Writes the words of four rates to `s` from `at` on.
pub fn write_four(r: Four, s: &mut [u8], at: usize)
    requires { at + four_length ≤ length s.old }
    ensures { s.new ≡ put s.old at (words_bytes (four_words r)) }
{
    wire::write_words([r.add, r.fw, r.addc, r.fwc], s, at);
}

// The four stored numbers that stand in `s` from `at` on. They are the only ones of 8 bytes, so no `read_words` for such numbers would be plainer.
fn read_stored(s: &[u8], at: usize) -> Stored
    requires { at + stored_length ≤ length s.now }
    ensures { result ≡ stored_at s.now at }
{
    Stored {
        add: wire::get64(s, at),
        fw: wire::get64(s, at + 8),
        addc: wire::get64(s, at + 16),
        fwc: wire::get64(s, at + 24),
    }
}

// Writes four stored numbers to `s` from `at` on.
fn write_stored(n: Stored, s: &mut [u8], at: usize)
    requires { at + stored_length ≤ length s.old }
    ensures { s.new ≡ put s.old at (stored_bytes n) }
{
    wire::put64(s, at, n.add);
    wire::put64(s, at + 8, n.fw);
    wire::put64(s, at + 16, n.addc);
    wire::put64(s, at + 24, n.fwc);
}

// What intervals decide, as its words in `s` from `at` on say.
fn read_decided(s: &[u8], at: usize) -> Decided
    requires { at + decided_length ≤ length s.now }
    ensures { result ≡ decided_at s.now at }
{
    let [local, allowed, allowedc, own, congested] = wire::read_words::<5>(s, at);
    Decided {
        local,
        allowed,
        allowedc,
        own,
        congested,
    }
}

// Writes what intervals decide to `s` from `at` on: localFairRate, both allowed rates, own rate, local congestion.
pub fn write_decided(d: Decided, s: &mut [u8], at: usize)
    requires { at + decided_length ≤ length s.old }
    ensures { s.new ≡ put s.old at (words_bytes (decided_words d)) }
{
    wire::write_words([d.local, d.allowed, d.allowedc, d.own, d.congested], s, at);
}

// What was received, as its words in `s` from `at` on say.
fn read_received(s: &[u8], at: usize) -> Received
    requires { at + received_length ≤ length s.now }
    ensures { result ≡ received_at s.now at }
{
    let [downstream, ttl, high, low, rate] = wire::read_words::<5>(s, at);
    Received {
        downstream,
        ttl,
        high,
        low,
        rate,
    }
}

// Writes what was received to `s` from `at` on: congestion downstream, ttl, the high 16 and the low 32 bits of the address, rate.
pub fn write_received(r: Received, s: &mut [u8], at: usize)
    requires { at + received_length ≤ length s.old }
    ensures { s.new ≡ put s.old at (words_bytes (received_words r)) }
{
    wire::write_words([r.downstream, r.ttl, r.high, r.low, r.rate], s, at);
}
