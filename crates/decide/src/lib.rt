// Small choices between numbers, and the test of hops against the ring. What else this crate holds are definitions and laws: tests that read two
// ways (specs/Test.antt) and which of several refusals counts (specs/Refusal.antt).
#![tactic(auto)]

ghost use Rattle.std.specs.Prelude.{◌≡◌, ◌-◌, ◌<◌, min, max, ltb};
ghost use Rattle.decide.specs.Test.{test};
ghost use Rattle.decide.specs.Hops.{in_ring};

mod refusal;

pub use refusal::Refusal;

// The smaller of two numbers.
pub fn lesser(x: u64, y: u64) -> u64
    ensures { result ≡ min x y }
{
    x.min(y)
}

// The larger of two numbers.
pub fn larger(x: u64, y: u64) -> u64
    ensures { result ≡ max x y }
{
    x.max(y)
}

// What is left of x when y is taken off, and 0 where y is larger.
pub fn less(x: u64, y: u64) -> u64
    ensures { result ≡ x - y }
{
    x.saturating_sub(y)
}

// Whether a is below b, by a comparison of signed numbers: for several pairs of 32 bits side by side every processor has that one.
pub fn below(a: u32, b: u32) -> bool
    requires { (a < 2147483648) × (b < 2147483648) }
    ensures { result ≡ ltb a b }
{
    (a as i32) < (b as i32)
}

// Whether so many hops stay within a ring of so many stations. Client, transit and fairness frames and a received ttl are tested here; a frame that is held is
// tested by its word, in `queue::word_ok`.
pub fn in_ring(stations: u32, hops: u32) -> bool
    ensures { result ≡ test (in_ring stations hops) }
{
    hops < stations
}
