// The arithmetic of the fairness rates. Products and stored numbers are of 64 bits, and what is divided by 0 gives 0. Every public function but `smoothed`, whose sum
// must fit, takes any numbers.
#![tactic(auto)]

ghost use Rattle.std.specs.Prelude.{◌≡◌, ◌≢◌, ℕ, ◌+◌, ◌/◌, ◌^◌, ◌<◌};
ghost use Rattle.decide.specs.Test.{test};
ghost use Rattle.rates.specs.Rates.{part_of, smoothed_of, shown_of, shown_ok_of, aged_of, ramped_of, reduced_of, allowance_of, own_rate_of, counted_of, share_of};

// The largest number that a counter holds.
const MOST_COUNTED: u64 = 2147483647;

// The first number above every rate.
const ABOVE_RATES: u64 = 2147483648;

// The largest own rate: 65,535 is FULL_RATE.
const MOST_OWN: u64 = 65534;

// x divided by a coefficient (ageCoef, lpCoef, rampUp or rampDn) and rounded down: by a shift where the coefficient is a power of two, as each in range is, and the long way
// where it is not. Neither has a divide.
pub fn part(x: u64, coef: u32) -> u64
    ensures { result ≡ part_of x coef }
{
    let places = coef.trailing_zeros() as u64;
    if 1u64 << places == coef as u64 {
        x >> places
    } else {
        long_quotient(x, coef)
    }
}

// What is stored for a smoothed rate after an interval, from lpCoef, what was stored and the rate's counter.
pub fn smoothed(coef: u32, stored: u64, rate: u32) -> u64
    requires { stored + rate < 2 ^ 64 }
    ensures { result ≡ smoothed_of coef stored rate }
{
    stored - shown(coef, stored) + rate as u64
}

// The smoothed rate that a stored number stands for.
#[tactic(auto, unfolding(crate::specs::Rates::shown_of))]
pub fn shown(coef: u32, stored: u64) -> u64
    ensures { result ≡ shown_of coef stored }
{
    part(stored, coef)
}

// Whether the smoothed rate that a stored number stands for is in its range, told without a divide. By 0 the rate is 0.
pub fn shown_ok(coef: u32, stored: u64) -> bool
    ensures { result ≡ test (shown_ok_of coef stored) }
{
    (stored < coef as u64 * ABOVE_RATES) | (coef == 0)
}

// A counter after an interval, by ageCoef.
#[tactic(auto, using(crate::proofs::Bounds::aged_within), unfolding(crate::specs::Rates::aged_of))]
pub fn aged(counter: u32, coef: u32) -> u32
    ensures { result ≡ aged_of counter coef }
{
    let kept = counter as u64 * decide::less(coef as u64, 1);
    part(kept, coef) as u32
}

// An allowed rate after an interval without congestion, or localFairRate after a step up: one step nearer to unreservedRate, by rampUp.
#[tactic(auto, using(crate::proofs::Bounds::part_le))]
pub fn ramped(value: u32, unreserved: u32, coef: u32) -> u32
    ensures { result ≡ ramped_of value unreserved coef }
{
    let distance = decide::less(unreserved as u64, value as u64);
    value + part(distance, coef) as u32
}

// localFairRate after a step down: less its part by rampDn.
#[tactic(auto, using(crate::proofs::Bounds::part_le), unfolding(crate::specs::Rates::reduced_of))]
pub fn reduced(rate: u32, coef: u32) -> u32
    ensures { result ≡ reduced_of rate coef }
{
    rate - part(rate as u64, coef) as u32
}

// The rate that a received one allows to frames which pass the congested station, for a station of this weight and rate unit.
pub fn allowance(received: u32, weight: u32, unit: u32, unreserved: u32) -> u32
    ensures { result ≡ allowance_of received weight unit unreserved }
{
    // More than 32 bits of a factor make no difference: no rate is above 32 bits.
    let factor = decide::lesser(weight as u64 * unit as u64, u32::MAX as u64);
    decide::lesser(unreserved as u64, received as u64 * factor) as u32
}

// The rate that a station advertises for itself, from localFairRate, its weight and its rate unit.
#[tactic(auto, unfolding(crate::specs::Rates::own_rate_of))]
pub fn own_rate(local: u32, weight: u32, unit: u32) -> u16
    ensures { result ≡ own_rate_of local weight unit }
{
    let rate = quotient(local as u64, weight as u64 * unit as u64);
    decide::lesser(rate, MOST_OWN) as u16
}

// A counter after a frame of this size.
#[tactic(auto, unfolding(crate::specs::Rates::counted_of))]
pub fn counted(counter: u32, size: u32) -> u32
    ensures { result ≡ counted_of counter size }
{
    decide::lesser(counter as u64 + size as u64, MOST_COUNTED) as u32
}

// What a tick may give to shaper C of allowedRate, by ageCoef and the ticks of an interval.
#[tactic(auto, unfolding(crate::specs::Rates::share_of))]
pub fn share(allowed: u32, coef: u32, ticks: u32) -> u32
    ensures { result ≡ share_of allowed coef ticks }
{
    quotient(allowed as u64, coef as u64 * ticks as u64) as u32
}

// x divided by a y that is no power of two, and rounded down: y goes into x twice as often as into half of it, or once more. Where y is 0 it is 0.
fn long_quotient(x: u64, y: u32) -> u64
    requires { (k : ℕ) → 2 ^ k ≢ y }
    ensures { result ≡ x / y }
{
    if y == 0 {
        return 0;
    }
    let by = y as u64;
    if x < by {
        return 0;
    }
    let twice = 2 * long_quotient(x >> 1, y);
    if x - twice * by < by {
        twice
    } else {
        twice + 1
    }
}

// x divided by y and rounded down, and 0 where y is 0.
fn quotient(x: u64, y: u64) -> u64
    ensures { result ≡ x / y }
{
    if y == 0 { 0 } else { x / y }
}
