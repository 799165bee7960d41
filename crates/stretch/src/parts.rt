// The parts of which a stretch is put together, and where it parts.
ghost use Rattle.std.specs.Prelude.{◌≡◌, ◌+◌, ◌-◌, ◌*◌, ◌≤◌, ◌<◌, [], length};
ghost use Rattle.decide.specs.Test.{Holds};
ghost use Rattle.shaper.specs.Limits.{limits_ok, most_events};
ghost use Rattle.index.specs.Tree.{top_level, index_length, from_of, to_of};
ghost use Rattle.stretch.specs.Found.{source_of, found_in, and_found, entry_found, part_found, Asking};
ghost use Rattle.stretch.specs.Parting.{Parted, covers_of};

use crate::Found;
use shaper::Limits;
use summary::Summary;

// How many events a block has.
const BLOCK: u64 = index::BLOCK;

// Where two blocks part: m is a block so that the earlier one is among the h blocks before it, and the later one among the h from it on.
#[derive(Clone, Copy)]
pub struct Middle {
    pub m: u64,
    pub h: u64,
}

// Where two blocks part, by halving both until they are a pair.
pub(crate) fn parted_at(x: u64, y: u64) -> Middle
    requires { (x < y) × (y < 4096) }
    ensures { Parted x y result.m result.h }
{
    let mut a = x;
    let mut b = y;
    let mut h: u64 = 1;
    while a / 2 != b / 2 {
        a = a / 2;
        b = b / 2;
        h = h * 2;
    }
    Middle { m: b * h, h }
}

// Whether a stretch of n events is just what the entry covers that parts before block m, h blocks on each side.
pub(crate) fn covers(n: u64, m: u64, h: u64, first: u64, last: u64) -> bool
    requires { (h ≤ m) × (m ≤ 4096) × (n ≤ most_events) }
    ensures { result ≡ covers_of n m h first last }
{
    (first == BLOCK * (m - h)) & (last == decide::lesser(BLOCK * (m + h), n))
}

// A stretch of one block x: its entry, where all of the block is asked for, and else what is read of it.
pub(crate) fn block_found(
    s: &[u8],
    index: &[u8],
    limits: Limits,
    n: u64,
    x: u64,
    first: u64,
    last: u64,
) -> Found
    requires { Asking limits index.now n first last × (from_of x ≤ first) × (last ≤ from_of x + 256) }
    ensures { result ≡ found_in (source_of limits s.now index.now n) first last top_level 0 }
{
    let from = BLOCK * x;
    if (first == from) & (last == decide::lesser(from + BLOCK, n)) {
        return entry_found(index, limits, 2 * x, last - first);
    }
    part_found(s, index, limits, x, first - from, last - from)
}

// The summary of an entry that covers so many events, where it is in range.
pub(crate) fn entry_found(index: &[u8], limits: Limits, entry: u64, events: u64) -> Found
    requires { (40 * entry + 40 ≤ length index.now) × (entry ≤ most_events) }
    ensures { result ≡ entry_found (source_of limits [] index.now 0) entry events }
{
    let sum = index::entries::summary_at(index, index::ENTRY * entry as usize, limits);
    if sum.events as u64 != events {
        return Found::Outside;
    }
    if !sum.in_range() {
        return Found::Outside;
    }
    Found::Sum(sum)
}

// The summary of some events of a block, behind those that are skipped, read from the block's first event on; or the earliest fault there.
fn part_found(s: &[u8], index: &[u8], limits: Limits, x: u64, skipped: u64, count: u64) -> Found
    requires { Holds (limits_ok limits) × (80 * x + 40 ≤ length index.now) × (x ≤ most_events) × (skipped ≤ count) × (count ≤ 256) }
    ensures { result ≡ part_found (source_of limits s.now index.now 0) x skipped count }
{
    let place = index::entries::place_at(index, 80 * x as usize);
    match excerpt::part(s, limits, place, skipped) {
        Ok(before) => match excerpt::part(s, limits, before.next, count - skipped) {
            Ok(part) => Found::Sum(part.sum),
            Err(fault) => Found::Faulty(fault),
        },
        Err(fault) => Found::Faulty(fault),
    }
}

// One part and then the next: a fault of either, the first's before the second's; then an entry out of range; else both, joined.
pub(crate) fn and_found(left: Found, right: Found) -> Found
    ensures { result ≡ and_found left right }
{
    match left {
        Found::Nothing => right,
        Found::Faulty(fault) => Found::Faulty(fault),
        Found::Outside => outside_and(right),
        Found::Sum(sum) => sum_and(sum, right),
    }
}

// The same behind an entry that is out of range.
fn outside_and(right: Found) -> Found
    ensures { result ≡ and_found Found.Outside right }
{
    match right {
        Found::Nothing => Found::Outside,
        Found::Faulty(fault) => Found::Faulty(fault),
        Found::Outside => Found::Outside,
        Found::Sum(_) => Found::Outside,
    }
}

// The same behind a summary.
fn sum_and(sum: Summary, right: Found) -> Found
    ensures { result ≡ and_found (Found.Sum sum) right }
{
    match right {
        Found::Nothing => Found::Sum(sum),
        Found::Faulty(fault) => Found::Faulty(fault),
        Found::Outside => Found::Outside,
        Found::Sum(next) => match sum.join(next) {
            Ok(both) => Found::Sum(both),
            Err(_) => Found::Outside,
        },
    }
}
