// The summary of a stretch of a record's events, put together from its index: whole blocks and pairs by their entries, at most two blocks by reading part of them.
#![tactic(auto)]

ghost use Rattle.std.specs.Prelude.{◌≡◌, ◌+◌, ◌-◌, ◌*◌, ◌≤◌, ◌<◌, length, true};
ghost use Rattle.decide.specs.Test.{Holds};
ghost use Rattle.shaper.specs.Limits.{limits_ok, most_events};
ghost use Rattle.index.specs.Tree.{top_level, index_length, from_of, to_of};
ghost use Rattle.stretch.specs.Found.{source_of, found_in, and_found, entry_found, part_found};
ghost use Rattle.stretch.specs.Parting.{Parted};
ghost use Rattle.stretch.specs.Stretch.{is_header, length_ok, counted_of, asked_of, stretch_of};
ghost use Rattle.stretch.specs.Found.{Asking};

mod parts;

use decide::Refusal;
use parts::{and_found, block_found, covers, entry_found, parted_at};
use shaper::Limits;
use summary::Summary;

// How many events a block has.
const BLOCK: u64 = index::BLOCK;

// What a part of a stretch comes to: nothing where it is empty; the earliest fault of a partly read block; an entry that is out of range, which counts behind each fault; or its
// summary.
#[derive(Clone, Copy)]
pub enum Found {
    Nothing,
    Faulty(Refusal),
    Outside,
    Sum(Summary),
}

// The summary of the events from `first` to just before `last`, counted from 0, of a record with its index. 2, 1 and 9; then 3 for a stretch that runs past the end or backwards; then
// the earliest fault of the partly read blocks; then 3 for an entry used that is out of range.
pub fn stretch(s: &[u8], index: &[u8], first: u64, last: u64) -> Result<Summary, Refusal>
    ensures { result ≡ stretch_of s.now index.now first last }
{
    let header = record::header_of(s);
    if !is_header(header) {
        return Err(Refusal::NotWhole);
    }
    if !is_length(index.len()) {
        return Err(Refusal::NotWhole);
    }
    let counted = count_events(s, index)?;
    let limits = header?;
    match counted {
        Some(n) => asked(s, index, limits, n, first, last),
        None => Err(Refusal::TooMany),
    }
}

// Whether it is a header, its settings in range or not.
#[tactic(auto, unfolding(crate::specs::Stretch::is_header))]
fn is_header(header: Result<Limits, Refusal>) -> bool
    ensures { result ≡ is_header header }
{
    match header {
        Ok(_) => true,
        Err(fault) => fault.number() != 2,
    }
}

// Whether an index may have so many bytes: none, or 40 for each of an odd number of entries.
fn is_length(bytes: usize) -> bool
    ensures { result ≡ length_ok bytes }
{
    if bytes == 0 {
        return true;
    }
    bytes % 80 == 40
}

// How many blocks stand before the last, at most so many that no sum wraps: from there on a record has too many events, and no place is too far.
const MOST_BEFORE: u64 = 4294967296;

// How many events a record has, told by its index, which has a right length: 256 for each block but the last, and those that its place leads through to the record's end. None where
// they are more than there may be; 2 where the index is another record's.
fn count_events(s: &[u8], index: &[u8]) -> Result<Option<u64>, Refusal>
    requires { (14 ≤ length s.now) × (length_ok (length index.now) ≡ true) }
    ensures { result ≡ counted_of s.now index.now }
{
    if index.len() == 0 {
        if HEADER < s.len() {
            return Err(Refusal::NotWhole);
        }
        return Ok(Some(0));
    }
    let place = index::entries::place_at(index, 80 * (index.len() / 80));
    let before = BLOCK * decide::lesser(index.len() as u64 / 80, MOST_BEFORE);
    let left = excerpt::events_left(s, wire::get16(s, 4) as u32, place, BLOCK);
    if left == 0 {
        return Err(Refusal::NotWhole);
    }
    if BLOCK < left {
        return Err(Refusal::NotWhole);
    }
    if 14 + 6 * before < place.at as u64 + 6 * place.gone {
        return Err(Refusal::NotWhole);
    }
    if (Summary::MAX_EVENTS as u64) < before + left {
        return Ok(None);
    }
    Ok(Some(before + left))
}

// How many bytes a record's header has.
const HEADER: usize = 14;

// The answer of a record of n events, whose settings and whose index's length are right.
fn asked(
    s: &[u8],
    index: &[u8],
    limits: Limits,
    n: u64,
    first: u64,
    last: u64,
) -> Result<Summary, Refusal>
    requires { Holds (limits_ok limits) × (length index.now ≡ index_length n) × (n ≤ most_events) }
    ensures { result ≡ asked_of limits s.now index.now n first last }
{
    if last < first {
        return Err(Refusal::OutOfRange);
    }
    if n < last {
        return Err(Refusal::OutOfRange);
    }
    if first == last {
        return Summary::empty(limits);
    }
    match halved(s, index, limits, n, first, last) {
        Found::Nothing => Summary::empty(limits),
        Found::Faulty(fault) => Err(fault),
        Found::Outside => Err(Refusal::OutOfRange),
        Found::Sum(sum) => Ok(sum),
    }
}

// What a stretch that is not empty comes to: of one block its entry or what is read of it; else the entry that parts there, where it covers just the stretch, and else both halves, joined.
fn halved(s: &[u8], index: &[u8], limits: Limits, n: u64, first: u64, last: u64) -> Found
    requires { Asking limits index.now n first last }
    ensures { result ≡ found_in (source_of limits s.now index.now n) first last top_level 0 }
{
    let x = first / BLOCK;
    let y = (last - 1) / BLOCK;
    if x == y {
        return block_found(s, index, limits, n, x, first, last);
    }
    let middle = parted_at(x, y);
    let m = middle.m;
    if covers(n, m, middle.h, first, last) {
        return entry_found(index, limits, 2 * m - 1, last - first);
    }
    let left = halved(s, index, limits, n, first, BLOCK * m);
    let right = halved(s, index, limits, n, BLOCK * m, last);
    and_found(left, right)
}
