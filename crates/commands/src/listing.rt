// The second reading of `rpr compare`: the pages of two files, and both summaries.
ghost use Rattle.std.specs.Prelude.{◌≡◌, ◌≤◌, length};

use crate::pairs::{Both, Reading, WINDOW};
use apart::{Place, Printed, Side, Stand, Walk, together};
use console::status::{Status, same_status};
use console::tell::Said;
use console::{Host, tell};
use feed::{Feed, Stage};
use std::io::{Read, Seek};
use summary::Summary;

// The most rounds of a listing: 200 pages are full, and behind each other page a window of either file is read, 201 of each at most.
const ROUNDS: u32 = 700;

// The bytes of the room for a page.
const PAGE: usize = 440000;

// What two files came to when they were tested.
#[derive(Clone, Copy)]
pub struct Sums {
    pub first: Summary,
    pub second: Summary,
}

// What is read behind a page: of either file none, or more, with the window's bytes from a place on kept.
#[derive(Clone, Copy)]
struct Next {
    first: Option<usize>,
    second: Option<usize>,
}

// The second reading: page after page, each written before more is read, and both summaries in the end. The records are the same where their settings are and nothing is
// listed.
pub fn list<F: Read + Seek>(
    rt: &impl Host,
    both: &mut Both<'_, F>,
    sums: Sums,
) -> Result<Status, Said> {
    apart::print_opening(rt, sums.first.limits, sums.second.limits).map_err(|why| tell::unwritten(
        rt, why,
    ))?;
    both.rewind();
    let mut room = [0u8; PAGE];
    let mut walk = at_first();
    let mut same = sums.first.limits.same(sums.second.limits);
    let mut next = Next {
        first: Some(WINDOW),
        second: Some(WINDOW),
    };
    for _ in 0..ROUNDS {
        read(rt, both, next, sums)?;
        let page = page(rt, both, walk, sums, &mut room);
        page.written.map_err(|why| tell::unwritten(rt, why))?;
        same &= page.empty;
        walk = page.walk;
        let Some(wanted) = wanted(both, walk, sums) else {
            return finish(rt, sums, same);
        };
        next = wanted;
        comes(rt, both, next)?;
        walk = kept(walk, next);
    }
    Ok(Status::Trouble)
}

// The walk from the first event of each file on, behind its header of 14 bytes.
fn at_first() -> Walk {
    let place = Place { at: 14, gone: 0 };
    Walk {
        first: place,
        second: place,
        position: 0,
    }
}

// Reads on in both files; or says that one could not be read, or is not what it was at the first reading, as far as can be seen: that it has a fault, or does not come to the same
// where it ends.
fn read<F: Read + Seek>(
    rt: &impl Host,
    both: &mut Both<'_, F>,
    next: Next,
    sums: Sums,
) -> Result<(), Said> {
    let read = both.further(next.first, next.second);
    read.map_err(|lost| both.say(rt, lost))?;
    as_before(rt, &both.first, both.fed.first, sums.first)?;
    as_before(rt, &both.second, both.fed.second, sums.second)
}

// Says so where what was read of a file cannot come to this summary, or does not where the file has ended.
fn as_before<F: Read + Seek>(
    rt: &impl Host,
    file: &Reading<'_, F>,
    fed: Feed,
    sum: Summary,
) -> Result<(), Said> {
    let same = if file.has_ended() {
        window::same_answer(fed.finish(), Ok(sum))
    } else {
        !fed.ends()
    };
    if same {
        Ok(())
    } else {
        Err(changed(rt, file.name))
    }
}

fn changed(rt: &impl Host, name: &[u8]) -> Said {
    tell::say(rt, name, b"changed while it was read")
}

// What is known of a file.
fn side<F: Read + Seek>(file: &Reading<'_, F>, sum: Summary) -> Side {
    Side {
        mtu: sum.limits.mtu,
        last: file.has_ended(),
    }
}

// Prints a page. Windows that are equal from equal places on list nothing: all their whole items are passed at once.
fn page<F: Read + Seek>(
    rt: &impl Host,
    both: &Both<'_, F>,
    walk: Walk,
    sums: Sums,
    room: &mut [u8],
) -> Printed {
    let w = both.first.bytes();
    let v = both.second.bytes();
    let p = walk.first;
    let q = walk.second;
    if p.at == q.at && p.gone == 0 && q.gone == 0 && window::alike(w, v) {
        return Printed {
            walk: behind(both.fed.first, w.len()),
            empty: true,
            written: Ok(()),
        };
    }
    let a = side(&both.first, sums.first);
    let b = side(&both.second, sums.second);
    apart::print_page(rt, w, v, a, b, walk, room)
}

// The walk behind the last whole item of equal windows of so many bytes: what is fed is all that was read, and what it holds stands behind that item.
fn behind(fed: Feed, length: usize) -> Walk {
    let place = Place {
        at: decide::less(length as u64, u64::from(fed.held)) as usize,
        gone: 0,
    };
    Walk {
        first: place,
        second: place,
        position: match fed.stage {
            Stage::Summing(sum) => u64::from(sum.events),
            Stage::Heading | Stage::Stopped(_) => 0,
        },
    }
}

// What comes behind a page, where not both files have ended: more of a file whose window has no whole item left is wanted, from there on.
fn wanted<F: Read + Seek>(both: &Both<'_, F>, walk: Walk, sums: Sums) -> Option<Next> {
    let a = side(&both.first, sums.first);
    let b = side(&both.second, sums.second);
    let one = together::stand(both.first.bytes(), walk.first, a);
    let two = together::stand(both.second.bytes(), walk.second, b);
    if matches!(one, Stand::Ended) && matches!(two, Stand::Ended) {
        return None;
    }
    Some(Next {
        first: matches!(one, Stand::Unread).then_some(walk.first.at),
        second: matches!(two, Stand::Unread).then_some(walk.second.at),
    })
}

// Says so where what is wanted cannot come: a file of which more is wanted, and which has ended, is not what it was.
fn comes<F: Read + Seek>(rt: &impl Host, both: &Both<'_, F>, next: Next) -> Result<(), Said> {
    if both.first.has_ended() && next.first.is_some() {
        return Err(changed(rt, both.first.name));
    }
    if both.second.has_ended() && next.second.is_some() {
        return Err(changed(rt, both.second.name));
    }
    Ok(())
}

// The walk in the windows that are read next: what is kept of one stands at its front.
fn kept(walk: Walk, next: Next) -> Walk {
    Walk {
        first: at_front(walk.first, next.first),
        second: at_front(walk.second, next.second),
        position: walk.position,
    }
}

fn at_front(place: Place, keep: Option<usize>) -> Place {
    Place {
        at: if keep.is_some() { 0 } else { place.at },
        gone: place.gone,
    }
}

// Prints both summaries: what both files came to at both readings.
fn finish(rt: &impl Host, sums: Sums, same: bool) -> Result<Status, Said> {
    apart::print_closing(rt, Ok(sums.first), Ok(sums.second)).map_err(|why| tell::unwritten(
        rt, why,
    ))?;
    Ok(same_status(same))
}
