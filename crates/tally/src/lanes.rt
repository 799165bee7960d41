// Parts of eight events: each is made on its own, from a level of its own, with no branch on what its events hold; then a tally goes over them, one part at a time.
ghost use Rattle.std.specs.Prelude.{◌≡◌, cond, ◌≤◌, ◌<◌};
ghost use Rattle.shaper.specs.Limits.{most_amount, most_events};
ghost use Rattle.tally.specs.Tally.{Within};
ghost use Rattle.tally.specs.Part.{none_part, grow_of, Roomy, PartsFit, over_of};

use crate::{Part, Parts, Tally, bar};

// How far above hiLimit - loLimit the level of a part begins, 2^20: eight events take less off it.
const ROOM: u32 = 1048576;

// The low of a part in which nothing was sent: above every level.
const UNSENT: u32 = 16777216;

impl Part {
    // The part of no event; rise is hiLimit - loLimit.
    pub fn none(rise: u32) -> Self
        requires { rise ≤ 1048576 }
        ensures { result ≡ none_part rise }
    {
        Self {
            total: 0,
            level: rise + ROOM,
            top: 0,
            low: UNSENT,
            good: true,
        }
    }

    // The part after one event more: a send, or a tick that cuts to loLimit where it is idle. A send is held against the level, or against 0 where it comes too late.
    pub fn grow(self, rise: u32, send: bool, idle: bool, v: u32, good: bool) -> Self
        requires { Roomy rise self × (rise ≤ 1048576) × (v ≤ most_amount) }
        ensures { result ≡ grow_of rise send idle v good self }
    {
        let bar = choose(decide::below(self.top, self.level), self.level, 0);
        let low = choose(send & decide::below(bar, self.low), bar, self.low);
        let level = choose(send, self.level - v, self.level + v);
        let cut = level - choose(idle, 0, rise);
        let top = choose(decide::below(self.top, cut), cut, self.top);
        Self {
            total: self.total + v,
            level,
            top,
            low,
            good: self.good & good,
        }
    }
}

impl Tally {
    // The tally after eight parts that stand one behind the other: eight turns for 64 events. On the way `base` is the level less that at which a part begins, and
    // `peak` is the peak less rise: a part whose low lies there or below holds a send that comes too late. `late` is how many do: one is enough for a low of 0 (`bar`).
    // The sum with which a part begins is made in 32 bits: so the compiler keeps it as one number.
    pub fn over(self, rise: u32, parts: Parts) -> Self
        requires { Within most_events self × PartsFit parts × (rise ≤ 1048576) }
        ensures { result ≡ over_of rise self parts }
    {
        let begin = (rise + ROOM) as u64;
        let mut base = self.level - begin;
        let mut peak = self.peak - rise as u64;
        let mut low = self.low;
        let mut late: u64 = 0;
        for i in 0..8 {
            let there = base + parts.lows[i] as u64;
            low = decide::lesser(there, low);
            late += (there <= peak) as u64;
            peak = decide::larger(peak, base + parts.tops[i] as u64);
            base = base + parts.levels[i] as u64 - begin;
        }
        let level = base + begin;
        let gained = decide::less(parts.total as u64 + level, self.level) / 2;
        Self {
            accrued: self.accrued + gained,
            level,
            peak: peak + rise as u64,
            low: bar(1, late, low),
        }
    }
}

// The first number or the second.
fn choose(first: bool, a: u32, b: u32) -> u32
    ensures { result ≡ cond first a b }
{
    if first { a } else { b }
}
