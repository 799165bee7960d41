// The frames of a station and the credits that let them go: five shapers, three queues and the stage. Settings are lent to each call
// that needs them, and a call answers the flow afterwards, or a refusal: then the flow stays as it was.
#![tactic(auto)]

ghost use Rattle.std.specs.Prelude.{◌≡◌, min};
ghost use Rattle.decide.specs.Test.{test};
ghost use Rattle.shaper.specs.Credit.{next};
ghost use Rattle.shaper.specs.Credit as shaper;
ghost use Rattle.settings.specs.Range.{limits_of};
ghost use Rattle.flow.specs.Parts.{queue_of, bounds_of, stage_holds, with_queue};
ghost use Rattle.flow.specs.Range.{stage_ok, flow_ok};
ghost use Rattle.flow.specs.Tick.{start_of, tick_of};

mod leaving;
mod offers;

use credits::Credits;
use queue::{Bounds, Queue};
use settings::{Bucket, Settings};
use shaper::Shaper;

// The credits, the queues, and the word of the frame in the stage: the word of an empty slot where there is none.
#[derive(Clone, Copy)]
pub struct Flow {
    pub credits: Credits,
    pub control: Queue,
    pub primary: Queue,
    pub secondary: Queue,
    pub stage: u32,
}

// Which queue.
#[derive(Clone, Copy)]
pub enum Line {
    Control,
    Primary,
    Secondary,
}

// A client's frame that was taken: the mark that it was given, and the flow afterwards.
#[derive(Clone, Copy)]
pub struct Client {
    pub mark: u32,
    pub flow: Flow,
}

impl Flow {
    // A flow at its start: credits at loLimit, no frame anywhere.
    pub fn start(settings: Settings) -> Flow
        ensures { result ≡ start_of settings }
    {
        let shapers = settings.shapers;
        let credits = Credits {
            m: shapers.m.lo,
            a: shapers.a.lo,
            b: shapers.b.lo,
            c: shapers.c.lo,
            d: shapers.d.lo,
        };
        let empty = Queue::empty();
        Flow {
            credits,
            control: empty,
            primary: empty,
            secondary: empty,
            stage: queue::EMPTY,
        }
    }

    // Whether each credit, each queue and the stage is in its range under these settings.
    pub fn in_range(self, settings: Settings) -> bool
        ensures { result ≡ test (flow_ok settings self) }
    {
        let bounds = bounds(settings);
        let room = settings.queues;
        let credits = self.credits;
        let control = self.control;
        let primary = self.primary;
        let secondary = self.secondary;
        credits.in_range(settings)
            & control.in_range(bounds, room.control)
            & primary.in_range(bounds, room.primary)
            & secondary.in_range(bounds, room.secondary)
            & stage_ok(bounds, self.stage)
    }

    // The flow after a tick. The host says whether A, B and C traffic waits; share is what the allowed rate gives C for one tick.
    pub fn tick(self, settings: Settings, share: u32, a: bool, b: bool, c: bool) -> Flow
        ensures { result ≡ tick_of settings self share a b c }
    {
        let mtu = settings.mtu;
        let shapers = settings.shapers;
        let old = self.credits;
        let control = self.control.holds_frame();
        let more = b | c;
        let behind = self.stage_holds() | self.secondary.holds_frame();
        let amount = amount_c(shapers.c.amount, share);
        let credits = Credits {
            m: ticked(shapers.m, mtu, old.m, control, shapers.m.amount),
            a: ticked(shapers.a, mtu, old.a, a, shapers.a.amount),
            b: ticked(shapers.b, mtu, old.b, b, shapers.b.amount),
            c: ticked(shapers.c, mtu, old.c, more, amount),
            d: ticked(shapers.d, mtu, old.d, more | behind, shapers.d.amount),
        };
        let mut next = self;
        next.credits = credits;
        next
    }

    // Whether the stage holds a frame.
    pub fn stage_holds(self) -> bool
        ensures { result ≡ stage_holds self }
    {
        queue::EMPTY < self.stage
    }

    // One of the queues.
    fn queue(self, line: Line) -> Queue
        ensures { result ≡ queue_of self line }
    {
        match line {
            Line::Control => self.control,
            Line::Primary => self.primary,
            Line::Secondary => self.secondary,
        }
    }

    // The flow with one queue anew.
    fn with_queue(self, line: Line, queue: Queue) -> Flow
        ensures { result ≡ with_queue self line queue }
    {
        let mut next = self;
        match line {
            Line::Control => {
                next.control = queue;
                next
            }
            Line::Primary => {
                next.primary = queue;
                next
            }
            Line::Secondary => {
                next.secondary = queue;
                next
            }
        }
    }
}

// What the frames of a station are held to.
pub fn bounds(settings: Settings) -> Bounds
    ensures { result ≡ bounds_of settings }
{
    Bounds {
        mtu: settings.mtu,
        stations: settings.site.stations,
    }
}

// Whether a stage is empty or holds a frame that may be held.
pub fn stage_ok(bounds: Bounds, word: u32) -> bool
    ensures { result ≡ test (stage_ok bounds word) }
{
    (word == queue::EMPTY) | queue::word_ok(bounds, word)
}

// A credit after a tick.
fn ticked(bucket: Bucket, mtu: u32, credit: u32, waiting: bool, amount: u32) -> u32
    ensures { result ≡ next (limits_of mtu bucket) credit (shaper.tick_of waiting amount) }
{
    let limits = bucket.limits(mtu);
    let before = Shaper { limits, credit };
    let after = before.tick(waiting, amount);
    after.credit
}

// C's amount: the smaller of its setting and its share of the allowed rate.
fn amount_c(amount: u32, share: u32) -> u32
    ensures { result ≡ min amount share }
{
    decide::lesser(amount as u64, share as u64) as u32
}
