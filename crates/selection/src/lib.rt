// Selection: what goes next, by table 6.4, store and forward.
#![tactic(auto)]

ghost use Rattle.std.specs.Prelude.{◌≡◌, true};
ghost use Rattle.decide.specs.Test.{test};
ghost use Rattle.credits.specs.Which.{permits_of};
ghost use Rattle.flow.specs.Parts.{stage_holds};
ghost use Rattle.selection.specs.Select.{control_ready, needy, secondary_ready, origin_of, leaves, leaves_charged, leaves_stage, nothing_of};
ghost use Rattle.selection.specs.Pick.{sight_of, seen_in, front_at, pick_from, pick_of};

use credits::{Credits, Which};
use flow::{Flow, Line};
use queue::{Frame, Front};
use settings::Settings;

// What a selection looks at: the credits, the stage's word, and the front of each queue.
#[derive(Clone, Copy)]
pub struct Sight {
    pub credits: Credits,
    pub stage: u32,
    pub control: Front,
    pub primary: Front,
    pub secondary: Front,
}

// What goes next: where it comes from (0 nothing, 1 control, 2 primary, 3 secondary, 4 stage), the frame, and the credits and the stage's word afterwards.
#[derive(Clone, Copy)]
pub struct Pick {
    pub origin: u32,
    pub frame: Frame,
    pub credits: Credits,
    pub stage: u32,
}

// What the table selects: where it comes from, the frame, and the whole flow afterwards. Its two halves are `pick` here and `Flow::leave`.
#[derive(Clone, Copy)]
pub struct Selected {
    pub origin: u32,
    pub frame: Frame,
    pub flow: Flow,
}

impl Sight {
    // What a selection looks at.
    pub fn of(flow: Flow) -> Sight
        ensures { result ≡ sight_of flow }
    {
        let credits = flow.credits;
        Sight {
            credits,
            stage: flow.stage,
            control: flow.control.front(),
            primary: flow.primary.front(),
            secondary: flow.secondary.front(),
        }
    }

    // What goes next, by table 6.4: the first that holds.
    pub fn pick(self, settings: Settings) -> Pick
        ensures { result ≡ pick_of settings (seen_in self) }
    {
        if self.control_ready(settings) {
            return self.goes_charged(settings, Line::Control, Which::M);
        }
        if self.primary.holds_frame() {
            return self.goes(Line::Primary);
        }
        if self.needy(settings) {
            return self.goes(Line::Secondary);
        }
        if self.stage_holds() {
            return self.stage_goes();
        }
        if self.secondary_ready(settings) {
            return self.goes_charged(settings, Line::Secondary, Which::D);
        }
        self.nothing_goes()
    }

    // The first frame of a queue goes, and nothing is charged.
    fn goes(self, line: Line) -> Pick
        ensures { result ≡ pick_from (leaves (seen_in self) line) }
    {
        let credits = self.credits;
        let front = self.front(line);
        let frame = front.first();
        Pick {
            origin: origin(line),
            frame,
            credits,
            stage: self.stage,
        }
    }

    // The first frame of a queue goes, charged to a shaper that permits it.
    fn goes_charged(self, settings: Settings, line: Line, which: Which) -> Pick
        requires { permits_of settings self.credits which ≡ true }
        ensures { result ≡ pick_from (leaves_charged settings (seen_in self) line which) }
    {
        let next = self.goes(line);
        let credits = self.credits.charge(settings, which, next.frame.size);
        Pick { credits, ..next }
    }

    // The frame in the stage goes and leaves it empty. It was charged for as it came.
    fn stage_goes(self) -> Pick
        ensures { result ≡ pick_from (leaves_stage (seen_in self)) }
    {
        let credits = self.credits;
        let frame = Frame::of(self.stage);
        Pick {
            origin: 4,
            frame,
            credits,
            stage: queue::EMPTY,
        }
    }

    // Nothing goes, and all is left as it was.
    fn nothing_goes(self) -> Pick
        ensures { result ≡ pick_from (nothing_of (seen_in self)) }
    {
        let credits = self.credits;
        let none = Frame::of(queue::EMPTY);
        Pick {
            origin: 0,
            frame: none,
            credits,
            stage: self.stage,
        }
    }

    // Whether the first control frame, if there is one, fits both transit queues' space, and M permits it.
    fn control_ready(self, settings: Settings) -> bool
        ensures { result ≡ test (control_ready settings (seen_in self)) }
    {
        if !self.control.holds_frame() {
            return false;
        }
        let room = settings.queues;
        let shapers = settings.shapers;
        let credits = self.credits;
        let first = self.control.first();
        let primary = self.primary.space(room.primary);
        let secondary = self.secondary.space(room.secondary);
        let short = shaper::ask(credits.m, shapers.m.lo);
        (first.size <= primary) & (first.size <= secondary) & (short == 0)
    }

    // Whether the secondary queue has no space for the longest frame.
    fn needy(self, settings: Settings) -> bool
        ensures { result ≡ test (needy settings (seen_in self)) }
    {
        let room = settings.queues;
        self.secondary.space(room.secondary) < settings.mtu
    }

    // Whether the secondary queue holds a frame, and D permits it.
    fn secondary_ready(self, settings: Settings) -> bool
        ensures { result ≡ test (secondary_ready settings (seen_in self)) }
    {
        let shapers = settings.shapers;
        let credits = self.credits;
        let holds = self.secondary.holds_frame();
        let short = shaper::ask(credits.d, shapers.d.lo);
        holds & (short == 0)
    }

    // Whether the stage holds a frame.
    fn stage_holds(self) -> bool
        ensures { result ≡ stage_holds (seen_in self) }
    {
        queue::EMPTY < self.stage
    }

    // The front of one of the queues.
    fn front(self, line: Line) -> Front
        ensures { result ≡ front_at self line }
    {
        match line {
            Line::Control => self.control,
            Line::Primary => self.primary,
            Line::Secondary => self.secondary,
        }
    }
}

// What a selection from a queue names it by.
fn origin(line: Line) -> u32
    ensures { result ≡ origin_of line }
{
    match line {
        Line::Control => 1,
        Line::Primary => 2,
        Line::Secondary => 3,
    }
}
