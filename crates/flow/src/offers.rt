// Frames in: transit and control frames into the queues, client frames into the stage.
ghost use Rattle.std.specs.Prelude.{◌≡◌};
ghost use Rattle.queue.specs.Queue.{space_of};
ghost use Rattle.flow.specs.Parts.{queue_of, capacity_of};
ghost use Rattle.flow.specs.Offer.{Offered, enter_of, queue_for, transit_of, control_frame, control_of, client_of};

use crate::{Client, Flow, Line};
use credits::{CLASS_A, MARKED};
use decide::Refusal;
use queue::Frame;
use settings::Settings;
use shaper::Refused;

impl Flow {
    // Takes a transit frame into the queue of its class.
    pub fn transit(self, settings: Settings, frame: Frame) -> Result<Flow, Refused>
        requires { Offered settings self frame }
        ensures { result ≡ transit_of settings self frame }
    {
        let line = Line::queue_for(settings, frame.class as u64);
        self.enter(settings, line, frame)
    }

    // Takes a control frame of this size into the control queue.
    pub fn control(self, settings: Settings, size: u32) -> Result<Flow, Refused>
        requires { Offered settings self (control_frame size) }
        ensures { result ≡ control_of settings self size }
    {
        let frame = Frame {
            size,
            hops: 1,
            class: CLASS_A,
            mark: 0,
        };
        self.enter(settings, Line::Control, frame)
    }

    // Takes a client frame into the stage, or turns it down by `StageHolds`, `NoCredit` and how far short, or `OverRate`. over says whether, as an eligible frame, it would pass the congested fair rate.
    pub fn client(
        self,
        settings: Settings,
        class: u32,
        size: u32,
        hops: u32,
        over: bool,
    ) -> Result<Client, Refused>
        ensures { result ≡ client_of settings self class size hops over }
    {
        if self.stage_holds() {
            return Err(Refusal::StageHolds.into());
        }
        let credits = self.credits;
        let way = credits.way(settings, class);
        let short = credits.short_all(settings, way);
        if 0 < short {
            return Err(Refused {
                refusal: Refusal::NoCredit,
                detail: short,
            });
        }
        let mark = way.mark();
        if (mark == MARKED) & over {
            return Err(Refusal::OverRate.into());
        }
        let paid = credits.pay(settings, way, size);
        let frame = Frame {
            size,
            hops,
            class,
            mark,
        };
        let word = frame.word();
        let mut next = self;
        next.credits = paid;
        next.stage = word;
        Ok(Client { mark, flow: next })
    }

    // How large a frame may be that a queue still has room for. It is asked of the queue where it stands, so that none is copied.
    fn space(self, settings: Settings, line: Line) -> u32
        ensures { result ≡ space_of (queue_of self line) (capacity_of settings line) }
    {
        match line {
            Line::Control => self.control.space(settings.queues.control),
            Line::Primary => self.primary.space(settings.queues.primary),
            Line::Secondary => self.secondary.space(settings.queues.secondary),
        }
    }

    // Takes a frame into a queue, or turns it down by `NoSpace`.
    fn enter(self, settings: Settings, line: Line, frame: Frame) -> Result<Flow, Refused>
        requires { Offered settings self frame }
        ensures { result ≡ enter_of settings self line frame }
    {
        if self.space(settings, line) < frame.size {
            return Err(Refusal::NoSpace.into());
        }
        let queue = self.queue(line);
        let longer = queue.push(frame);
        Ok(self.with_queue(line, longer))
    }
}

impl Line {
    // The queue of a transit frame of this class: A, which is 0, goes to the primary.
    pub fn queue_for(settings: Settings, class: u64) -> Line
        ensures { result ≡ queue_for settings class }
    {
        if class == 0 {
            Line::Primary
        } else {
            Line::Secondary
        }
    }
}
