// Frames out: the flow that a selection leaves.
ghost use Rattle.std.specs.Prelude.{◌≡◌};
ghost use Rattle.flow.specs.Leave.{without_first, without_named, left_of};

use crate::{Flow, Line};
use credits::Credits;

impl Flow {
    // The flow that a selection leaves: without the first frame of the queue that the origin names, if it names one, and with these credits and this stage.
    pub fn leave(self, origin: u32, credits: Credits, stage: u32) -> Flow
        ensures { result ≡ left_of self origin credits stage }
    {
        let mut next = self.without_named(origin);
        next.credits = credits;
        next.stage = stage;
        next
    }

    // The flow without the first frame of the queue that an origin names: 1 control, 2 primary, 3 secondary.
    fn without_named(self, origin: u32) -> Flow
        ensures { result ≡ without_named self origin }
    {
        if origin == 1 {
            return self.without_first(Line::Control);
        }
        if origin == 2 {
            return self.without_first(Line::Primary);
        }
        if origin == 3 {
            return self.without_first(Line::Secondary);
        }
        self
    }

    // The flow without the first frame of a queue.
    fn without_first(self, line: Line) -> Flow
        ensures { result ≡ without_first self line }
    {
        let queue = self.queue(line);
        let out = queue.take();
        let rest = out.queue;
        self.with_queue(line, rest)
    }
}
