// Frames in: what a client, the ring and the control protocol offer. Numbers come as they are given; one that no frame has is refused.
ghost use Rattle.std.specs.Prelude.{◌≡◌};
ghost use Rattle.decide.specs.Test.{test};
ghost use Rattle.queue.specs.Frame.{frame_ok};
ghost use Rattle.flow.specs.Parts.{bounds_of};
ghost use Rattle.station.specs.Range.{station_ok};
ghost use Rattle.station.specs.Answers.{with_flow};
ghost use Rattle.station.specs.Offers.{cut_of, cut_frame, client_for, offer_client_of, offer_transit_of, offer_control_of};

use crate::{Client, Station};
use decide::Refusal;
use flow::Flow;
use queue::Frame;
use settings::Settings;
use shaper::Refused;

// The largest number of 32 bits. No frame has it: not as size, hops, class or mark.
const MOST: u64 = 4294967295;

impl Station {
    // Takes a client frame into the stage. Class A is 0, B 1, C 2; a client gives no mark.
    pub fn offer_client(self, class: u64, size: u64, hops: u64) -> Result<Client, Refused>
        ensures { result ≡ offer_client_of self class size hops }
    {
        self.offer_client_known(self.in_range(), class, size, hops)
    }

    // Takes a client frame, where it is known whether the station is in range.
    pub fn offer_client_known(
        self,
        good: bool,
        class: u64,
        size: u64,
        hops: u64,
    ) -> Result<Client, Refused>
        requires { good ≡ test (station_ok self) }
        ensures { result ≡ offer_client_of self class size hops }
    {
        if !good {
            return Err(Refusal::Setting.into());
        }
        let frame = frame_of(class, size, hops, 0);
        if !frame_ok(self.settings, frame) {
            return Err(Refusal::OutOfRange.into());
        }
        if !decide::in_ring(self.settings.site.stations, frame.hops) {
            return Err(Refusal::BeyondRing.into());
        }
        self.client(frame)
    }

    // Takes a transit frame into the queue of its class; eligible is 1 or 0.
    pub fn offer_transit(
        self,
        class: u64,
        size: u64,
        hops: u64,
        eligible: u64,
    ) -> Result<Station, Refused>
        ensures { result ≡ offer_transit_of self class size hops eligible }
    {
        self.offer_transit_known(self.in_range(), class, size, hops, eligible)
    }

    // Takes a transit frame, where it is known whether the station is in range.
    pub fn offer_transit_known(
        self,
        good: bool,
        class: u64,
        size: u64,
        hops: u64,
        eligible: u64,
    ) -> Result<Station, Refused>
        requires { good ≡ test (station_ok self) }
        ensures { result ≡ offer_transit_of self class size hops eligible }
    {
        if !good {
            return Err(Refusal::Setting.into());
        }
        let frame = frame_of(class, size, hops, eligible);
        if !frame_ok(self.settings, frame) {
            return Err(Refusal::OutOfRange.into());
        }
        if !decide::in_ring(self.settings.site.stations, frame.hops) {
            return Err(Refusal::BeyondRing.into());
        }
        let flow = self.flow;
        Ok(self.with_flow(flow.transit(self.settings, frame)?))
    }

    // Takes a control frame, given by its size alone, into the control queue.
    pub fn offer_control(self, size: u64) -> Result<Station, Refused>
        ensures { result ≡ offer_control_of self size }
    {
        self.offer_control_known(self.in_range(), size)
    }

    // Takes a control frame, where it is known whether the station is in range. Its one hop is within every ring, so 13 is not looked for.
    pub fn offer_control_known(self, good: bool, size: u64) -> Result<Station, Refused>
        requires { good ≡ test (station_ok self) }
        ensures { result ≡ offer_control_of self size }
    {
        if !good {
            return Err(Refusal::Setting.into());
        }
        let frame = frame_of(0, size, 1, 0);
        if !frame_ok(self.settings, frame) {
            return Err(Refusal::OutOfRange.into());
        }
        let flow = self.flow;
        Ok(self.with_flow(flow.control(self.settings, frame.size)?))
    }

    // The station with its flow anew.
    fn with_flow(self, flow: Flow) -> Station
        ensures { result ≡ with_flow self flow }
    {
        Station { flow, ..self }
    }

    // The answer where the stage was asked to take a frame in range and within the ring: what it said, and the station with it.
    fn client(self, frame: Frame) -> Result<Client, Refused>
        ensures { result ≡ client_for self frame }
    {
        let fair = self.fair;
        let old = self.flow;
        let over = fair.is_over(frame.size, frame.hops);
        let taken = old.client(self.settings, frame.class, frame.size, frame.hops, over)?;
        Ok(Client {
            mark: taken.mark,
            station: self.with_flow(taken.flow),
        })
    }
}

// The frame that the numbers say, each cut to 32 bits at most: one that is cut is out of range as it was.
fn frame_of(class: u64, size: u64, hops: u64, mark: u64) -> Frame
    ensures { result ≡ cut_frame class size hops mark }
{
    Frame {
        size: cut(size),
        hops: cut(hops),
        class: cut(class),
        mark: cut(mark),
    }
}

// Whether a frame is in its range under these settings: else refusal 3.
fn frame_ok(settings: Settings, frame: Frame) -> bool
    ensures { result ≡ test (frame_ok (bounds_of settings) frame) }
{
    frame.in_range(flow::bounds(settings))
}

// A number, or the largest of 32 bits where it is larger.
fn cut(x: u64) -> u32
    ensures { result ≡ cut_of x }
{
    decide::lesser(x, MOST) as u32
}
