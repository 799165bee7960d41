// A station that the host keeps in one piece of memory and lends for each call. Its range is tested where its bytes lie, once a call; the call is made on the
// station that they hold, and what it leaves is written back where it was carried out.
ghost use Rattle.std.specs.Prelude.{◌≡◌};
ghost use Rattle.layout.specs.Layout.{station_length};
ghost use Rattle.rpr.specs.Station.{start_answer, start_after, tick_answer, tick_after, age_answer, age_after};
ghost use Rattle.rpr.specs.Station.{offer_client_answer, offer_client_after, offer_transit_answer, offer_transit_after, offer_control_answer, offer_control_after};
ghost use Rattle.rpr.specs.Station.{select_answer, select_after, read_frame_answer, read_frame_after};
ghost use Rattle.rpr.specs.Station.{write_frame_answer, write_frame_after, show_answer, show_after};

use crate::NOT_WHOLE;
use flow::Line;
use settings::Settings;
use station::Station;

// The refusal of a setting, or a station, that is outside its range.
const SETTING: u64 = 1;

// How many bytes a station takes.
pub fn rpr_station_length() -> u64
    ensures { result ≡ station_length }
{
    layout::LENGTH as u64
}

// Makes the station a fresh one under these settings, whatever its bytes were. 2 where a slice is of another length, then 1.
pub fn rpr_start(settings: &[u8], station: &mut [u8]) -> u64
    ensures value { result ≡ start_answer settings.now station.old }
    ensures station_after { station.new ≡ start_after settings.now station.old }
{
    if settings.len() != Settings::LENGTH {
        return NOT_WHOLE;
    }
    if station.len() != layout::LENGTH {
        return NOT_WHOLE;
    }
    if !settings::in_range_at(settings, 0) {
        return SETTING;
    }
    let given = Settings::read(settings, 0);
    layout::write(Station::fresh(given), station);
    0
}

// A tick. The host says whether A, B and C traffic waits: 1 for yes, 0 for no. 2, 1, then 3.
pub fn rpr_tick(station: &mut [u8], a: u64, b: u64, c: u64) -> u64
    ensures value { result ≡ tick_answer station.old a b c }
    ensures station_after { station.new ≡ tick_after station.old a b c }
{
    if station.len() != layout::LENGTH {
        return NOT_WHOLE;
    }
    let good = layout::in_range(station);
    match layout::read(station).tick_known(good, a, b, c) {
        Ok(next) => {
            let flow = next.flow;
            layout::write_credits(flow.credits, station);
            0
        }
        Err(refused) => refused.refusal.number(),
    }
}

// Takes a client frame into the stage, and answers the mark that it got. 2, 1, 3, 13, 5, 6 and how far short, then 7.
pub fn rpr_offer_client(station: &mut [u8], class: u64, size: u64, hops: u64) -> u64
    ensures value { result ≡ offer_client_answer station.old class size hops }
    ensures station_after { station.new ≡ offer_client_after station.old class size hops }
{
    if station.len() != layout::LENGTH {
        return NOT_WHOLE;
    }
    let good = layout::in_range(station);
    match layout::read(station).offer_client_known(good, class, size, hops) {
        Ok(taken) => {
            let next = taken.station;
            let flow = next.flow;
            layout::write_credits(flow.credits, station);
            layout::write_stage(flow.stage, station);
            answer::marked(taken.mark)
        }
        Err(refused) => answer::refused(refused.refusal.number() as u8, refused.detail),
    }
}

// Takes a transit frame into the queue of its class. 2, 1, 3, 13, then 4.
pub fn rpr_offer_transit(station: &mut [u8], class: u64, size: u64, hops: u64, eligible: u64) -> u64
    ensures value { result ≡ offer_transit_answer station.old class size hops eligible }
    ensures station_after { station.new ≡ offer_transit_after station.old class size hops eligible }
{
    if station.len() != layout::LENGTH {
        return NOT_WHOLE;
    }
    let good = layout::in_range(station);
    let held = layout::read(station);
    let settings = held.settings;
    match held.offer_transit_known(good, class, size, hops, eligible) {
        Ok(_) => {
            let line = Line::queue_for(settings, class);
            layout::push_frame(line, class, size, hops, eligible, station);
            0
        }
        Err(refused) => refused.refusal.number(),
    }
}

// Takes a control frame, given by its size alone, into the control queue. 2, 1, 3, then 4.
pub fn rpr_offer_control(station: &mut [u8], size: u64) -> u64
    ensures value { result ≡ offer_control_answer station.old size }
    ensures station_after { station.new ≡ offer_control_after station.old size }
{
    if station.len() != layout::LENGTH {
        return NOT_WHOLE;
    }
    let good = layout::in_range(station);
    match layout::read(station).offer_control_known(good, size) {
        Ok(_) => {
            layout::push_frame(Line::Control, 0, size, 1, 0, station);
            0
        }
        Err(refused) => refused.refusal.number(),
    }
}

// Selects the frame that goes next, and answers where it comes from and the frame. 2, then 1.
pub fn rpr_select(station: &mut [u8]) -> u64
    ensures value { result ≡ select_answer station.old }
    ensures station_after { station.new ≡ select_after station.old }
{
    if station.len() != layout::LENGTH {
        return NOT_WHOLE;
    }
    if !layout::in_range(station) {
        return SETTING;
    }
    let out = layout::pick(station);
    if out.origin == 0 {
        return 0;
    }
    layout::take_frame(out.origin, station);
    layout::write_credits(out.credits, station);
    layout::write_stage(out.stage, station);
    let fair = out.fair;
    layout::write_counters(fair.counters, station);
    let frame = out.frame;
    answer::selected(out.origin, frame)
}

// Ends an aging interval. 2, then 1.
pub fn rpr_age(station: &mut [u8]) -> u64
    ensures value { result ≡ age_answer station.old }
    ensures station_after { station.new ≡ age_after station.old }
{
    if station.len() != layout::LENGTH {
        return NOT_WHOLE;
    }
    let good = layout::in_range(station);
    match layout::read(station).age_known(good) {
        Ok(next) => {
            layout::write_fair(next.fair, station);
            0
        }
        Err(refused) => refused.refusal.number(),
    }
}

// Reads a fairness frame. 2 (the frame's shape and its ringlet bit too), 1, 3, 13, then 11.
pub fn rpr_read_frame(station: &mut [u8], frame: &[u8]) -> u64
    ensures value { result ≡ read_frame_answer station.old frame.now }
    ensures station_after { station.new ≡ read_frame_after station.old frame.now }
{
    if station.len() != layout::LENGTH {
        return NOT_WHOLE;
    }
    let good = layout::in_range(station);
    match layout::read(station).hear_known(good, frame) {
        Ok(next) => {
            layout::write_fair(next.fair, station);
            0
        }
        Err(refused) => refused.refusal.number(),
    }
}

// Leaves in the room the fairness frame that the station advertises. 2, then 1.
pub fn rpr_write_frame(station: &[u8], room: &mut [u8]) -> u64
    ensures value { result ≡ write_frame_answer station.now room.old }
    ensures room_after { room.new ≡ write_frame_after station.now room.old }
{
    if station.len() != layout::LENGTH {
        return NOT_WHOLE;
    }
    if room.len() != advert::LENGTH {
        return NOT_WHOLE;
    }
    let good = layout::in_range(station);
    match layout::read(station).tell_known(good) {
        Ok(said) => {
            advert::write(said, room);
            0
        }
        Err(refused) => refused.refusal.number(),
    }
}

// Leaves in the room a reading of the station. 2, then 1.
pub fn rpr_show(station: &[u8], room: &mut [u8]) -> u64
    ensures value { result ≡ show_answer station.now room.old }
    ensures room_after { room.new ≡ show_after station.now room.old }
{
    if station.len() != layout::LENGTH {
        return NOT_WHOLE;
    }
    if room.len() != layout::READING {
        return NOT_WHOLE;
    }
    let good = layout::in_range(station);
    match layout::read(station).show_known(good) {
        Ok(reading) => {
            layout::write_reading(reading, room);
            0
        }
        Err(refused) => refused.refusal.number(),
    }
}
