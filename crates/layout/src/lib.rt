// A station and its reading as bytes, in which a host keeps the one and looks at the other. A station's bytes are the credits, control, primary and
// secondary queue, the stage's word, the fairness state and the settings, one behind the other.
#![tactic(auto)]

ghost use Rattle.std.specs.Prelude.{◌≡◌, ◌+◌, ◌%◌, ◌≤◌, length};
ghost use Rattle.decide.specs.Test.{test};
ghost use Rattle.wire.specs.Wire.{digits, put};
ghost use Rattle.selection.specs.Pick.{sight_of};
ghost use Rattle.station.specs.Range.{station_ok};
ghost use Rattle.station.specs.Pick.{pick_of};
ghost use Rattle.station.specs.Offers.{given_frame};
ghost use Rattle.wire.specs.Words.{words_bytes};
ghost use Rattle.layout.specs.Layout.{credits_length, stage_place, fair_place, station_length, station_at, station_bytes};
ghost use Rattle.layout.specs.Layout.{credits_at, credits_words, four_words, fair_bytes, place_of, pushed_at, taken_from};
ghost use Rattle.layout.specs.Reading.{reading_length, held_words, reading_bytes};

mod fairness;

use credits::Credits;
use fair::{Fair, Four};
use flow::{Flow, Line};
use queue::Frame;
use selection::Sight;
use settings::Settings;
use station::{Held, Pick, Reading, Station};

// Where the parts of a station stand behind the credits, each behind the one before.
const CONTROL: usize = 20;

const PRIMARY: usize = CONTROL + slots::LENGTH;

const SECONDARY: usize = PRIMARY + slots::LENGTH;

const STAGE: usize = SECONDARY + slots::LENGTH;

const FAIR: usize = STAGE + 4;

const SETTINGS: usize = FAIR + fairness::LENGTH;

// How many bytes a station takes, and how many a reading of one.
pub const LENGTH: usize = SETTINGS + Settings::LENGTH;

pub const READING: usize = 4 * Reading::WORDS;

// The station that these bytes hold, in range or not.
pub fn read(s: &[u8]) -> Station
    requires { length s.now ≡ station_length }
    ensures { result ≡ station_at s.now }
{
    let flow = Flow {
        credits: read_credits(s, 0),
        control: slots::read(s, CONTROL),
        primary: slots::read(s, PRIMARY),
        secondary: slots::read(s, SECONDARY),
        stage: wire::get32(s, STAGE),
    };
    Station {
        settings: Settings::read(s, SETTINGS),
        flow,
        fair: fairness::read(s, FAIR),
    }
}

// Whether that station is in range: the test of `Station::in_range`, made where the bytes lie, so that no queue is copied for it. The slice is cut to its own
// length first: so it is kept in registers, which is quicker. The fairness state is asked before the queues: behind many tests the compiler holds a call for rare,
// and hands it a copy of the settings. The test ends where it is out of range: what would be kept of it till the end has no room in registers.
pub fn in_range(whole: &[u8]) -> bool
    requires { length whole.now ≡ station_length }
    ensures { result ≡ test (station_ok (station_at whole.now)) }
{
    let from: usize = 0;
    let s = &whole[from..LENGTH];
    if !settings::in_range_at(s, SETTINGS) {
        return false;
    }
    let settings = Settings::read(s, SETTINGS);
    let bounds = flow::bounds(settings);
    let room = settings.queues;
    if !fairness::in_range_at(s, FAIR, settings) {
        return false;
    }
    if !read_credits(s, 0).in_range(settings) {
        return false;
    }
    if !slots::in_range(s, CONTROL, bounds, room.control) {
        return false;
    }
    if !slots::in_range(s, PRIMARY, bounds, room.primary) {
        return false;
    }
    if !slots::in_range(s, SECONDARY, bounds, room.secondary) {
        return false;
    }
    flow::stage_ok(bounds, wire::get32(s, STAGE))
}

// What goes next in that station, in range or not. Of each queue it uses the front alone.
pub fn pick(s: &[u8]) -> Pick
    requires { length s.now ≡ station_length }
    ensures { result ≡ pick_of (station_at s.now) }
{
    let whole = read(s);
    let settings = whole.settings;
    let fair = whole.fair;
    let seen = sight(s);
    station::picked(settings, seen, fair)
}

// Writes a station to its bytes.
pub fn write(st: Station, s: &mut [u8])
    requires { length s.old ≡ station_length }
    ensures { s.new ≡ station_bytes st }
{
    let flow = st.flow;
    put_credits(flow.credits, s, 0);
    slots::write(flow.control, s, CONTROL);
    slots::write(flow.primary, s, PRIMARY);
    slots::write(flow.secondary, s, SECONDARY);
    wire::put32(s, STAGE, flow.stage);
    fairness::write(st.fair, s, FAIR);
    st.settings.write(s, SETTINGS);
}

// Writes the credits of a station to its bytes, and leaves all others.
pub fn write_credits(c: Credits, s: &mut [u8])
    requires { length s.old ≡ station_length }
    ensures { s.new ≡ put s.old 0 (words_bytes (credits_words c)) }
{
    put_credits(c, s, 0);
}

// Pushes a frame to a queue of a station, in its bytes, and leaves all others. The frame's numbers are a call's own. Whoever calls has tested them, so nothing is
// ever cut to 32 bits here.
pub fn push_frame(line: Line, class: u64, size: u64, hops: u64, mark: u64, s: &mut [u8])
    requires { length s.old ≡ station_length }
    ensures { s.new ≡ pushed_at s.old line (given_frame class size hops mark) }
{
    let frame = Frame {
        size: low(size),
        hops: low(hops),
        class: low(class),
        mark: low(mark),
    };
    slots::push(frame, s, place(line));
}

// Takes the first frame from the queue that a selection names, in the bytes of a station, and leaves all others: 1 control, 2 primary, 3 secondary.
// The origin is the number that a selection answers to a host; nothing is taken at any other, so no enum takes its place.
pub fn take_frame(origin: u32, s: &mut [u8])
    requires { length s.old ≡ station_length }
    ensures { s.new ≡ taken_from origin s.old }
{
    match origin {
        1 => slots::take(s, place(Line::Control)),
        2 => slots::take(s, place(Line::Primary)),
        3 => slots::take(s, place(Line::Secondary)),
        _ => (),
    }
}

// Writes the stage's word to the bytes of a station, and leaves all others.
pub fn write_stage(word: u32, s: &mut [u8])
    requires { length s.old ≡ station_length }
    ensures { s.new ≡ put s.old stage_place (digits 4 word) }
{
    wire::put32(s, STAGE, word);
}

// Writes the fairness state of a station to its bytes, and leaves all others.
pub fn write_fair(f: Fair, s: &mut [u8])
    requires { length s.old ≡ station_length }
    ensures { s.new ≡ put s.old fair_place (fair_bytes f) }
{
    fairness::write(f, s, FAIR);
}

// Writes the counters of a station to its bytes, and leaves all others.
pub fn write_counters(c: Four, s: &mut [u8])
    requires { length s.old ≡ station_length }
    ensures { s.new ≡ put s.old fair_place (words_bytes (four_words c)) }
{
    fairness::write_four(c, s, FAIR);
}

// Writes a reading to its bytes.
pub fn write_reading(r: Reading, s: &mut [u8])
    requires { length s.old ≡ reading_length }
    ensures { s.new ≡ reading_bytes r }
{
    put_credits(r.credits, s, 0);
    write_held(r.control, s, 20);
    write_held(r.primary, s, 28);
    write_held(r.secondary, s, 36);
    write_held(r.stage, s, 44);
    fairness::write_four(r.counters, s, 52);
    fairness::write_four(r.smoothed, s, 68);
    fairness::write_decided(r.decided, s, 84);
    fairness::write_received(r.received, s, 104);
}

// What a selection looks at of the station that these bytes hold: the credits, the stage and the front of each queue.
fn sight(s: &[u8]) -> Sight
    requires { length s.now ≡ station_length }
    ensures { result ≡ sight_of (station_at s.now).flow }
{
    Sight {
        credits: read_credits(s, 0),
        stage: wire::get32(s, STAGE),
        control: slots::front(s, CONTROL),
        primary: slots::front(s, PRIMARY),
        secondary: slots::front(s, SECONDARY),
    }
}

// Where the bytes of a queue stand.
fn place(line: Line) -> usize
    ensures { result ≡ place_of line }
{
    match line {
        Line::Control => CONTROL,
        Line::Primary => PRIMARY,
        Line::Secondary => SECONDARY,
    }
}

// The low 32 bits of a number.
fn low(x: u64) -> u32
    ensures { result ≡ x % 4294967296 }
{
    (x % 4294967296) as u32
}

// The credits whose words stand in `s` from `at` on.
fn read_credits(s: &[u8], at: usize) -> Credits
    requires { at + credits_length ≤ length s.now }
    ensures { result ≡ credits_at s.now at }
{
    let [m, a, b, c, d] = wire::read_words::<5>(s, at);
    Credits { m, a, b, c, d }
}

// Writes the words of credits to `s` from `at` on.
fn put_credits(c: Credits, s: &mut [u8], at: usize)
    requires { at + credits_length ≤ length s.old }
    ensures { s.new ≡ put s.old at (words_bytes (credits_words c)) }
{
    wire::write_words([c.m, c.a, c.b, c.c, c.d], s, at);
}

// Writes the two words of what a queue or the stage holds to `s` from `at` on.
fn write_held(h: Held, s: &mut [u8], at: usize)
    requires { at + 8 ≤ length s.old }
    ensures { s.new ≡ put s.old at (words_bytes (held_words h)) }
{
    wire::write_words([h.frames, h.bytes], s, at);
}
