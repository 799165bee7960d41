// The calls of a script. Each is given the station and what stands behind its name, prints what it answers, and leaves the station as it is afterwards.
// Settings or a room of another length are refused here, by the length that the script gives, as the exported calls refuse them.
use crate::{print, reading};
use decide::Refusal;
use script::print::wrong;
use script::{Row, Words};
use settings::Settings;
use shaper::Refused;
use station::{Reading, Station};
use std::io;

// How many bytes a fairness frame takes, and a reading.
const FRAME: u64 = advert::LENGTH as u64;

const READING: u64 = 4 * Reading::WORDS as u64;

// The largest number of 32 bits.
const MOST: u64 = u32::MAX as u64;

// The call of this name. Behind `hear` stands hex; behind the others stand numbers.
pub fn call(
    rt: &impl Print,
    station: &mut Station,
    name: &[u8],
    words: Words<'_>,
) -> io::Result<()> {
    match name {
        b"hear" => hear(rt, station, words),
        _ => numbered(rt, station, name, words),
    }
}

// The call of this name that is given numbers.
fn numbered(
    rt: &impl Print,
    station: &mut Station,
    name: &[u8],
    words: Words<'_>,
) -> io::Result<()> {
    let row = &script::numbers(words);
    match name {
        b"start" => start(rt, station, row),
        b"tick" => tick(rt, station, row),
        b"client" => client(rt, station, row),
        b"transit" => transit(rt, station, row),
        b"control" => control(rt, station, row),
        b"select" => select(rt, station, row),
        b"age" => age(rt, station, row),
        b"tell" => tell(rt, station, row),
        b"show" => show(rt, station, row),
        _ => wrong(rt, name, b"it is no call"),
    }
}

// The words of the settings, each of 4 bytes; another number of words is another length.
fn start(rt: &impl Print, station: &mut Station, row: &Row) -> io::Result<()> {
    match row.all() {
        Ok(words) if row.largest <= MOST => match <&[u64; Settings::WORDS]>::try_from(words) {
            Ok(words) => after(rt, station, b"start", station.start(settings_of(words))),
            Err(_) => print::refused(rt, b"start", Refusal::NotWhole.into()),
        },
        _ => wrong(rt, b"start", b"numbers of 32 bits are wanted"),
    }
}

// Whether A, B and C traffic waits.
fn tick(rt: &impl Print, station: &mut Station, row: &Row) -> io::Result<()> {
    let Ok([a, b, c]) = row.all() else {
        return wrong(rt, b"tick", b"3 numbers are wanted");
    };
    after(rt, station, b"tick", station.tick(*a, *b, *c))
}

// Class, size and hops.
fn client(rt: &impl Print, station: &mut Station, row: &Row) -> io::Result<()> {
    let Ok([class, size, hops]) = row.all() else {
        return wrong(rt, b"client", b"3 numbers are wanted");
    };
    match station.offer_client(*class, *size, *hops) {
        Ok(taken) => {
            *station = taken.station;
            print::marked(rt, taken.mark)
        }
        Err(refused) => print::refused(rt, b"client", refused),
    }
}

// Class, size, hops, and whether the frame is eligible.
fn transit(rt: &impl Print, station: &mut Station, row: &Row) -> io::Result<()> {
    let Ok([class, size, hops, eligible]) = row.all() else {
        return wrong(rt, b"transit", b"4 numbers are wanted");
    };
    after(
        rt,
        station,
        b"transit",
        station.offer_transit(*class, *size, *hops, *eligible),
    )
}

// The size.
fn control(rt: &impl Print, station: &mut Station, row: &Row) -> io::Result<()> {
    let Ok([size]) = row.all() else {
        return wrong(rt, b"control", b"1 number is wanted");
    };
    after(rt, station, b"control", station.offer_control(*size))
}

// Nothing stands behind it.
fn select(rt: &impl Print, station: &mut Station, row: &Row) -> io::Result<()> {
    if !row.are(0) {
        return wrong(rt, b"select", b"nothing more is wanted");
    }
    match station.select() {
        Ok(next) => {
            *station = next.station;
            print::selected(rt, next.origin, next.frame)
        }
        Err(refused) => print::refused(rt, b"select", refused),
    }
}

// Nothing stands behind it.
fn age(rt: &impl Print, station: &mut Station, row: &Row) -> io::Result<()> {
    if !row.are(0) {
        return wrong(rt, b"age", b"nothing more is wanted");
    }
    after(rt, station, b"age", station.age())
}

// The bytes of a fairness frame, any number of them.
fn hear(rt: &impl Print, station: &mut Station, words: Words<'_>) -> io::Result<()> {
    let mut room = [0u8; 4096];
    match script::bytes_into(words.0, &mut room) {
        Ok(count) => after(rt, station, b"hear", station.hear(&room[..count])),
        Err(_) => wrong(rt, b"hear", b"hex in one word is wanted"),
    }
}

// Nothing, or the length of the room to write a frame in.
fn tell(rt: &impl Print, station: &Station, row: &Row) -> io::Result<()> {
    match row.only_or(FRAME) {
        Ok(FRAME) => match station.tell() {
            Ok(said) => print::told(rt, said),
            Err(refused) => print::refused(rt, b"tell", refused),
        },
        Ok(_) => print::refused(rt, b"tell", Refusal::NotWhole.into()),
        Err(_) => wrong(rt, b"tell", b"a length or nothing is wanted"),
    }
}

// Nothing, or the length of the room to write a reading in.
fn show(rt: &impl Print, station: &Station, row: &Row) -> io::Result<()> {
    match row.only_or(READING) {
        Ok(READING) => match station.show() {
            Ok(reading) => reading::shown(rt, reading),
            Err(refused) => print::refused(rt, b"show", refused),
        },
        Ok(_) => print::refused(rt, b"show", Refusal::NotWhole.into()),
        Err(_) => wrong(rt, b"show", b"a length or nothing is wanted"),
    }
}

// Keeps the station that a call answers alone; a refusal leaves the station as it was.
fn after(
    rt: &impl Print,
    station: &mut Station,
    name: &[u8],
    done: Result<Station, Refused>,
) -> io::Result<()> {
    match done {
        Ok(next) => {
            *station = next;
            print::done(rt, name)
        }
        Err(refused) => print::refused(rt, name, refused),
    }
}

// The settings of these words; a word above 32 bits counts as their largest number.
pub fn settings_of(words: &[u64; Settings::WORDS]) -> Settings {
    let mut bytes = [0u8; Settings::LENGTH];
    for i in 0..Settings::WORDS {
        wire::put32(&mut bytes, 4 * i, decide::lesser(words[i], MOST) as u32);
    }
    Settings::read(&bytes, 0)
}
