// What is printed of a reading: its 31 words, each behind its name.
use crate::print::number;
use credits::Credits;
use fair::{Decided, Four};
use heard::Received;
use script::print::text;
use station::Reading;
use std::io;

// `show` and the words of the reading.
pub fn shown(rt: &impl Print, reading: Reading) -> io::Result<()> {
    text(rt, b"show")
        .and(credits(rt, reading.credits))
        .and(held(rt, reading))
        .and(counted(rt, reading.counters))
        .and(smoothed(rt, reading.smoothed))
        .and(decided(rt, reading.decided))
        .and(received(rt, reading.received))
        .and(text(rt, b"\n"))
}

fn credits(rt: &impl Print, c: Credits) -> io::Result<()> {
    number(rt, b" creditM ", c.m)
        .and(number(rt, b" creditA ", c.a))
        .and(number(rt, b" creditB ", c.b))
        .and(number(rt, b" creditC ", c.c))
        .and(number(rt, b" creditD ", c.d))
}

fn held(rt: &impl Print, r: Reading) -> io::Result<()> {
    number(rt, b" controlFrames ", r.control.frames)
        .and(number(rt, b" controlBytes ", r.control.bytes))
        .and(number(rt, b" primaryFrames ", r.primary.frames))
        .and(number(rt, b" primaryBytes ", r.primary.bytes))
        .and(number(rt, b" secondaryFrames ", r.secondary.frames))
        .and(number(rt, b" secondaryBytes ", r.secondary.bytes))
        .and(number(rt, b" stageFrames ", r.stage.frames))
        .and(number(rt, b" stageBytes ", r.stage.bytes))
}

fn counted(rt: &impl Print, f: Four) -> io::Result<()> {
    number(rt, b" addRate ", f.add)
        .and(number(rt, b" fwRate ", f.fw))
        .and(number(rt, b" addRateCongested ", f.addc))
        .and(number(rt, b" fwRateCongested ", f.fwc))
}

fn smoothed(rt: &impl Print, f: Four) -> io::Result<()> {
    number(rt, b" lpAddRate ", f.add)
        .and(number(rt, b" lpFwRate ", f.fw))
        .and(number(rt, b" lpAddRateCongested ", f.addc))
        .and(number(rt, b" lpFwRateCongested ", f.fwc))
}

fn decided(rt: &impl Print, d: Decided) -> io::Result<()> {
    number(rt, b" localFairRate ", d.local)
        .and(number(rt, b" allowedRate ", d.allowed))
        .and(number(rt, b" allowedRateCongested ", d.allowedc))
        .and(number(rt, b" ownRate ", d.own))
        .and(number(rt, b" locallyCongested ", d.congested))
}

fn received(rt: &impl Print, r: Received) -> io::Result<()> {
    number(rt, b" downstreamCongested ", r.downstream)
        .and(number(rt, b" receivedTtl ", r.ttl))
        .and(number(rt, b" receivedAddressHigh ", r.high))
        .and(number(rt, b" receivedAddressLow ", r.low))
        .and(number(rt, b" receivedRate ", r.rate))
}
