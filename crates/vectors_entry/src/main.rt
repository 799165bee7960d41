// Runs the entry points on a shaper and on a station that it keeps, and prints what each answers and what it left.
#![tactic(auto)]

mod lent;

use script::print::{number, text};
use settings::{Address, Bucket, Fairness, Queues, Settings, Shapers, Site};
use shaper::{Limits, Refused, Shaper};
use station::Station;

// What cannot be printed is lost, and the next call is made and printed all the same.
fn main(rt: HostRuntime) {
    shapers(&rt);
    let mut station = started();
    frames(&rt, &mut station);
    lacking(&rt, &mut station);
    turned_down(&rt);
}

// mtu 64, loLimit 100, hiLimit 300: a credit of 100 does not permit; a waiting tick of 150 brings 250; a send of 60 leaves 190; an idle tick cuts to 100.
fn shapers(rt: &impl Print) {
    let mut shaper = Shaper::fresh(Limits {
        mtu: 64,
        lo: 100,
        hi: 300,
    });
    charged(rt, &mut shaper, 60);
    ticked(rt, &mut shaper, true, 150);
    charged(rt, &mut shaper, 60);
    ticked(rt, &mut shaper, false, 50);
}

fn ticked(rt: &impl Print, s: &mut Shaper, waiting: bool, amount: u32) {
    *s = lent::shaper_tick(*s, waiting, amount);
    let _ = number(rt, b"shaper tick credit ", u64::from(s.credit)).and(text(rt, b"\n"));
}

fn charged(rt: &impl Print, s: &mut Shaper, size: u32) {
    let out = lent::shaper_charge(*s, size);
    *s = out.left;
    let said = out.said;
    let _ = number(rt, b"shaper charge ", number_in(&said))
        .and(number(rt, b" short ", short_in(&said)))
        .and(number(rt, b" credit ", u64::from(s.credit)))
        .and(text(rt, b"\n"));
}

// A fresh station: every shaper 100 300 50, queues of 256 bytes, low threshold 128, weight 2, unit 4, 10 ticks, unreservedRate 10,000, default
// coefficients, 63 stations.
fn started() -> Station {
    let bucket = Bucket {
        lo: 100,
        hi: 300,
        amount: 50,
    };
    let address = Address {
        high: 512,
        low: 1577058305,
    };
    let shapers = Shapers {
        m: bucket,
        a: bucket,
        b: bucket,
        c: bucket,
        d: bucket,
    };
    let queues = Queues {
        control: 256,
        primary: 256,
        secondary: 256,
        threshold: 128,
    };
    let fairness = Fairness::usual(2, 4, 10, 10000);
    Station::fresh(Settings {
        address,
        ringlet: 0,
        mtu: 64,
        shapers,
        queues,
        fairness,
        site: Site {
            stations: 63,
            method: 0,
            trip: 3,
            down: 64,
        },
    })
}

// A tick, a frame of each kind, their selection, the end of an interval, and a fairness frame that says 500; refusals among them.
fn frames(rt: &impl Print, s: &mut Station) {
    select(rt, s);
    client(rt, s, 0, 64, 5);
    tick(rt, s, 2, 0, 0);
    tick(rt, s, 1, 1, 1);
    client(rt, s, 2, 64, 5);
    client(rt, s, 0, 64, 1);
    transit(rt, s, 1, 60, 3, 1);
    transit(rt, s, 1, 60, 3, 2);
    control(rt, s, 16);
    tick(rt, s, 0, 0, 0);
    for _ in 0..3 {
        select(rt, s);
    }
    age(rt, s);
    hear(rt, s, b"\xff\xa0\x02\x00\x5e\x00\x00\x02\x00\x00\x01\xf4");
    hear(rt, s, b"\xff\xa0");
    hear(rt, s, b"\xff\xa0\x02\x00\x5e\x00\x00\x01\x00\x00\x01\xf4");
}

// A frame of each class that shapers turn down: A, B and C lack 1 byte, D lacks 25.
fn lacking(rt: &impl Print, s: &mut Station) {
    client(rt, s, 0, 64, 1);
    client(rt, s, 1, 64, 1);
    client(rt, s, 2, 64, 1);
}

// A shaper at its start lacks 1 byte; after a send from just above loLimit it lacks the size.
fn turned_down(rt: &impl Print) {
    let mut shaper = Shaper::fresh(Limits {
        mtu: 64,
        lo: 100,
        hi: 300,
    });
    charged(rt, &mut shaper, 60);
    ticked(rt, &mut shaper, true, 1);
    charged(rt, &mut shaper, 60);
    charged(rt, &mut shaper, 60);
}

fn tick(rt: &impl Print, s: &mut Station, a: u64, b: u64, c: u64) {
    let out = lent::tick(*s, a, b, c);
    *s = out.left;
    after(rt, b"tick ", number_in(&out.said), s);
}

fn client(rt: &impl Print, s: &mut Station, class: u64, size: u64, hops: u64) {
    let out = lent::offer_client(*s, class, size, hops);
    *s = out.left;
    let said = out.said;
    let mark = match said {
        Ok(mark) => mark,
        Err(_) => 0,
    };
    let _ = number(rt, b"mark ", u64::from(mark)).and(number(rt, b" short ", short_in(&said)));
    after(rt, b" client ", number_in(&said), s);
}

fn transit(rt: &impl Print, s: &mut Station, class: u64, size: u64, hops: u64, eligible: u64) {
    let out = lent::offer_transit(*s, class, size, hops, eligible);
    *s = out.left;
    after(rt, b"transit ", number_in(&out.said), s);
}

fn control(rt: &impl Print, s: &mut Station, size: u64) {
    let out = lent::offer_control(*s, size);
    *s = out.left;
    after(rt, b"control ", number_in(&out.said), s);
}

fn select(rt: &impl Print, s: &mut Station) {
    let out = lent::select(*s);
    *s = out.left;
    let said = out.said;
    let (origin, size) = match said {
        Ok(chosen) => (chosen.origin, chosen.frame.size),
        Err(_) => (0, 0),
    };
    let _ = number(rt, b"origin ", u64::from(origin)).and(number(rt, b" size ", u64::from(size)));
    after(rt, b" select ", number_in(&said), s);
}

fn age(rt: &impl Print, s: &mut Station) {
    let out = lent::age(*s);
    *s = out.left;
    after(rt, b"age ", number_in(&out.said), s);
}

fn hear(rt: &impl Print, s: &mut Station, frame: &[u8]) {
    let out = lent::hear(*s, frame);
    *s = out.left;
    after(rt, b"hear ", number_in(&out.said), s);
}

// The number of a refusal, and 0 of a call that was carried out.
fn number_in<T>(said: &Result<T, Refused>) -> u64 {
    match said {
        Ok(_) => 0,
        Err(refused) => refused.refusal.number(),
    }
}

// How far short a refusal says that the shapers are.
fn short_in<T>(said: &Result<T, Refused>) -> u64 {
    match said {
        Ok(_) => 0,
        Err(refused) => refused.detail,
    }
}

// Prints the number that a call answered and some of what it left: the credits, the frames held, and the rate that was received.
fn after(rt: &impl Print, call: &[u8], said: u64, s: &Station) {
    let flow = &s.flow;
    let credits = flow.credits;
    let _ = number(rt, call, said)
        .and(number(rt, b" credits ", u64::from(credits.m)))
        .and(number(rt, b" ", u64::from(credits.a)))
        .and(number(rt, b" ", u64::from(credits.b)))
        .and(number(rt, b" ", u64::from(credits.c)))
        .and(number(rt, b" ", u64::from(credits.d)))
        .and(number(rt, b" held ", u64::from(flow.control.held)))
        .and(number(rt, b" ", u64::from(flow.primary.held)))
        .and(number(rt, b" ", u64::from(flow.secondary.held)))
        .and(number(rt, b" received ", u64::from(s.fair.received.rate)))
        .and(text(rt, b"\n"));
}
