// The two channels, whole and damaged.
use crate::answers::{self, Answer, answered, state};
use crate::base::{self, ACK, DATA, FAR_ACK, FAR_DATA, SMALL, placed, with};
use crate::benches;
use numbers::packet::Packet;
use rules::{Aged, BareAck, BareData, Bench, Channel};
use std::io;

// What differs between the two kinds of packet.
pub trait Kind: Packet + PartialEq {
    // Prints what the channel's operations answer.
    fn print(rt: &impl Print, c: Channel<Self>) -> io::Result<()>;

    // A bench that has the channel.
    fn joined(c: Channel<Self>) -> Bench;
}

impl Kind for BareData {
    fn print(rt: &impl Print, c: Channel<BareData>) -> io::Result<()> {
        let answers = answers_of(c, DATA, FAR_DATA);
        answers::print(rt, "datas", channel::malformed(c), &answers)
    }

    fn joined(c: Channel<BareData>) -> Bench {
        with!(base::bench(c.setup), datas = c)
    }
}

impl Kind for BareAck {
    fn print(rt: &impl Print, c: Channel<BareAck>) -> io::Result<()> {
        let answers = answers_of(c, ACK, FAR_ACK);
        answers::print(rt, "acks", channel::malformed(c), &answers)
    }

    fn joined(c: Channel<BareAck>) -> Bench {
        with!(base::bench(c.setup), acks = c)
    }
}

fn answers_of<P: Packet + PartialEq>(c: Channel<P>, p: P, far: P) -> [Answer; 6] {
    [
        answered(channel::add(c, p), &c),
        answered(state(channel::take(c, 0)), &c),
        answered(channel::drop(c, 0), &c),
        answered(channel::duplicate(c, 0), &c),
        answered(channel::tick(c), &c),
        answered(channel::add(c, far), &c),
    ]
}

// A line: the channel by itself, and a bench that has it.
fn line<P: Kind>(rt: &impl Print, name: &str, c: Channel<P>) -> io::Result<()> {
    print!(rt; "{name}: ")?;
    P::print(rt, c)?;
    benches::print(rt, P::joined(c))
}

// A full channel, of the same packet.
pub fn full<P: Packet>(c: Channel<P>, packet: P) -> Channel<P> {
    Channel {
        packets: [Aged { packet, age: 0 }; 32],
        count: 32,
        ..c
    }
}

fn counts<P: Kind>(rt: &impl Print, c: Channel<P>, p: P) -> io::Result<()> {
    let full = full(c, p);
    line(rt, "count 2", c)?;
    line(rt, "count 0", base::empty(c.setup, P::nothing()))?;
    line(rt, "count 32", full)?;
    line(rt, "count 33", with!(full, count = 33))?;
    line(rt, "count 1 of two packets", with!(c, count = 1))
}

// Each of the packets in turn, of the age beside it, in one place and in another.
fn places<P: Kind>(
    rt: &impl Print,
    c: Channel<P>,
    places: [usize; 2],
    packets: &[(&str, P, u32)],
) -> io::Result<()> {
    for j in places {
        for (name, p, age) in packets {
            print!(rt; "place {j}, ")?;
            line(rt, name, placed(c, j, *p, *age))?;
        }
    }
    Ok(())
}

pub fn show_datas(rt: &impl Print) -> io::Result<()> {
    println!(rt;
        "Data channel, 4 and 5 with stamp 5, of ages 0 and 1: add 4 with stamp 5, take 0, drop 0, duplicate 0, tick, add out of range."
    )?;
    let c = base::datas(SMALL);
    counts(rt, c, DATA)?;
    let packets = [
        ("seq 5", with!(DATA, seq = 5), 0),
        ("seq 7", with!(DATA, seq = 7), 0),
        ("stamp 7", with!(DATA, stamp = 7), 0),
        ("age 1", DATA, 1),
        ("seq 8", with!(DATA, seq = 8), 0),
        ("stamp 8", with!(DATA, stamp = 8), 0),
        ("age 2", DATA, 2),
    ];
    places(rt, c, [0, 1], &packets)?;
    let none = BareData::nothing();
    let packets = [
        ("seq 1", with!(none, seq = 1), 0),
        ("stamp 1", with!(none, stamp = 1), 0),
        ("unit 1", with!(none, unit = 1), 0),
        ("age 1", none, 1),
    ];
    places(rt, c, [2, 31], &packets)
}

pub fn show_acks(rt: &impl Print) -> io::Result<()> {
    println!(rt;
        "Acknowledgement channel, 5 and 4 with window 2 and stamp 4, of ages 1 and 0: add 5 with window 2 and stamp 4, take 0, drop 0, duplicate 0, tick, add out of range."
    )?;
    let c = base::acks(SMALL);
    counts(rt, c, ACK)?;
    let packets = [
        ("ack 7", with!(ACK, ack = 7), 0),
        ("window 2", with!(ACK, window = 2), 0),
        ("stamp 7", with!(ACK, stamp = 7), 0),
        ("age 1", ACK, 1),
        ("ack 8", with!(ACK, ack = 8), 0),
        ("window 3", with!(ACK, window = 3), 0),
        ("stamp 8", with!(ACK, stamp = 8), 0),
        ("age 2", ACK, 2),
    ];
    places(rt, c, [0, 1], &packets)?;
    let none = BareAck::nothing();
    let packets = [
        ("ack 1", with!(none, ack = 1), 0),
        ("window 1", with!(none, window = 1), 0),
        ("stamp 1", with!(none, stamp = 1), 0),
        ("age 1", none, 1),
    ];
    places(rt, c, [2, 31], &packets)
}
