// Packets with a field out of range, handed straight to an end or a channel; and rows that are too short for what arrives.
use crate::answers::{self, answered};
use crate::base::{self, ACK, DATA, FAR_DATA, SMALL, with};
use crate::benches;
use crate::channels::full;
use crate::receivers::answer_to;
use rules::{BareAck, BareData, Event};
use std::io;

fn data(rt: &impl Print, name: &str, p: BareData) -> io::Result<()> {
    let c = base::datas(SMALL);
    let full = full(c, DATA);
    let r = base::receiver(SMALL);
    print!(rt; "{name}:")?;
    let answers = [
        answered(channel::add(c, p), &c),
        answered(channel::add(full, p), &full),
        answer_to(r, p, 64),
        answer_to(r, p, 1),
    ];
    answers::print_each(rt, &answers)?;
    println!(rt)
}

fn ack(rt: &impl Print, name: &str, p: BareAck) -> io::Result<()> {
    let c = base::acks(SMALL);
    let full = full(c, ACK);
    let s = base::sender(SMALL);
    print!(rt; "{name}:")?;
    let answers = [
        answered(channel::add(c, p), &c),
        answered(channel::add(full, p), &full),
        answered(sender::hear(s, p), &s),
    ];
    answers::print_each(rt, &answers)?;
    println!(rt)
}

pub fn show_out_of_range(rt: &impl Print) -> io::Result<()> {
    println!(rt;
        "A data packet: added to a channel, to a full one, data, data to a row of one place."
    )?;
    data(rt, "seq 7", with!(DATA, seq = 7))?;
    data(rt, "stamp 7", with!(DATA, stamp = 7))?;
    data(
        rt,
        "unit 18446744073709551615",
        with!(DATA, unit = u64::MAX),
    )?;
    data(rt, "seq 8", with!(DATA, seq = 8))?;
    data(rt, "stamp 8", with!(DATA, stamp = 8))?;
    println!(rt; "An acknowledgement: added to a channel, to a full one, hear.")?;
    ack(rt, "ack 7", with!(ACK, ack = 7))?;
    ack(rt, "window 2", with!(ACK, window = 2))?;
    ack(rt, "stamp 7", with!(ACK, stamp = 7))?;
    ack(rt, "ack 8", with!(ACK, ack = 8))?;
    ack(rt, "window 3", with!(ACK, window = 3))?;
    ack(rt, "stamp 8", with!(ACK, stamp = 8))
}

pub fn show_short_rows(rt: &impl Print) -> io::Result<()> {
    println!(rt;
        "A row of so many places: data, data out of range; in the bench data 0, data 2 where there is no such place."
    )?;
    let b = base::bench(SMALL);
    for places in 0..4 {
        print!(rt; "{places}:")?;
        let answers = [
            answer_to(b.receiver, DATA, places),
            answer_to(b.receiver, FAR_DATA, places),
        ];
        answers::print_each(rt, &answers)?;
        benches::print_event(rt, b, Event::Data(0), places)?;
        benches::print_event(rt, b, Event::Data(2), places)?;
        println!(rt)?;
    }
    Ok(())
}
