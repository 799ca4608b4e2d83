// The sender, whole and damaged.
use crate::answers::{self, answered, state};
use crate::base::{self, ACK, FAR_ACK, NONE, SMALL, WIDE, with};
use crate::benches;
use rules::Sender;
use std::io;

// Prints what the sender's operations answer.
pub fn print(rt: &impl Print, s: Sender) -> io::Result<()> {
    let answers = [
        answered(sender::accept(s, 500), &s),
        answered(state(sender::send(s, 0)), &s),
        answered(sender::hear(s, ACK), &s),
        answered(sender::tick(s), &s),
        answered(sender::hear(s, FAR_ACK), &s),
    ];
    answers::print(rt, "sender", sender::malformed(s), &answers)
}

// A line for each: the sender by itself, and a bench that has it.
fn lines(rt: &impl Print, senders: &[(&str, Sender)]) -> io::Result<()> {
    for (name, s) in senders {
        print!(rt; "{name}: ")?;
        print(rt, *s)?;
        benches::print(rt, with!(base::bench(s.setup), sender = *s))?;
    }
    Ok(())
}

// At the edge of each limit.
fn whole(rt: &impl Print, s: Sender) -> io::Result<()> {
    let senders = [
        ("granted 2, recent of age 1", s),
        ("una 7", with!(s, una = 7, slots[0] = 0, slots[1] = 500)),
        ("outstanding 2", with!(s, outstanding = 2, slots[1] = 501)),
        ("outstanding 0", with!(s, outstanding = 0, slots[0] = 0)),
        ("accepted 2", with!(s, accepted = 2)),
        ("clock 7", with!(s, clock = 7)),
        ("recent 7", with!(s, recent.stamp = 7)),
        ("no recent", with!(s, recent = NONE)),
    ];
    lines(rt, &senders)
}

fn out_of_range(rt: &impl Print, s: Sender) -> io::Result<()> {
    let none = with!(s, recent = NONE);
    let senders = [
        ("una 8", with!(s, una = 8)),
        ("outstanding 3", with!(s, outstanding = 3)),
        ("granted 3", with!(s, granted = 3)),
        ("accepted 3", with!(s, accepted = 3)),
        ("clock 8", with!(s, clock = 8)),
        ("recent 8", with!(s, recent.stamp = 8)),
        ("recent of age 2", with!(s, recent.age = 2)),
        ("no recent, value 1", with!(none, recent.stamp = 1)),
        ("no recent, age 1", with!(none, recent.age = 1)),
    ];
    lines(rt, &senders)
}

// Slots that hold nothing, in use.
fn in_use(rt: &impl Print, s: Sender) -> io::Result<()> {
    let senders = [
        ("slot 1, past the outstanding", with!(s, slots[1] = 1)),
        ("slot 0, none outstanding", with!(s, outstanding = 0)),
        ("slot 2", with!(s, slots[2] = 1)),
        ("slot 63", with!(s, slots[63] = 1)),
    ];
    lines(rt, &senders)
}

// The same of four slots: the two outstanding units have the last two, and the first two hold nothing.
fn in_use_of_four(rt: &impl Print) -> io::Result<()> {
    let s = base::sender(WIDE);
    let s = with!(
        s,
        una = 6,
        outstanding = 2,
        slots[0] = 0,
        slots[2] = 500,
        slots[3] = 501
    );
    let senders = [
        ("RW 4, una 6, outstanding 2", s),
        ("RW 4, slot 0, past the outstanding", with!(s, slots[0] = 1)),
        ("RW 4, slot 1, before una", with!(s, slots[1] = 1)),
        ("RW 4, slot 4", with!(s, slots[4] = 1)),
    ];
    lines(rt, &senders)
}

pub fn show(rt: &impl Print) -> io::Result<()> {
    println!(rt;
        "Sender, una 4, outstanding 1, granted 2, accepted 1, clock 5, recent 4 of age 1, 500 in slot 0: accept 500, send 0, hear of 5 with window 2 and stamp 4, tick, hear out of range."
    )?;
    let s = base::sender(SMALL);
    whole(rt, s)?;
    out_of_range(rt, s)?;
    in_use(rt, s)?;
    in_use_of_four(rt)
}
