// The receiver, whole and damaged.
ghost use Rattle.std.specs.Prelude.{◌≤◌};

use crate::answers::{self, Answer, ROW, answered, answered_with_row, state};
use crate::base::{self, DATA, FAR_DATA, NONE, SMALL, WIDE, with};
use crate::benches;
use rules::{BareData, Receiver};
use std::io;

// The answer to a packet that arrives, where so many places of a row are lent.
pub fn answer_to(r: Receiver, p: BareData, places: usize) -> Answer
    requires { places ≤ 64 }
{
    let mut row = ROW;
    let given = state(receiver::data(r, p, &mut row[..places]));
    answered_with_row(given, &r, &row)
}

// Prints what the receiver's operations answer.
pub fn print(rt: &impl Print, r: Receiver) -> io::Result<()> {
    let answers = [
        answer_to(r, DATA, 64),
        answered(receiver::room(r), &r),
        answered(state(receiver::ack(r)), &r),
        answered(receiver::tick(r), &r),
        answer_to(r, DATA, 1),
        answer_to(r, FAR_DATA, 64),
    ];
    answers::print(rt, "receiver", receiver::malformed(r), &answers)
}

// A line for each: the receiver by itself, and a bench that has it.
fn lines(rt: &impl Print, receivers: &[(&str, Receiver)]) -> io::Result<()> {
    for (name, r) in receivers {
        print!(rt; "{name}: ")?;
        print(rt, *r)?;
        benches::print(rt, with!(base::bench(r.setup), receiver = *r))?;
    }
    Ok(())
}

// At the edge of each limit.
fn whole(rt: &impl Print, r: Receiver) -> io::Result<()> {
    let unmarked = with!(r, slots[1] = 0, marks = 0);
    let receivers = [
        ("window 2, a mark 1 ahead, recent of age 1", r),
        (
            "nxt 7",
            with!(r, nxt = 7, slots[0] = 600, slots[1] = 0, marks = 0b01),
        ),
        ("window 1, no mark", with!(unmarked, window = 1)),
        ("window 0, no mark", with!(unmarked, window = 0)),
        ("clock 7", with!(r, clock = 7)),
        ("recent 7", with!(r, recent.stamp = 7)),
        ("no recent", with!(r, recent = NONE)),
    ];
    lines(rt, &receivers)
}

fn out_of_range(rt: &impl Print, r: Receiver) -> io::Result<()> {
    let none = with!(r, recent = NONE);
    let receivers = [
        ("nxt 8", with!(r, nxt = 8)),
        ("window 3", with!(r, window = 3)),
        ("clock 8", with!(r, clock = 8)),
        ("recent 8", with!(r, recent.stamp = 8)),
        ("recent of age 2", with!(r, recent.age = 2)),
        ("no recent, value 1", with!(none, recent.stamp = 1)),
        ("no recent, age 1", with!(none, recent.age = 1)),
    ];
    lines(rt, &receivers)
}

// Slots in use without a mark, and marks where none may be.
fn in_use(rt: &impl Print, r: Receiver) -> io::Result<()> {
    let receivers = [
        ("slot 0, nxt's, not marked", with!(r, slots[0] = 1)),
        ("slot 1, not marked", with!(r, marks = 0)),
        ("slot 2", with!(r, slots[2] = 1)),
        ("slot 63", with!(r, slots[63] = 1)),
        ("mark 2", with!(r, marks = 0b110)),
        ("mark 63", with!(r, marks = (1 << 63) | 0b10)),
        ("mark 0, nxt's", with!(r, marks = 0b11)),
        ("mark 1, window 1", with!(r, window = 1)),
        ("mark 1, window 0", with!(r, window = 0)),
    ];
    lines(rt, &receivers)
}

// The same of four slots: nxt's is slot 2, and slot 0, which is marked, is 2 ahead.
fn in_use_of_four(rt: &impl Print) -> io::Result<()> {
    let r = base::receiver(WIDE);
    let r = with!(
        r,
        nxt = 6,
        window = 3,
        slots[0] = 600,
        slots[1] = 0,
        marks = 0b0001
    );
    let receivers = [
        ("RW 4, mark 0, window 3", r),
        ("RW 4, mark 0, window 2", with!(r, window = 2)),
        ("RW 4, mark 1, window 3", with!(r, marks = 0b0011)),
        ("RW 4, mark 2, nxt's", with!(r, marks = 0b0101)),
        ("RW 4, mark 4", with!(r, marks = 0b10001)),
        ("RW 4, slot 3, not marked", with!(r, slots[3] = 1)),
    ];
    lines(rt, &receivers)
}

pub fn show(rt: &impl Print) -> io::Result<()> {
    println!(rt;
        "Receiver, nxt 4, window 2, clock 3, recent 5 of age 1, 600 in slot 1, which is marked: data 4 with stamp 5, room, ack, tick, data to a row of one place, data out of range."
    )?;
    let r = base::receiver(SMALL);
    whole(rt, r)?;
    out_of_range(rt, r)?;
    in_use(rt, r)?;
    in_use_of_four(rt)
}
