// Setups: those that are not admitted, and benches whose parts have different ones.
use crate::answers::{self, answered, left};
use crate::base::{self, SMALL, WIDE, with};
use crate::channels::Kind;
use crate::{benches, receivers, senders};
use rules::{BareAck, BareData, Bench, Setup};
use std::io;

// The bench with one setup in its four parts.
fn with_setup(b: Bench, setup: Setup) -> Bench {
    with!(
        b,
        sender.setup = setup,
        receiver.setup = setup,
        datas.setup = setup,
        acks.setup = setup
    )
}

// A line: what each `fresh` answers, against the all-zero state, and then what the fresh parts do. Where the setup is not
// admitted they are all zero but for it.
fn line(rt: &impl Print, name: &str, setup: Setup) -> io::Result<()> {
    let zero = base::zero();
    print!(rt; "{name}: ")?;
    let answers = [
        answered(sender::fresh(setup), &zero.sender),
        answered(receiver::fresh(setup), &zero.receiver),
        answered(channel::fresh(setup), &zero.datas),
        answered(channel::fresh(setup), &zero.acks),
        answered(bench::fresh(setup), &zero),
    ];
    answers::print(rt, "fresh", false, &answers)?;
    let b = with_setup(left(bench::fresh(setup)), setup);
    senders::print(rt, b.sender)?;
    receivers::print(rt, b.receiver)?;
    BareData::print(rt, b.datas)?;
    BareAck::print(rt, b.acks)?;
    benches::print(rt, b)
}

fn lines(rt: &impl Print, setups: &[(&str, Setup)]) -> io::Result<()> {
    for (name, setup) in setups {
        line(rt, name, *setup)?;
    }
    Ok(())
}

// At the edge of each limit.
fn admitted(rt: &impl Print) -> io::Result<()> {
    let s = SMALL;
    let setups = [
        (
            "window 2, seqbits 3, clockbits 3, life 1, rate 2, seq 7, sclock 7, rclock 2",
            s,
        ),
        (
            "window 1, seqbits 2, rate 1, seq 3",
            with!(s, window = 1, seqbits = 2, rate = 1, seq = 3),
        ),
        (
            "window 64, seqbits 8, rate 64",
            with!(s, window = 64, seqbits = 8, rate = 64),
        ),
        (
            "seqbits 32, seq 4294967295",
            with!(s, seqbits = 32, seq = u32::MAX),
        ),
        (
            "seqbits 32, rate 4294967290",
            with!(s, seqbits = 32, rate = 4294967290),
        ),
        (
            "clockbits 32, life 1073741823",
            with!(s, clockbits = 32, life = 1073741823),
        ),
        ("rclock 7", with!(s, rclock = 7)),
    ];
    lines(rt, &setups)
}

fn out_of_range(rt: &impl Print) -> io::Result<()> {
    let s = SMALL;
    let setups = [
        ("window 0", with!(s, window = 0)),
        ("window 3, seqbits 4", with!(s, window = 3, seqbits = 4)),
        ("window 128, seqbits 9", with!(s, window = 128, seqbits = 9)),
        (
            "window 1, seqbits 1, rate 1, seq 1",
            with!(s, window = 1, seqbits = 1, rate = 1, seq = 1),
        ),
        ("seqbits 33", with!(s, seqbits = 33)),
        ("clockbits 2, sclock 3", with!(s, clockbits = 2, sclock = 3)),
        ("clockbits 33", with!(s, clockbits = 33)),
        ("life 0", with!(s, life = 0)),
        ("rate 0", with!(s, rate = 0)),
        ("seq 8", with!(s, seq = 8)),
        ("sclock 8", with!(s, sclock = 8)),
        ("rclock 8", with!(s, rclock = 8)),
        ("each number 0", Setup::default()),
    ];
    lines(rt, &setups)
}

// By one too few sequence numbers or clock values.
fn too_few(rt: &impl Print) -> io::Result<()> {
    let s = SMALL;
    let setups = [
        ("rate 3", with!(s, rate = 3)),
        (
            "window 64, seqbits 8, rate 65",
            with!(s, window = 64, seqbits = 8, rate = 65),
        ),
        (
            "seqbits 32, rate 4294967291",
            with!(s, seqbits = 32, rate = 4294967291),
        ),
        ("life 2", with!(s, life = 2)),
        (
            "clockbits 32, life 1073741824",
            with!(s, clockbits = 32, life = 1073741824),
        ),
    ];
    lines(rt, &setups)
}

pub fn show(rt: &impl Print) -> io::Result<()> {
    println!(rt;
        "Setups: fresh of the sender, the receiver, the channels and the bench, where a + stands for a state that is not all zero; then what the fresh parts do, as below; where the setup is refused, parts that are all zero but for it."
    )?;
    admitted(rt)?;
    out_of_range(rt)?;
    too_few(rt)
}

// A bench with another setup in its four parts, and in each one of them alone.
fn differing(rt: &impl Print, name: &str, setup: Setup) -> io::Result<()> {
    let b = base::bench(WIDE);
    let other = with_setup(b, setup);
    for (part, b) in [
        ("all", other),
        ("the sender", with!(b, sender = other.sender)),
        ("the receiver", with!(b, receiver = other.receiver)),
        ("the data channel", with!(b, datas = other.datas)),
        ("the acknowledgement channel", with!(b, acks = other.acks)),
    ] {
        print!(rt; "{name} in {part}: ")?;
        benches::print(rt, b)?;
    }
    Ok(())
}

pub fn show_differing(rt: &impl Print) -> io::Result<()> {
    println!(rt; "Setups that differ, each admitted.")?;
    for (name, setup) in [
        ("window 2", with!(WIDE, window = 2)),
        ("seqbits 5", with!(WIDE, seqbits = 5)),
        ("clockbits 5", with!(WIDE, clockbits = 5)),
        ("life 3", with!(WIDE, life = 3)),
        ("rate 4", with!(WIDE, rate = 4)),
        ("seq 6", with!(WIDE, seq = 6)),
        ("sclock 6", with!(WIDE, sclock = 6)),
        ("rclock 3", with!(WIDE, rclock = 3)),
    ] {
        differing(rt, name, setup)?;
    }
    Ok(())
}
