// A tour of the bench, as a caller drives it: a loss, a reordering, a copy, a lap of the sequence numbers, a damaged state. It prints
// what each operation answers. Every operation takes the bench by value and gives the next one back, and none can be handed
// something that it does not check.
#![tactic(auto)]

use rules::{Bench, Refused, Setup};
use std::io;

// The bench that an operation leaves, whether it was done or refused.
fn left(given: Result<Bench, Refused<Bench>>) -> Bench {
    given.unwrap_or_else(|refused| refused.state)
}

// The same of an arrival, with the count of the units that it let out. Two functions: the count comes with an arrival alone.
fn delivered(given: Result<(usize, Bench), Refused<Bench>>) -> (usize, Bench) {
    given.unwrap_or_else(|refused| (0, refused.state))
}

// Prints what was done and its answer, and hands on the bench.
fn shown(rt: &impl Print, what: &str, given: Result<Bench, Refused<Bench>>) -> io::Result<Bench> {
    println!(rt; "{what} -> {}", rules::answer(&given))?;
    Ok(left(given))
}

// The same for a packet that arrives: the units that it let out stand at the start of the lent row.
fn arrived(
    rt: &impl Print,
    what: &str,
    given: Result<(usize, Bench), Refused<Bench>>,
    row: &[u64],
) -> io::Result<Bench> {
    print!(rt; "{what} -> {}", rules::answer(&given))?;
    let (count, bench) = delivered(given);
    for unit in row.iter().take(count) {
        print!(rt; " {unit}")?;
    }
    println!(rt)?;
    Ok(bench)
}

// The receiver grants a place and says so to the sender.
fn granted(b: Bench) -> Bench {
    let b = left(bench::room(b));
    let b = left(bench::ack(b));
    left(bench::hear(b, 0))
}

fn loss(rt: &impl Print, b: Bench) -> io::Result<Bench> {
    println!(rt; "A loss: the first packet is dropped, so its unit is sent again.")?;
    let mut row = [0u64; 64];
    let b = shown(rt, "accept 500", bench::accept(b, 500))?;
    let b = shown(rt, "send 0", bench::send(b, 0))?;
    let b = shown(rt, "dropd 0", bench::dropd(b, 0))?;
    let given = bench::data(b, 0, &mut row);
    let b = arrived(rt, "data 0", given, &row)?;
    let b = shown(rt, "send 0", bench::send(b, 0))?;
    let given = bench::data(b, 0, &mut row);
    arrived(rt, "data 0", given, &row)
}

fn reordering(rt: &impl Print, b: Bench) -> io::Result<Bench> {
    println!(rt;
        "A reordering and a copy: the later unit waits for the earlier one, and the copy is behind."
    )?;
    let mut row = [0u64; 64];
    let b = granted(b);
    let b = shown(rt, "accept 740", bench::accept(b, 740))?;
    let b = shown(rt, "tick", bench::tick(b))?;
    let b = granted(b);
    let b = shown(rt, "accept 760", bench::accept(b, 760))?;
    let b = shown(rt, "send 1", bench::send(b, 1))?;
    let b = shown(rt, "send 0", bench::send(b, 0))?;
    let mut b = shown(rt, "dupd 1", bench::dupd(b, 1))?;
    for _ in 0..3 {
        let given = bench::data(b, 0, &mut row);
        b = arrived(rt, "data 0", given, &row)?;
    }
    Ok(b)
}

// One unit across, from grant to acknowledgement, and a tick.
fn carried(rt: &impl Print, b: Bench, unit: u64) -> io::Result<Bench> {
    let mut row = [0u64; 64];
    let b = granted(b);
    let b = left(bench::accept(b, unit));
    let b = left(bench::send(b, 0));
    let given = bench::data(b, 0, &mut row);
    let (_, b) = delivered(given);
    print!(rt; "nxt {}, ", b.receiver.nxt)?;
    let b = arrived(rt, "data 0", given, &row)?;
    Ok(left(bench::tick(b)))
}

fn lap(rt: &impl Print, b: Bench) -> io::Result<Bench> {
    println!(rt; "A lap: there are eight sequence numbers, and nine units go across.")?;
    let mut b = b;
    for unit in 1001..1010 {
        b = carried(rt, b, unit)?;
    }
    Ok(b)
}

fn damage(rt: &impl Print, b: Bench) -> io::Result<()> {
    println!(rt;
        "A damaged state: three units outstanding where the window is two. It is refused and given back as it was."
    )?;
    let mut bad = b;
    bad.sender.outstanding = 3;
    let same = shown(rt, "tick", bench::tick(bad))?;
    println!(rt; "outstanding is still {}", same.sender.outstanding)
}

fn main(rt: HostRuntime) -> io::Result<()> {
    let setup = Setup {
        window: 2,
        seqbits: 3,
        clockbits: 3,
        life: 1,
        rate: 2,
        seq: 7,
        sclock: 7,
        rclock: 2,
    };
    let b = shown(&rt, "A fresh bench", bench::fresh(setup))?;
    let b = shown(&rt, "accept 500", bench::accept(b, 500))?;
    println!(rt;
        "The window is closed until the receiver grants room and the sender hears of it."
    )?;
    let b = granted(granted(b));
    let b = loss(&rt, b)?;
    let b = reordering(&rt, b)?;
    let b = lap(&rt, b)?;
    damage(&rt, b)
}
