// The bench's operations: each event is asked for by its own name and by `apply`.
ghost use Rattle.std.specs.Prelude.{◌≤◌};

use crate::answers::{self, Answer, ROW};
use rules::{Bench, Event, Refused};
use std::io;

// The event, by the operation of its name.
fn named(b: Bench, e: Event, row: &mut [u64]) -> Result<Bench, Refused<Bench>> {
    match e {
        Event::Accept(unit) => bench::accept(b, unit),
        Event::Send(k) => bench::send(b, k),
        Event::Data(j) => answers::state(bench::data(b, j, row)),
        Event::Hear(j) => bench::hear(b, j),
        Event::DropD(j) => bench::dropd(b, j),
        Event::DropA(j) => bench::dropa(b, j),
        Event::DupD(j) => bench::dupd(b, j),
        Event::DupA(j) => bench::dupa(b, j),
        Event::Room => bench::room(b),
        Event::Ack => bench::ack(b),
        Event::Tick => bench::tick(b),
    }
}

fn answer_by_name(b: Bench, e: Event, places: usize) -> Answer
    requires { places ≤ 64 }
{
    let mut row = ROW;
    let given = named(b, e, &mut row[..places]);
    answers::answered_with_row(given, &b, &row)
}

fn answer_by_apply(b: Bench, e: Event, places: usize) -> Answer
    requires { places ≤ 64 }
{
    let mut row = ROW;
    let given = answers::state(bench::apply(b, e, &mut row[..places]));
    answers::answered_with_row(given, &b, &row)
}

// Prints the answer to an event; where `apply` gives another, that one behind a slash.
pub fn print_event(rt: &impl Print, b: Bench, e: Event, places: usize) -> io::Result<()>
    requires { places ≤ 64 }
{
    let by_name = answer_by_name(b, e, places);
    let by_apply = answer_by_apply(b, e, places);
    print!(rt; " {by_name}")?;
    if by_name != by_apply {
        print!(rt; "/{by_apply}")?;
    }
    Ok(())
}

// Prints what the bench answers, and ends the line.
pub fn print(rt: &impl Print, b: Bench) -> io::Result<()> {
    answers::print_name(rt, "bench", bench::malformed(b))?;
    let events = [
        Event::Accept(500),
        Event::Send(0),
        Event::Data(0),
        Event::Room,
        Event::Ack,
        Event::Hear(0),
        Event::DropD(0),
        Event::DropA(0),
        Event::DupD(0),
        Event::DupA(0),
        Event::Tick,
    ];
    for e in events {
        print_event(rt, b, e, 64)?;
    }
    print_event(rt, b, Event::Data(0), 1)?;
    println!(rt)
}
