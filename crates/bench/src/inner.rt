// The bench's events in place, on a bench that is not malformed, and the test of whether it is. Each event is its parts'.
// What an admitted setup and a fit state have stays a `requires`: both are public and by value, others too, so a type that holds it
// would stand beside each, and be copied into and out of at each event.
#![tactic(auto, unfolding(rules::specs::Events::act))]

ghost use Rattle.std.specs.Prelude.{◌≡◌, true, length};
ghost use Rattle.rules.specs.Numbers.{wrapped};
ghost use Rattle.rules.specs.Parts.{fresh_bench};
ghost use Rattle.rules.specs.Malformed.{same_setups, formed_bench};
ghost use Rattle.rules.specs.Fit.{FitSetup, FitBench};
ghost use Rattle.rules.specs.Events.{accept, send, arrive, room, acknowledge, hear, dropd, dropa, dupd, dupa, tick, act};
ghost use Rattle.rules.specs.Asked.{event_of};
ghost use Rattle.rules.specs.Operations.{Does, Counts};

use rules::{Bench, Event, Refusal, Setup};

pub fn first(s: Setup) -> Bench
    ensures { result ≡ fresh_bench s }
{
    Bench {
        sender: sender::inner::first(s),
        receiver: receiver::inner::first(s),
        datas: channel::inner::empty(s),
        acks: channel::inner::empty(s),
    }
}

// The four parts have one setup.
fn one_setup(b: &Bench) -> bool
    ensures { result ≡ same_setups b.now.sender.setup b.now }
{
    let s = b.sender.setup;
    (s == b.receiver.setup) & (s == b.datas.setup) & (s == b.acks.setup)
}

// Not malformed, for a setup that is admitted: the four parts have it, and each is as it should be.
pub(crate) fn formed(b: &Bench) -> bool
    requires { FitSetup b.now.sender.setup }
    ensures is { result ≡ formed_bench wrapped b.now.sender.setup b.now }
    ensures long { result ≡ true → (length b.now.datas.packets ≡ 32) × (length b.now.acks.packets ≡ 32) }
{
    one_setup(b)
        && sender::inner::formed(&b.sender)
            & receiver::inner::formed(&b.receiver)
            & channel::inner::formed(&b.datas)
            & channel::inner::formed(&b.acks)
}

pub(crate) fn accept(b: &mut Bench, unit: u64) -> Result<(), Refusal>
    requires { FitBench b.old }
    ensures { Does (act (wrapped b.old.sender.setup) b.old.sender.setup (accept unit) b.old) result b.new }
{
    sender::inner::accept(&mut b.sender, unit)
}

pub(crate) fn send(b: &mut Bench, k: u64) -> Result<(), Refusal>
    requires { FitBench b.old }
    ensures { Does (act (wrapped b.old.sender.setup) b.old.sender.setup (send k) b.old) result b.new }
{
    let p = sender::inner::send(&b.sender, k)?;
    channel::inner::add(&mut b.datas, p)
}

// A packet that is found is gone from its channel, whatever the receiver answers.
pub(crate) fn data(b: &mut Bench, j: u64, row: &mut [u64]) -> Result<usize, Refusal>
    requires { FitBench b.old }
    ensures { Counts (act (wrapped b.old.sender.setup) b.old.sender.setup (arrive j (length row.old)) b.old) result b.new row.old row.new }
{
    if row.len() < b.sender.setup.window as usize {
        return Err(Refusal::ShortRow);
    }
    let p = channel::inner::take(&mut b.datas, j)?;
    receiver::inner::data(&mut b.receiver, p, row)
}

pub(crate) fn room(b: &mut Bench) -> Result<(), Refusal>
    requires { FitBench b.old }
    ensures { Does (act (wrapped b.old.sender.setup) b.old.sender.setup room b.old) result b.new }
{
    receiver::inner::room(&mut b.receiver)
}

pub(crate) fn ack(b: &mut Bench) -> Result<(), Refusal>
    requires { FitBench b.old }
    ensures { Does (act (wrapped b.old.sender.setup) b.old.sender.setup acknowledge b.old) result b.new }
{
    let p = receiver::inner::ack(&b.receiver);
    channel::inner::add(&mut b.acks, p)
}

// An acknowledgement that is found is gone from its channel, whatever the sender answers.
pub(crate) fn hear(b: &mut Bench, j: u64) -> Result<(), Refusal>
    requires { FitBench b.old }
    ensures { Does (act (wrapped b.old.sender.setup) b.old.sender.setup (hear j) b.old) result b.new }
{
    let p = channel::inner::take(&mut b.acks, j)?;
    sender::inner::hear(&mut b.sender, p)
}

// Two names for each fault, one of each channel, as the events have them; the work is the one of `channel`.
pub(crate) fn dropd(b: &mut Bench, j: u64) -> Result<(), Refusal>
    requires { FitBench b.old }
    ensures { Does (act (wrapped b.old.sender.setup) b.old.sender.setup (dropd j) b.old) result b.new }
{
    channel::inner::drop(&mut b.datas, j)
}

pub(crate) fn dropa(b: &mut Bench, j: u64) -> Result<(), Refusal>
    requires { FitBench b.old }
    ensures { Does (act (wrapped b.old.sender.setup) b.old.sender.setup (dropa j) b.old) result b.new }
{
    channel::inner::drop(&mut b.acks, j)
}

pub(crate) fn dupd(b: &mut Bench, j: u64) -> Result<(), Refusal>
    requires { FitBench b.old }
    ensures { Does (act (wrapped b.old.sender.setup) b.old.sender.setup (dupd j) b.old) result b.new }
{
    channel::inner::duplicate(&mut b.datas, j)
}

pub(crate) fn dupa(b: &mut Bench, j: u64) -> Result<(), Refusal>
    requires { FitBench b.old }
    ensures { Does (act (wrapped b.old.sender.setup) b.old.sender.setup (dupa j) b.old) result b.new }
{
    channel::inner::duplicate(&mut b.acks, j)
}

pub(crate) fn tick(b: &mut Bench)
    requires { FitBench b.old }
    ensures { b.new ≡ (act (wrapped b.old.sender.setup) b.old.sender.setup tick b.old).state }
{
    sender::inner::tick(&mut b.sender);
    receiver::inner::tick(&mut b.receiver);
    channel::inner::tick(&mut b.datas);
    channel::inner::tick(&mut b.acks);
}

// The event that is asked for, and the count of the units that were delivered: the one match over events.
pub fn apply(b: &mut Bench, e: Event, row: &mut [u64]) -> Result<usize, Refusal>
    requires { FitBench b.old }
    ensures { Counts (act (wrapped b.old.sender.setup) b.old.sender.setup (event_of e (length row.old)) b.old) result b.new row.old row.new }
{
    match e {
        Event::Accept(unit) => accept(b, unit)?,
        Event::Send(k) => send(b, k)?,
        Event::Data(j) => return data(b, j, row),
        Event::Hear(j) => hear(b, j)?,
        Event::DropD(j) => dropd(b, j)?,
        Event::DropA(j) => dropa(b, j)?,
        Event::DupD(j) => dupd(b, j)?,
        Event::DupA(j) => dupa(b, j)?,
        Event::Room => room(b)?,
        Event::Ack => ack(b)?,
        Event::Tick => tick(b),
    }
    Ok(0)
}
