// The bench: a sender, a receiver and the two channels between them, one event at a time. Each operation takes the bench by value
// and gives it back, in a refusal too; a malformed one is refused as `Malformed` and given back as it was.
#![tactic(auto, unfolding(rules::specs::Operations::step))]

ghost use Rattle.std.specs.Prelude.{◌≡◌, false, length};
ghost use Rattle.rules.specs.Numbers.{wrapped};
ghost use Rattle.rules.specs.Rows.{laid};
ghost use Rattle.rules.specs.Parts.{fresh_bench};
ghost use Rattle.rules.specs.Malformed.{malformed_bench};
ghost use Rattle.rules.specs.Fit.{FitBench};
ghost use Rattle.rules.specs.Events.{accept, send, arrive, room, acknowledge, hear, dropd, dropa, dupd, dupa, tick};
ghost use Rattle.rules.specs.Asked.{event_of};
ghost use Rattle.rules.specs.Operations.{begun, step, returned, counted};

use rules::{Bench, Event, Refusal, Refused, Setup};

pub mod inner;

// A bench at its start; `NotAdmitted`, and all 0, where the setup is not admitted.
pub fn fresh(s: Setup) -> Result<Bench, Refused<Bench>>
    ensures { result ≡ returned (begun fresh_bench s) }
{
    if setup::admitted(s) {
        Ok(inner::first(s))
    } else {
        Err(Refused {
            why: Refusal::NotAdmitted,
            state: inner::first(setup::zero()),
        })
    }
}

pub fn malformed(b: Bench) -> bool
    ensures { result ≡ malformed_bench wrapped b }
{
    is_malformed(&b)
}

// The same of a bench that stays where it is; one that is not malformed is fit for the work. `fresh`, `malformed` and
// this stand in each part: an impl of a trait would have to stand below, with the part's type, and its test could not.
fn is_malformed(b: &Bench) -> bool
    ensures is { result ≡ malformed_bench wrapped b.now }
    ensures fit { result ≡ false → FitBench b.now }
{
    !(setup::admitted(b.sender.setup) && inner::formed(b))
}

// The sender accepts a unit: `Closed` where the window is closed, `Spent` where this tick's share is spent.
pub fn accept(b: Bench, unit: u64) -> Result<Bench, Refused<Bench>>
    ensures { result ≡ returned (step wrapped (accept unit) b) }
{
    let mut next = b;
    let done = if is_malformed(&next) {
        Err(Refusal::Malformed)
    } else {
        inner::accept(&mut next, unit)
    };
    rules::given(done, &next)
}

// The sender sends its k-th outstanding unit, counted from 0: `Missing` where there is none, `Full` where the data channel is full.
pub fn send(b: Bench, k: u64) -> Result<Bench, Refused<Bench>>
    ensures { result ≡ returned (step wrapped (send k) b) }
{
    let mut next = b;
    let done = if is_malformed(&next) {
        Err(Refusal::Malformed)
    } else {
        inner::send(&mut next, k)
    };
    rules::given(done, &next)
}

// The data packet at place j arrives, and the count is of the units that come out: they are written to `row` from its start. `ShortRow`
// where the row is shorter than RW, `Missing` where there is no such packet; else the packet is gone from its channel, in `Stale`, `Behind`,
// `Beyond` and `AlreadyStored` too.
// A count and no slice of the units: `counted` gives the count, and a lent row is a form that the project fixes.
pub fn data(b: Bench, j: u64, row: &mut [u64]) -> Result<(usize, Bench), Refused<Bench>>
    ensures gives { result ≡ counted (step wrapped (arrive j (length row.old)) b) }
    ensures lent { row.new ≡ laid (step wrapped (arrive j (length row.old)) b).units row.old }
{
    let mut next = b;
    let counted = if is_malformed(&next) {
        Err(Refusal::Malformed)
    } else {
        inner::data(&mut next, j, row)
    };
    rules::given_with(counted, &next)
}

// The receiver's window grows by 1: `WideOpen` where it is RW already.
pub fn room(b: Bench) -> Result<Bench, Refused<Bench>>
    ensures { result ≡ returned (step wrapped room b) }
{
    let mut next = b;
    let done = if is_malformed(&next) {
        Err(Refusal::Malformed)
    } else {
        inner::room(&mut next)
    };
    rules::given(done, &next)
}

// The receiver sends an acknowledgement: `Full` where the channel is full.
pub fn ack(b: Bench) -> Result<Bench, Refused<Bench>>
    ensures { result ≡ returned (step wrapped acknowledge b) }
{
    let mut next = b;
    let done = if is_malformed(&next) {
        Err(Refusal::Malformed)
    } else {
        inner::ack(&mut next)
    };
    rules::given(done, &next)
}

// The acknowledgement at place j arrives: `Missing` where there is none; else it is gone from its channel, in `Stale`, `Behind`
// and `Beyond` too.
pub fn hear(b: Bench, j: u64) -> Result<Bench, Refused<Bench>>
    ensures { result ≡ returned (step wrapped (hear j) b) }
{
    let mut next = b;
    let done = if is_malformed(&next) {
        Err(Refusal::Malformed)
    } else {
        inner::hear(&mut next, j)
    };
    rules::given(done, &next)
}

// The data packet at place j is lost: `Missing` where there is none. The faults have two names each, one of each channel, as the
// events do.
pub fn dropd(b: Bench, j: u64) -> Result<Bench, Refused<Bench>>
    ensures { result ≡ returned (step wrapped (dropd j) b) }
{
    let mut next = b;
    let done = if is_malformed(&next) {
        Err(Refusal::Malformed)
    } else {
        inner::dropd(&mut next, j)
    };
    rules::given(done, &next)
}

// The acknowledgement at place j is lost: `Missing` where there is none.
pub fn dropa(b: Bench, j: u64) -> Result<Bench, Refused<Bench>>
    ensures { result ≡ returned (step wrapped (dropa j) b) }
{
    let mut next = b;
    let done = if is_malformed(&next) {
        Err(Refusal::Malformed)
    } else {
        inner::dropa(&mut next, j)
    };
    rules::given(done, &next)
}

// The data packet at place j is copied, with its age, to the end: `Missing` where there is none, `Full` where the channel is full.
pub fn dupd(b: Bench, j: u64) -> Result<Bench, Refused<Bench>>
    ensures { result ≡ returned (step wrapped (dupd j) b) }
{
    let mut next = b;
    let done = if is_malformed(&next) {
        Err(Refusal::Malformed)
    } else {
        inner::dupd(&mut next, j)
    };
    rules::given(done, &next)
}

// The acknowledgement at place j is copied, with its age, to the end: `Missing` where there is none, `Full` where the channel is full.
pub fn dupa(b: Bench, j: u64) -> Result<Bench, Refused<Bench>>
    ensures { result ≡ returned (step wrapped (dupa j) b) }
{
    let mut next = b;
    let done = if is_malformed(&next) {
        Err(Refusal::Malformed)
    } else {
        inner::dupa(&mut next, j)
    };
    rules::given(done, &next)
}

// A tick: both clocks move by 1, and everything that has an age becomes one older.
#[tactic(auto, unfolding(rules::specs::Operations::step, rules::specs::Events::act))]
pub fn tick(b: Bench) -> Result<Bench, Refused<Bench>>
    ensures { result ≡ returned (step wrapped tick b) }
{
    let mut next = b;
    let done = if is_malformed(&next) {
        Err(Refusal::Malformed)
    } else {
        inner::tick(&mut next);
        Ok(())
    };
    rules::given(done, &next)
}

// The event that is asked for, with the count of the units that come out.
pub fn apply(b: Bench, e: Event, row: &mut [u64]) -> Result<(usize, Bench), Refused<Bench>>
    ensures gives { result ≡ counted (step wrapped (event_of e (length row.old)) b) }
    ensures lent { row.new ≡ laid (step wrapped (event_of e (length row.old)) b).units row.old }
{
    let mut next = b;
    let counted = if is_malformed(&next) {
        Err(Refusal::Malformed)
    } else {
        inner::apply(&mut next, e, row)
    };
    rules::given_with(counted, &next)
}
