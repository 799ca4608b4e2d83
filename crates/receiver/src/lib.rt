// The receiver. Each operation takes the receiver by value and gives it back; a malformed one is refused as `Malformed` and given
// back as it was.
#![tactic(auto)]

ghost use Rattle.std.specs.Prelude.{◌≡◌, false, length};
ghost use Rattle.rules.specs.Numbers.{wrapped};
ghost use Rattle.rules.specs.Rows.{laid};
ghost use Rattle.rules.specs.Parts.{fresh_receiver};
ghost use Rattle.rules.specs.Malformed.{malformed_receiver};
ghost use Rattle.rules.specs.Fit.{FitReceiver};
ghost use Rattle.rules.specs.Operations.{begun, receiver_data, receiver_room, receiver_ack, receiver_tick, returned, counted, made};

use numbers::packet::Packet;
use rules::{BareAck, BareData, Receiver, Refusal, Refused, Setup};

pub mod inner;

// A receiver at its start; `NotAdmitted`, and all 0, where the setup is not admitted.
pub fn fresh(s: Setup) -> Result<Receiver, Refused<Receiver>>
    ensures { result ≡ returned (begun fresh_receiver s) }
{
    if setup::admitted(s) {
        Ok(inner::first(s))
    } else {
        Err(Refused {
            why: Refusal::NotAdmitted,
            state: inner::first(setup::zero()),
        })
    }
}

pub fn malformed(r: Receiver) -> bool
    ensures { result ≡ malformed_receiver wrapped r }
{
    is_malformed(&r)
}

// The same of a receiver that stays where it is; one that is not malformed is fit for the work. `fresh`, `malformed` and
// this stand in each part: an impl of a trait would have to stand below, with the part's type, and its test could not.
fn is_malformed(r: &Receiver) -> bool
    ensures is { result ≡ malformed_receiver wrapped r.now }
    ensures fit { result ≡ false → FitReceiver r.now }
{
    !(setup::admitted(r.setup) && inner::formed(r))
}

// A data packet arrives; the units that it lets out are written to `row` from its start, and the result counts them. `ShortRow`
// where the row is shorter than RW, `OutOfRange` where a field of the packet is; `Stale`, `Behind`, `Beyond` or `AlreadyStored`
// where it is that. A refusal leaves the row.
// A count and no slice of the units: `counted` gives the count, and a lent row is a form that the project fixes.
#[tactic(auto, using(rules::proofs::Fits::fit_data))]
pub fn data(
    r: Receiver,
    p: BareData,
    row: &mut [u64],
) -> Result<(usize, Receiver), Refused<Receiver>>
    ensures gives { result ≡ counted (receiver_data r p (length row.old)) }
    ensures lent { row.new ≡ laid (receiver_data r p (length row.old)).units row.old }
{
    let mut next = r;
    let counted = if is_malformed(&next) {
        Err(Refusal::Malformed)
    } else if row.len() < next.setup.window as usize {
        Err(Refusal::ShortRow)
    } else if !p.in_range(next.setup) {
        Err(Refusal::OutOfRange)
    } else {
        inner::data(&mut next, p, row)
    };
    rules::given_with(counted, &next)
}

// The window grows by 1: `WideOpen` where it is RW already.
pub fn room(r: Receiver) -> Result<Receiver, Refused<Receiver>>
    ensures { result ≡ returned (receiver_room r) }
{
    let mut next = r;
    let done = if is_malformed(&next) {
        Err(Refusal::Malformed)
    } else {
        inner::room(&mut next)
    };
    rules::given(done, &next)
}

// The acknowledgement to send now.
pub fn ack(r: Receiver) -> Result<(BareAck, Receiver), Refused<Receiver>>
    ensures { result ≡ made (receiver_ack r) }
{
    let made = if is_malformed(&r) {
        Err(Refusal::Malformed)
    } else {
        Ok(inner::ack(&r))
    };
    rules::given_with(made, &r)
}

// The clock moves by 1, and recent becomes one older.
pub fn tick(r: Receiver) -> Result<Receiver, Refused<Receiver>>
    ensures { result ≡ returned (receiver_tick r) }
{
    let mut next = r;
    let done = if is_malformed(&next) {
        Err(Refusal::Malformed)
    } else {
        inner::tick(&mut next);
        Ok(())
    };
    rules::given(done, &next)
}
