// The sender. Each operation takes the sender by value and gives it back; a malformed one is refused as `Malformed` and given back
// as it was.
#![tactic(auto)]

ghost use Rattle.std.specs.Prelude.{◌≡◌, false};
ghost use Rattle.rules.specs.Numbers.{wrapped};
ghost use Rattle.rules.specs.Parts.{fresh_sender};
ghost use Rattle.rules.specs.Malformed.{malformed_sender};
ghost use Rattle.rules.specs.Fit.{FitSender};
ghost use Rattle.rules.specs.Operations.{begun, sender_accept, sender_send, sender_hear, sender_tick, returned, made};

use numbers::packet::Packet;
use rules::{BareAck, BareData, Refusal, Refused, Sender, Setup};

pub mod inner;

// A sender at its start; `NotAdmitted`, and all 0, where the setup is not admitted.
pub fn fresh(s: Setup) -> Result<Sender, Refused<Sender>>
    ensures { result ≡ returned (begun fresh_sender s) }
{
    if setup::admitted(s) {
        Ok(inner::first(s))
    } else {
        Err(Refused {
            why: Refusal::NotAdmitted,
            state: inner::first(setup::zero()),
        })
    }
}

pub fn malformed(s: Sender) -> bool
    ensures { result ≡ malformed_sender wrapped s }
{
    is_malformed(&s)
}

// The same of a sender that stays where it is; one that is not malformed is fit for the work. `fresh`, `malformed` and
// this stand in each part: an impl of a trait would have to stand below, with the part's type, and its test could not.
fn is_malformed(s: &Sender) -> bool
    ensures is { result ≡ malformed_sender wrapped s.now }
    ensures fit { result ≡ false → FitSender s.now }
{
    !(setup::admitted(s.setup) && inner::formed(s))
}

// Accepts a unit for sending: `Closed` where the window is closed, `Spent` where this tick's share is spent.
pub fn accept(s: Sender, unit: u64) -> Result<Sender, Refused<Sender>>
    ensures { result ≡ returned (sender_accept s unit) }
{
    let mut next = s;
    let done = if is_malformed(&next) {
        Err(Refusal::Malformed)
    } else {
        inner::accept(&mut next, unit)
    };
    rules::given(done, &next)
}

// The packet of the k-th outstanding unit, counted from 0: `Missing` where there is none.
pub fn send(s: Sender, k: u64) -> Result<(BareData, Sender), Refused<Sender>>
    ensures { result ≡ made (sender_send s k) }
{
    let made = if is_malformed(&s) {
        Err(Refusal::Malformed)
    } else {
        inner::send(&s, k)
    };
    rules::given_with(made, &s)
}

// Hears an acknowledgement: `OutOfRange` where a field of it is; `Stale`, `Behind` or `Beyond` where it is that.
pub fn hear(s: Sender, p: BareAck) -> Result<Sender, Refused<Sender>>
    ensures { result ≡ returned (sender_hear s p) }
{
    let mut next = s;
    let done = if is_malformed(&next) {
        Err(Refusal::Malformed)
    } else if !p.in_range(next.setup) {
        Err(Refusal::OutOfRange)
    } else {
        inner::hear(&mut next, p)
    };
    rules::given(done, &next)
}

// The clock moves by 1, and recent becomes one older.
pub fn tick(s: Sender) -> Result<Sender, Refused<Sender>>
    ensures { result ≡ returned (sender_tick s) }
{
    let mut next = s;
    let done = if is_malformed(&next) {
        Err(Refusal::Malformed)
    } else {
        inner::tick(&mut next);
        Ok(())
    };
    rules::given(done, &next)
}
