// A channel of either kind of packet: at most 32 of them, in order. Each operation takes the channel by value and gives it back; a
// malformed one is refused and given back as it was.
#![tactic(auto)]

ghost use Rattle.std.specs.Prelude.{◌≡◌, false};
ghost use Rattle.rules.specs.Parts.{kind, fresh_channel};
ghost use Rattle.rules.specs.Malformed.{malformed_channel};
ghost use Rattle.rules.specs.Fit.{FitSetup, FitChannel};
ghost use Rattle.rules.specs.Operations.{begun, channel_add, channel_take, channel_drop, channel_duplicate, channel_tick, returned, made};

use numbers::packet::Packet;
use rules::{Channel, Refusal, Refused, Setup};

pub mod inner;
#[cfg(test)]
mod tests;

// An empty channel; where the setup is not admitted it is refused, with all 0.
pub fn fresh<P: Packet>(s: Setup) -> Result<Channel<P>, Refused<Channel<P>>>
    ensures { result ≡ returned (begun (fresh_channel P.none) s) }
{
    if !setup::admitted(s) {
        return rules::given(Err(Refusal::NotAdmitted), &inner::empty(setup::zero()));
    }
    Ok(inner::empty(s))
}

pub fn malformed<P: Packet>(c: Channel<P>) -> bool
    ensures { result ≡ malformed_channel (kind P.none P.is_none) P.right c }
{
    is_malformed(&c)
}

// The same of a channel that stays where it is; one that is not malformed is fit for the work. `fresh`, `malformed` and
// this stand in each part: an impl of a trait would have to stand below, with the part's type, and its test could not.
fn is_malformed<P: Packet>(c: &Channel<P>) -> bool
    ensures is { result ≡ malformed_channel (kind P.none P.is_none) P.right c.now }
    ensures fit { result ≡ false → FitSetup c.now.setup × FitChannel (kind P.none P.is_none) c.now }
{
    !(setup::admitted(c.setup) && inner::formed(c))
}

// Adds a packet at the end, with age 0: refused where a field of it is out of range, and where the channel is full.
pub fn add<P: Packet>(c: Channel<P>, p: P) -> Result<Channel<P>, Refused<Channel<P>>>
    ensures { let K = kind P.none P.is_none in result ≡ returned (channel_add K (malformed_channel K P.right) c (P.right c.setup) p) }
{
    let mut next = c;
    let done = if is_malformed(&next) {
        Err(Refusal::Malformed)
    } else if !p.in_range(next.setup) {
        Err(Refusal::OutOfRange)
    } else {
        inner::add(&mut next, p)
    };
    rules::given(done, &next)
}

// Takes the packet at place j out, without its age: refused where there is none.
pub fn take<P: Packet>(c: Channel<P>, j: u64) -> Result<(P, Channel<P>), Refused<Channel<P>>>
    ensures { let K = kind P.none P.is_none in result ≡ made (channel_take K (malformed_channel K P.right) c j) }
{
    let mut next = c;
    let taken = if is_malformed(&next) {
        Err(Refusal::Malformed)
    } else {
        inner::take(&mut next, j)
    };
    rules::given_with(taken, &next)
}

// Loses the packet at place j: refused where there is none.
pub fn drop<P: Packet>(c: Channel<P>, j: u64) -> Result<Channel<P>, Refused<Channel<P>>>
    ensures { let K = kind P.none P.is_none in result ≡ returned (channel_drop K (malformed_channel K P.right) c j) }
{
    let mut next = c;
    let done = if is_malformed(&next) {
        Err(Refusal::Malformed)
    } else {
        inner::drop(&mut next, j)
    };
    rules::given(done, &next)
}

// Adds a copy of the packet at place j, of the same age: refused where there is none, and where the channel is full.
pub fn duplicate<P: Packet>(c: Channel<P>, j: u64) -> Result<Channel<P>, Refused<Channel<P>>>
    ensures { let K = kind P.none P.is_none in result ≡ returned (channel_duplicate K (malformed_channel K P.right) c j) }
{
    let mut next = c;
    let done = if is_malformed(&next) {
        Err(Refusal::Malformed)
    } else {
        inner::duplicate(&mut next, j)
    };
    rules::given(done, &next)
}

// Every packet becomes one older; one older than the packets' life is gone.
pub fn tick<P: Packet>(c: Channel<P>) -> Result<Channel<P>, Refused<Channel<P>>>
    ensures { let K = kind P.none P.is_none in result ≡ returned (channel_tick K (malformed_channel K P.right) c c.setup.life) }
{
    let mut next = c;
    let done = if is_malformed(&next) {
        Err(Refusal::Malformed)
    } else {
        inner::tick(&mut next);
        Ok(())
    };
    rules::given(done, &next)
}
