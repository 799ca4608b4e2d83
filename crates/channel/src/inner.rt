// The channel's work, in place, on a channel that is not malformed, and the test of whether it is.
// What an admitted setup and a fit state have stays a `requires`: both are public and by value, others too, so a type that holds it
// would stand beside each, and be copied into and out of at each event.
ghost use Rattle.std.specs.Prelude.{◌≡◌, true, ◌+◌, ◌<◌, length, Ok, Err};
ghost use Rattle.rules.specs.Refusals.{refusal};
ghost use Rattle.rules.specs.Parts.{kind, fresh_channel};
ghost use Rattle.rules.specs.Malformed.{every, formed_aged, formed_channel};
ghost use Rattle.rules.specs.Fit.{FitChannel};
ghost use Rattle.rules.specs.Events.{may_find, pushing, adding, taking, dropping, copying, removed, ticked_channel};
ghost use Rattle.rules.specs.Operations.{Does, Makes};

use numbers::packet::Packet;
use rules::{Aged, Channel, Refusal, Setup};

// A channel that holds nothing.
#[tactic(auto, unfolding(rules::specs::Rows::row))]
pub fn empty<P: Packet>(s: Setup) -> Channel<P>
    ensures { result ≡ fresh_channel P.none s }
{
    Channel {
        setup: s,
        packets: [new(P::nothing()); 32],
        count: 0,
    }
}

// A packet with age 0.
fn new<P: Packet>(packet: P) -> Aged<P>
    ensures { result ≡ (kind P.none P.is_none).new packet }
{
    Aged { packet, age: 0 }
}

pub fn add<P: Packet>(c: &mut Channel<P>, p: P) -> Result<(), Refusal>
    requires { FitChannel (kind P.none P.is_none) c.old }
    ensures { Does (adding (kind P.none P.is_none) p c.old) result c.new }
{
    push(c, new(p))
}

pub fn take<P: Packet>(c: &mut Channel<P>, j: u64) -> Result<P, Refusal>
    requires { FitChannel (kind P.none P.is_none) c.old }
    ensures { Makes (taking (kind P.none P.is_none) j c.old) result c.new }
{
    let at = place(c, j)?;
    let p = c.packets[at].packet;
    remove(c, at);
    Ok(p)
}

pub fn drop<P: Packet>(c: &mut Channel<P>, j: u64) -> Result<(), Refusal>
    requires { FitChannel (kind P.none P.is_none) c.old }
    ensures { Does (dropping (kind P.none P.is_none) j c.old) result c.new }
{
    let at = place(c, j)?;
    remove(c, at);
    Ok(())
}

pub fn duplicate<P: Packet>(c: &mut Channel<P>, j: u64) -> Result<(), Refusal>
    requires { FitChannel (kind P.none P.is_none) c.old }
    ensures { Does (copying (kind P.none P.is_none) j c.old) result c.new }
{
    let from = place(c, j)?;
    let copy = c.packets[from];
    push(c, copy)
}

// Every packet becomes one older; those that stay move up to close the gaps.
pub fn tick<P: Packet>(c: &mut Channel<P>)
    requires { FitChannel (kind P.none P.is_none) c.old }
    ensures { c.new ≡ ticked_channel (kind P.none P.is_none) c.old.setup.life c.old }
{
    let mut aged = empty(c.setup);
    for p in &c.packets[..c.count as usize] {
        if p.age < c.setup.life {
            aged.packets[aged.count as usize] = Aged {
                age: p.age + 1,
                ..*p
            };
            aged.count += 1;
        }
    }
    *c = aged;
}

// The place j, where the channel holds a packet there.
fn place<P: Packet>(c: &Channel<P>, j: u64) -> Result<usize, Refusal>
    ensures { result ≡ may_find c.now.count j (λ n. Err (refusal n)) (Ok j) }
{
    if c.count as u64 <= j {
        return Err(Refusal::Missing);
    }
    Ok(j as usize)
}

// A packet with its age goes to the end, where there is room.
fn push<P: Packet>(c: &mut Channel<P>, p: Aged<P>) -> Result<(), Refusal>
    requires { FitChannel (kind P.none P.is_none) c.old }
    ensures { Does (pushing (kind P.none P.is_none) p c.old) result c.new }
{
    if 32 <= c.count {
        return Err(Refusal::Full);
    }
    c.packets[c.count as usize] = p;
    c.count += 1;
    Ok(())
}

// The packets after j move down one place, and the last place is empty.
fn remove<P: Packet>(c: &mut Channel<P>, j: usize)
    requires { FitChannel (kind P.none P.is_none) c.old × (j < c.old.count) }
    ensures { c.new ≡ removed (kind P.none P.is_none) j c.old }
{
    c.packets.copy_within(j + 1.., j);
    c.packets[31] = new(P::nothing());
    c.count -= 1;
}

// Not malformed, for a setup that is admitted.
#[tactic(auto, using(rules::proofs::Channels::formed_many, crate::proofs::Places::formed_by_parts))]
pub fn formed<P: Packet>(c: &Channel<P>) -> bool
    ensures is { result ≡ formed_channel (kind P.none P.is_none) (formed_aged (P.right c.now.setup) c.now.setup.life) c.now }
    ensures long { result ≡ true → length c.now.packets ≡ 32 }
{
    if 32 < c.count {
        return false;
    }
    let (held, rest) = c.packets.split_at(c.count as usize);
    all_formed(c.setup, held) & all_empty(rest)
}

fn all_formed<P: Packet>(s: Setup, packets: &[Aged<P>]) -> bool
    ensures { result ≡ every (formed_aged (P.right s) s.life) packets.now }
{
    packets
        .iter()
        .all(|p| p.packet.in_range(s) & (p.age <= s.life))
}

fn all_empty<P: Packet>(places: &[Aged<P>]) -> bool
    ensures { result ≡ every (kind P.none P.is_none).is_nothing places.now }
{
    places.iter().all(|p| p.packet.is_nothing() & (p.age == 0))
}
