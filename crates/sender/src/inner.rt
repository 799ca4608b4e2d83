// The sender's events in place, on a sender that is not malformed, and the test of whether it is.
// What an admitted setup and a fit state have stays a `requires`: both are public and by value, others too, so a type that holds it
// would stand beside each, and be copied into and out of at each event.
ghost use Rattle.std.specs.Prelude.{◌≡◌, ◌-◌, ◌%◌, ◌^◌};
ghost use Rattle.rules.specs.Numbers.{wrapped};
ghost use Rattle.rules.specs.Parts.{fresh_sender};
ghost use Rattle.rules.specs.Malformed.{all_from, empty_slot, empty_ahead, formed_sender};
ghost use Rattle.rules.specs.Fit.{FitSetup, FitSender, FitAck};
ghost use Rattle.rules.specs.Events.{accepting, sending, freed, hearing, ticked_sender};
ghost use Rattle.rules.specs.Operations.{Does, Makes};

use numbers::inner::{Range, Ring, recent};
use rules::{BareAck, BareData, Recent, Refusal, Sender, Setup};

// A sender at its start.
pub fn first(s: Setup) -> Sender
    ensures { result ≡ fresh_sender s }
{
    Sender {
        setup: s,
        una: s.seq,
        outstanding: 0,
        granted: 0,
        accepted: 0,
        clock: s.sclock,
        recent: Recent::default(),
        slots: [0; 64],
    }
}

pub fn accept(s: &mut Sender, unit: u64) -> Result<(), Refusal>
    requires { FitSender s.old }
    ensures { Does (accepting (wrapped s.old.setup) s.old.setup unit s.old) result s.new }
{
    if s.granted <= s.outstanding {
        return Err(Refusal::Closed);
    }
    if s.setup.rate <= s.accepted {
        return Err(Refusal::Spent);
    }
    let q = Range::new(s.setup.seqbits).moved(s.una, s.outstanding);
    let at = Ring::new(s.setup.window).slot(q) as usize;
    s.slots[at] = unit;
    s.outstanding += 1;
    s.accepted += 1;
    Ok(())
}

pub fn send(s: &Sender, k: u64) -> Result<BareData, Refusal>
    requires { FitSender s.now }
    ensures { Makes (sending (wrapped s.now.setup) s.now.setup k s.now) result s.now }
{
    if s.outstanding as u64 <= k {
        return Err(Refusal::Missing);
    }
    let seq = Range::new(s.setup.seqbits).moved(s.una, k as u32);
    let at = Ring::new(s.setup.window).slot(seq) as usize;
    Ok(BareData {
        seq,
        stamp: s.clock,
        unit: s.slots[at],
    })
}

pub fn hear(s: &mut Sender, p: BareAck) -> Result<(), Refusal>
    requires { FitSender s.old × FitAck s.old.setup p }
    ensures { Does (hearing (wrapped s.old.setup) s.old.setup p s.old) result s.new }
{
    if !recent::passes(s.setup, s.recent, p.stamp) {
        return Err(Refusal::Stale);
    }
    let seqs = Range::new(s.setup.seqbits);
    let o = seqs.apart(p.ack, s.una);
    if s.setup.window < o {
        return Err(Refusal::Behind);
    }
    if s.outstanding < o {
        return Err(Refusal::Beyond);
    }
    if o == 0 {
        s.granted = s.granted.max(p.window);
    } else {
        free(&mut s.slots, seqs, Ring::new(s.setup.window), s.una, o);
        s.una = seqs.moved(s.una, o);
        s.outstanding -= o;
        s.granted = p.window;
    }
    s.recent = recent::since(p.stamp);
    Ok(())
}

pub fn tick(s: &mut Sender)
    requires { FitSender s.old }
    ensures { s.new ≡ ticked_sender (wrapped s.old.setup) s.old.setup s.old }
{
    s.accepted = 0;
    s.clock = Range::new(s.setup.clockbits).moved(s.clock, 1);
    s.recent = recent::aged(s.setup.life, s.recent);
}

// Not malformed, for a setup that is admitted.
pub fn formed(s: &Sender) -> bool
    requires { FitSetup s.now.setup }
    ensures { result ≡ formed_sender (wrapped s.now.setup) s.now.setup s.now }
{
    let ring = Ring::new(s.setup.window);
    Range::new(s.setup.seqbits).contains(s.una)
        & (s.outstanding <= s.setup.window)
        & (s.granted <= s.setup.window)
        & (s.accepted <= s.setup.rate)
        & Range::new(s.setup.clockbits).contains(s.clock)
        & recent::formed(s.setup, s.recent)
        & empty_ahead(&s.slots, ring, s.una, s.outstanding)
        & empty_above(&s.slots, ring)
}

// The slots of the numbers from `from` up to RW - 1 after q hold nothing. The slots and their ring, and not the sender: the ring has
// its bounds as a type. No `all`: over a range, with a closure that asks the ring for a slot, its proof did not close.
fn empty_ahead(slots: &[u64; 64], ring: Ring, q: u32, from: u32) -> bool
    ensures { result ≡ all_from (empty_ahead ring.window slots.now q) from (ring.window - from) }
{
    for d in from..ring.window {
        if slots[ring.slot_ahead(q, d) as usize] != 0 {
            return false;
        }
    }
    true
}

// The slots from RW up hold nothing.
fn empty_above(slots: &[u64; 64], ring: Ring) -> bool
    ensures { result ≡ all_from (empty_slot slots.now) ring.window (64 - ring.window) }
{
    slots[ring.window as usize..].iter().all(|unit| *unit == 0)
}

// The slots of o units from una on, cleared.
fn free(slots: &mut [u64; 64], seqs: Range, ring: Ring, una: u32, o: u32)
    ensures { slots.new ≡ freed (λ x. x % 2 ^ seqs.bits) ring.window o una slots.old }
{
    let mut q = una;
    for _ in 0..o {
        slots[ring.slot(q) as usize] = 0;
        q = seqs.moved(q, 1);
    }
}
