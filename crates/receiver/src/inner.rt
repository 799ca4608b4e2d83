// The receiver's events in place, on a receiver that is not malformed, and the test of whether it is.
// What an admitted setup and a fit state have stays a `requires`: both are public and by value, others too, so a type that holds it
// would stand beside each, and be copied into and out of at each event.
ghost use Rattle.std.specs.Prelude.{◌≡◌, ℕ, ◌-◌, ◌<◌, ◌≤◌, length, Ok};
ghost use Rattle.rules.specs.Numbers.{wrapped};
ghost use Rattle.rules.specs.Parts.{fresh_receiver};
ghost use Rattle.rules.specs.Malformed.{all_from, right_ahead, unused, formed_receiver};
ghost use Rattle.rules.specs.Fit.{FitSetup, FitReceiver, FitData};
ghost use Rattle.rules.specs.Events.{may_arrive, deliver, advanced, arriving, opening, ack_of, ticked_receiver};
ghost use Rattle.rules.specs.Operations.{answered, Does, Counts};

use numbers::inner::{Range, Ring, marks, recent};
use rules::{BareAck, BareData, Receiver, Recent, Refusal, Setup};

// A receiver at its start.
pub fn first(s: Setup) -> Receiver
    ensures { result ≡ fresh_receiver s }
{
    Receiver {
        setup: s,
        nxt: s.seq,
        window: 0,
        clock: s.rclock,
        recent: Recent::default(),
        slots: [0; 64],
        marks: 0,
    }
}

// A data packet arrives and is stored; one at nxt lets units out to the row, and the result is how many.
pub fn data(r: &mut Receiver, p: BareData, row: &mut [u64]) -> Result<usize, Refusal>
    requires { FitReceiver r.old × FitData r.old.setup p × (r.old.setup.window ≤ length row.old) }
    ensures { Counts (arriving (wrapped r.old.setup) r.old.setup p r.old) result r.new row.old row.new }
{
    may_arrive(r, p)?;
    let at = Ring::new(r.setup.window).slot(p.seq);
    r.slots[at as usize] = p.unit;
    r.marks = marks::with_mark(r.marks, at);
    if p.seq != r.nxt {
        return Ok(0);
    }
    Ok(deliver(r, p.stamp, row))
}

// The window grows by 1.
pub fn room(r: &mut Receiver) -> Result<(), Refusal>
    requires { FitReceiver r.old }
    ensures { Does (opening r.old.setup r.old) result r.new }
{
    if r.setup.window <= r.window {
        return Err(Refusal::WideOpen);
    }
    r.window += 1;
    Ok(())
}

// The acknowledgement to send now.
pub fn ack(r: &Receiver) -> BareAck
    ensures { result ≡ ack_of r.now }
{
    BareAck {
        ack: r.nxt,
        window: r.window,
        stamp: r.clock,
    }
}

// The clock moves by 1, and recent becomes one older.
pub fn tick(r: &mut Receiver)
    requires { FitReceiver r.old }
    ensures { r.new ≡ ticked_receiver (wrapped r.old.setup) r.old.setup r.old }
{
    r.clock = Range::new(r.setup.clockbits).moved(r.clock, 1);
    r.recent = recent::aged(r.setup.life, r.recent);
}

// The refusals of an arriving packet, in their order.
fn may_arrive(r: &Receiver, p: BareData) -> Result<(), Refusal>
    requires { FitReceiver r.now × FitData r.now.setup p }
    ensures { result ≡ answered (may_arrive (wrapped r.now.setup) r.now.setup p r.now (λ (n : ℕ). n) (λ (o : ℕ). 0)) tt }
{
    if !recent::passes(r.setup, r.recent, p.stamp) {
        return Err(Refusal::Stale);
    }
    let ahead = Range::new(r.setup.seqbits).apart(p.seq, r.nxt);
    if r.setup.window <= ahead {
        return Err(Refusal::Behind);
    }
    if r.window <= ahead {
        return Err(Refusal::Beyond);
    }
    let at = Ring::new(r.setup.window).slot(p.seq);
    if marks::is_marked(r.marks, at) {
        return Err(Refusal::AlreadyStored);
    }
    Ok(())
}

// Units go to the row from nxt on, until a slot is not marked; recent becomes the packet's timestamp, and the window falls by the
// count.
fn deliver(r: &mut Receiver, stamp: u32, row: &mut [u64]) -> usize
    requires { FitReceiver r.old × (r.old.setup.window ≤ length row.old) }
    ensures { let s = r.old.setup in
        let d = deliver (wrapped s).seq s.window s.window r.old.nxt r.old.slots r.old.marks in
        Counts (advanced (wrapped s) s stamp r.old d) (Ok result) r.new row.old row.new }
{
    let ring = Ring::new(r.setup.window);
    let seqs = Range::new(r.setup.seqbits);
    let mut k = 0;
    // This form is fixed: a loop that yields its count by `break`, at the first slot without a mark.
    let count = loop {
        let at = ring.slot(r.nxt);
        if !marks::is_marked(r.marks, at) {
            break k;
        }
        let i = at as usize;
        row[k] = r.slots[i];
        r.slots[i] = 0;
        r.marks = marks::without_mark(r.marks, at);
        r.nxt = seqs.moved(r.nxt, 1);
        k += 1;
    };
    r.window -= count as u32;
    r.recent = recent::since(stamp);
    count
}

// Not malformed, for a setup that is admitted.
pub fn formed(r: &Receiver) -> bool
    requires { FitSetup r.now.setup }
    ensures { result ≡ formed_receiver (wrapped r.now.setup) r.now.setup r.now }
{
    Range::new(r.setup.seqbits).contains(r.nxt)
        & (r.window <= r.setup.window)
        & Range::new(r.setup.clockbits).contains(r.clock)
        & recent::formed(r.setup, r.recent)
        & right_ahead(r)
        & unused_above(r)
}

// The slot d ahead of nxt: marked, and d from 1 to window - 1; or not marked, and it holds nothing.
fn right_at(r: &Receiver, d: u32) -> bool
    requires { (1 ≤ r.now.setup.window) × (r.now.setup.window ≤ 64) }
    ensures { result ≡ right_ahead r.now.setup.window r.now.slots r.now.marks r.now.nxt r.now.window d }
{
    let at = Ring::new(r.setup.window).slot_ahead(r.nxt, d);
    if marks::is_marked(r.marks, at) {
        (1 <= d) & (d < r.window)
    } else {
        r.slots[at as usize] == 0
    }
}

// So is every slot of the ring.
fn right_ahead(r: &Receiver) -> bool
    requires { FitSetup r.now.setup }
    ensures { result ≡ all_from (right_ahead r.now.setup.window r.now.slots r.now.marks r.now.nxt r.now.window) 0 r.now.setup.window }
{
    (0..r.setup.window).all(|d| right_at(r, d))
}

fn unused_at(r: &Receiver, i: u32) -> bool
    requires { i < 64 }
    ensures { result ≡ unused r.now.slots r.now.marks i }
{
    (r.slots[i as usize] == 0) & !marks::is_marked(r.marks, i)
}

// The slots from RW up are neither marked nor in use.
fn unused_above(r: &Receiver) -> bool
    requires { FitSetup r.now.setup }
    ensures { result ≡ all_from (unused r.now.slots r.now.marks) r.now.setup.window (64 - r.now.setup.window) }
{
    (r.setup.window..64).all(|i| unused_at(r, i))
}
