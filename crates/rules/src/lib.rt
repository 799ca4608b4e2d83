// What the parts hold and what their operations give back. The rules over these records are in specs/.
#![tactic(auto)]

ghost use Rattle.std.specs.Prelude.{◌≡◌, ⊤};
ghost use Rattle.rules.specs.Refusals.{number, left, left_with, answer_of};

use std::alloc::AllocError;

// The eight numbers that every part carries.
#[derive(Clone, Copy, PartialEq, Eq, Default)]
pub struct Setup {
    pub window: u32,
    pub seqbits: u32,
    pub clockbits: u32,
    pub life: u32,
    pub rate: u32,
    pub seq: u32,
    pub sclock: u32,
    pub rclock: u32,
}

// A remembered timestamp with its age; where none is held, both are 0.
// No `Option`: a state with `held` false and another value beside it is malformed, and `malformed` of an end is asked of such states too.
#[derive(Clone, Copy, PartialEq, Eq, Default)]
pub struct Recent {
    pub held: bool,
    pub stamp: u32,
    pub age: u32,
}

// The ends' slots are arrays with numbers beside them: the memory is fixed, and any numbers make a state that `malformed` is asked of.
#[derive(Clone, Copy, PartialEq, Eq)]
pub struct Sender {
    pub setup: Setup,
    pub una: u32,
    pub outstanding: u32,
    pub granted: u32,
    pub accepted: u32,
    pub clock: u32,
    pub recent: Recent,
    pub slots: [u64; 64],
}

#[derive(Clone, Copy, PartialEq, Eq)]
pub struct Receiver {
    pub setup: Setup,
    pub nxt: u32,
    pub window: u32,
    pub clock: u32,
    pub recent: Recent,
    pub slots: [u64; 64],
    pub marks: u64,
}

// Packets as they are handed to an end or a channel: without an age.
#[derive(Clone, Copy, PartialEq, Eq, Default)]
pub struct BareData {
    pub seq: u32,
    pub stamp: u32,
    pub unit: u64,
}

#[derive(Clone, Copy, PartialEq, Eq, Default)]
pub struct BareAck {
    pub ack: u32,
    pub window: u32,
    pub stamp: u32,
}

// A packet as a channel holds it.
#[derive(Clone, Copy, PartialEq, Eq)]
pub struct Aged<P> {
    pub packet: P,
    pub age: u32,
}

// At most 32 packets in order; the places past `count` are all 0.
// No slice or `Vec`: the memory is fixed, and a state with something past `count` is one that `malformed` is asked of.
#[derive(Copy, PartialEq, Eq)]
pub struct Channel<P> {
    pub setup: Setup,
    pub packets: [Aged<P>; 32],
    pub count: u32,
}

// Not derived: a derive clones the array, and over an array of a type parameter its proof did not close.
impl<P: Copy> Clone for Channel<P> {
    ghost is_clone = { λ x y. y ≡ x };

    ghost is_infallible = { λ _. ⊤ };

    fn clone(&self) -> Result<Self, AllocError> {
        Ok(*self)
    }
}

#[derive(Clone, Copy, PartialEq, Eq)]
pub struct Bench {
    pub sender: Sender,
    pub receiver: Receiver,
    pub datas: Channel<BareData>,
    pub acks: Channel<BareAck>,
}

// An event of the bench, with its number: a unit, or the place of a unit or of a packet.
#[derive(Clone, Copy, PartialEq, Eq)]
pub enum Event {
    Accept(u64),
    Send(u64),
    Data(u64),
    Hear(u64),
    DropD(u64),
    DropA(u64),
    DupD(u64),
    DupA(u64),
    Room,
    Ack,
    Tick,
}

// Why an operation refuses, with the number that stands for it in a listing; 0 stands for none.
#[derive(Clone, Copy, PartialEq, Eq)]
pub enum Refusal {
    NotAdmitted = 1,
    Malformed = 2,
    OutOfRange = 3,
    Missing = 4,
    Full = 5,
    Closed = 6,
    Spent = 7,
    ShortRow = 8,
    Stale = 9,
    Behind = 10,
    Beyond = 11,
    AlreadyStored = 12,
    WideOpen = 13,
}

impl From<Refusal> for u32 {
    ghost from_gives = { λ r n. n ≡ number r };

    fn from(r: Refusal) -> u32 {
        r as u32
    }
}

// A refusal gives back the state that it leaves. The state stands first, so that it has one place in a result, `Ok` or `Err`: to make
// such a result, or to take it apart, is then one block copy, where else each field is moved by itself.
#[derive(Clone, Copy)]
pub struct Refused<S> {
    pub state: S,
    pub why: Refusal,
}

// What an operation gives that worked on a state in place: the state, or the refusal with it. By reference, so that the state is copied
// once, into the result.
pub fn given<S: Copy>(done: Result<(), Refusal>, state: &S) -> Result<S, Refused<S>>
    ensures { result ≡ left done state.now }
{
    match done {
        Ok(()) => Ok(*state),
        Err(why) => Err(Refused { why, state: *state }),
    }
}

// The same of one that makes a packet, or counts units. Two functions: in one, who makes nothing would take a pair apart. Here the
// state has two places in the result, beside the packet or the count and alone, so the function is not inlined: else each field is moved
// by itself.
#[inline(never)]
pub fn given_with<T: Copy, S: Copy>(
    made: Result<T, Refusal>,
    state: &S,
) -> Result<(T, S), Refused<S>>
    ensures { result ≡ left_with made state.now }
{
    match made {
        Ok(x) => Ok((x, *state)),
        Err(why) => Err(Refused { why, state: *state }),
    }
}

// The number of an answer: 0 where it was done.
pub fn answer<T, S>(given: &Result<T, Refused<S>>) -> u32
    ensures { result ≡ answer_of given.now }
{
    match given {
        Ok(_) => 0,
        Err(refused) => refused.why.into(),
    }
}
