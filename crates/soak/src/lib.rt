// Long runs of mixed events on one bench from fresh, with the test of the state at each event and without it. Both are proved to give
// one number, `soaked` of specs/Run.antt: a checksum over every answer, count and delivered unit.
#![tactic(auto)]

ghost use Rattle.std.specs.Prelude.{◌≡◌};
ghost use Rattle.soak.specs.Run.{soak_setup, soaked};

use rules::Setup;
use way::{Tested, Untested, Way};

mod draw;
mod tally;
mod way;

// RW 8, 64 sequence numbers, 32 clock values, L 3, B 4; the numbers start near the end of their ranges.
fn setup() -> Setup
    ensures { result ≡ soak_setup }
{
    Setup {
        window: 8,
        seqbits: 6,
        clockbits: 5,
        life: 3,
        rate: 4,
        seq: 60,
        sclock: 30,
        rclock: 7,
    }
}

// The checksum of a run of so many events.
fn run<W: Way>(seed: u64, events: u64) -> u64
    ensures { result ≡ soaked seed events }
{
    let mut row = [0u64; 64];
    let mut b = bench::inner::first(setup());
    let mut x = draw::first(seed);
    let mut sum = 0;
    for _ in 0..events {
        let given = W::apply(&mut b, draw::choose(x), &mut row);
        sum = tally::tallied(sum, given, &row);
        x = draw::next(x);
    }
    sum
}

// Two functions of one run, as C calls both. Each event goes through the bench's public operation, which tests the bench first: the
// contract of `Tested` is of any bench, so it has to. That this run takes that way no contract says, since both give one number.
pub fn checked(seed: u64, events: u64) -> u64
    ensures { result ≡ soaked seed events }
{
    run::<Tested>(seed, events)
}

// No event tests the bench: a bench that is reached from fresh is never malformed.
pub fn unchecked(seed: u64, events: u64) -> u64
    ensures { result ≡ soaked seed events }
{
    run::<Untested>(seed, events)
}
