// What C and Rust call, as a static library: functions on numbers and slices. include/escarpoll.h says the same in C.
// None has a `requires`, so a caller owes nothing but what the header says of its pointers.
#![tactic(auto)]

ghost use Rattle.std.specs.Prelude.{◌≡◌};
ghost use Rattle.listing.specs.Fitting.{Wrote};
ghost use Rattle.soak.specs.Run.{soaked};

// The listing of a script, written into `out` from its start; gives how many bytes were written. Where the row is too short these are
// the lines that fit whole, and `whole` is set to false. Places past them stay.
#[unsafe(no_mangle)]
pub extern "C" fn escarpoll_listing(script: &[u8], out: &mut [u8], whole: &mut bool) -> usize
    ensures { Wrote script.now out.old out.new (record { len = result; whole = whole.new }) }
{
    let written = listing::write(script, out);
    *whole = written.whole;
    written.len
}

// The checksum of a long run from a fresh bench, with the test of the state at each event.
#[unsafe(no_mangle)]
pub extern "C" fn escarpoll_soak_checked(seed: u64, events: u64) -> u64
    ensures { result ≡ soaked seed events }
{
    soak::checked(seed, events)
}

// The same number, by a run that needs no test.
#[unsafe(no_mangle)]
pub extern "C" fn escarpoll_soak_unchecked(seed: u64, events: u64) -> u64
    ensures { result ≡ soaked seed events }
{
    soak::unchecked(seed, events)
}
