// The two ways of an event: through the public operation, which tests the bench first, and in place without the test.
ghost use Rattle.std.specs.Prelude.{length};
ghost use Rattle.rules.specs.Numbers.{wrapped};
ghost use Rattle.rules.specs.Reached.{Reached};
ghost use Rattle.rules.specs.Asked.{event_of};
ghost use Rattle.rules.specs.Operations.{step, Counts};

use rules::{Bench, Event, Refusal};

pub trait Way {
    // The event on a bench that is reached from fresh; units that come out stand at the start of the row.
    fn apply(b: &mut Bench, e: Event, row: &mut [u64]) -> Result<usize, Refusal>
        requires { Reached b.old }
        ensures { Counts (step wrapped (event_of e (length row.old)) b.old) result b.new row.old row.new };
}

pub struct Tested;

impl Way for Tested {
    // On any bench, a malformed one too, so the bench has to be tested first.
    fn apply(b: &mut Bench, e: Event, row: &mut [u64]) -> Result<usize, Refusal>
        ensures { Counts (step wrapped (event_of e (length row.old)) b.old) result b.new row.old row.new }
    {
        match bench::apply(*b, e, row) {
            Ok((count, next)) => {
                *b = next;
                Ok(count)
            }
            Err(refused) => {
                *b = refused.state;
                Err(refused.why)
            }
        }
    }
}

pub struct Untested;

impl Way for Untested {
    fn apply(b: &mut Bench, e: Event, row: &mut [u64]) -> Result<usize, Refusal> {
        bench::inner::apply(b, e, row)
    }
}
