// The checksum of a run.
ghost use Rattle.std.specs.Prelude.{◌≡◌, ◌≤◌, IfOk, length};
ghost use Rattle.soak.specs.Tally.{mixed, all_mixed, tally_of};

use rules::Refusal;

// The sum is turned by five places, and the number is added.
#[tactic(auto, unfolding(crate::specs::Tally::mixed))]
fn mixed(sum: u64, v: u64) -> u64
    ensures { result ≡ mixed sum v }
{
    ((sum << 5) ^ (sum >> 59)).wrapping_add(v)
}

// An event's answer, how many units it delivered, and the units. The answer is its number, as `tallied`
// of specs/Tally.antt has it.
#[tactic(auto, using(crate::proofs::Tallies::all_mixed_more))]
fn summed(sum: u64, answer: u32, units: &[u64]) -> u64
    ensures { result ≡ all_mixed (mixed (mixed sum answer) (length units.now)) units.now }
{
    let mut s = mixed(mixed(sum, answer as u64), units.len() as u64);
    for &unit in units {
        s = mixed(s, unit);
    }
    s
}

// The same, of what the event gave and the row.
pub fn tallied(sum: u64, given: Result<usize, Refusal>, row: &[u64]) -> u64
    requires { IfOk given (λ n. n ≤ length row.now) }
    ensures { result ≡ tally_of sum given row.now }
{
    match given {
        Ok(count) => summed(sum, 0, &row[..count]),
        Err(why) => summed(sum, why.into(), &[]),
    }
}
