// The setup: when its eight numbers are admitted.
#![tactic(auto)]

ghost use Rattle.std.specs.Prelude.{◌≡◌, ◌≤◌};
ghost use Rattle.rules.specs.Setups.{is_window, in_limits, in_ranges, admitted, same_setup, zero_setup};

use numbers::inner::Range;
use rules::Setup;

// A setup that is not admitted is refused as `NotAdmitted` wherever a fresh state is asked for, and makes every state malformed.
pub fn admitted(s: Setup) -> bool
    ensures { result ≡ admitted s }
{
    within_limits(s) && within_ranges(s)
}

// The same eight numbers.
pub fn same(s: Setup, t: Setup) -> bool
    ensures { result ≡ same_setup s t }
{
    s == t
}

// All eight numbers 0: what the state of a refused setup carries.
pub fn zero() -> Setup
    ensures { result ≡ zero_setup }
{
    Setup::default()
}

fn window_allowed(w: u32) -> bool
    ensures { result ≡ is_window w }
{
    (w == 1) | (w == 2) | (w == 4) | (w == 8) | (w == 16) | (w == 32) | (w == 64)
}

fn within_limits(s: Setup) -> bool
    ensures { result ≡ in_limits s }
{
    window_allowed(s.window)
        & ((2 <= s.seqbits) & (s.seqbits <= 32))
        & ((3 <= s.clockbits) & (s.clockbits <= 32))
        & ((1 <= s.life) & (1 <= s.rate))
}

// The bits are a `requires`: the setup is a public value, and its ranges are made in here.
fn within_ranges(s: Setup) -> bool
    requires { (s.seqbits ≤ 32) × (s.clockbits ≤ 32) }
    ensures { result ≡ in_ranges s }
{
    let seqs = Range::new(s.seqbits);
    let clocks = Range::new(s.clockbits);
    seqs.contains(s.seq)
        & clocks.contains(s.sclock)
        & clocks.contains(s.rclock)
        & (3 * (s.window as u64) + (s.rate as u64) <= seqs.size())
        & (4 * (s.life as u64) + 1 <= clocks.size())
}
