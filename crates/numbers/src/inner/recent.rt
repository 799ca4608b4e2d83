// Recent, the remembered timestamp: tested against, made older, checked.
ghost use Rattle.std.specs.Prelude.{◌≡◌, ◌<◌, ◌≤◌};
ghost use Rattle.rules.specs.Numbers.{wrapped, NC};
ghost use Rattle.rules.specs.Parts.{since};
ghost use Rattle.rules.specs.Malformed.{formed_recent};
ghost use Rattle.rules.specs.Events.{passed, older};

use super::{Range, in_bits};
use rules::{Recent, Setup};

// The timestamp test: a packet that fails it is stale. The bits are a `requires`: the setup is a public value, and its range is made in
// here.
pub fn passes(s: Setup, r: Recent, stamp: u32) -> bool
    requires { (s.clockbits ≤ 32) × (r.stamp < NC s) × (stamp < NC s) }
    ensures { result ≡ passed (wrapped s) r stamp }
{
    if !r.held {
        return true;
    }
    let clocks = Range::new(s.clockbits);
    (clocks.apart(stamp, r.stamp) as u64) < clocks.size() / 2
}

// The timestamp of a packet that has just come.
pub fn since(stamp: u32) -> Recent
    ensures { result ≡ since stamp 0 }
{
    Recent {
        held: true,
        stamp,
        age: 0,
    }
}

// Recent after a tick: gone where its age would pass the packets' life.
pub fn aged(life: u32, r: Recent) -> Recent
    ensures { result ≡ older life r }
{
    if r.held && r.age < life {
        return Recent {
            age: r.age + 1,
            ..r
        };
    }
    Recent::default()
}

pub fn formed(s: Setup, r: Recent) -> bool
    ensures { result ≡ formed_recent (wrapped s) s r }
{
    if r.held {
        in_bits(s.clockbits, r.stamp) & (r.age <= s.life)
    } else {
        r == Recent::default()
    }
}
