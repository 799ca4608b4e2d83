// The events of a run: a stream of random numbers, and the event that a number stands for.
ghost use Rattle.std.specs.Prelude.{◌≡◌};
ghost use Rattle.rules.specs.Asked.{event_of};
ghost use Rattle.soak.specs.Draw.{first_draw, next_draw, lapse, chosen};

use rules::Event;

// A stream that reached 0 would stay there, so a seed of 0 stands for another.
pub fn first(seed: u64) -> u64
    ensures { result ≡ first_draw seed }
{
    if seed == 0 {
        return 88172645463325252;
    }
    seed
}

// xorshift64: three shifts, each combined with what it was made of.
pub fn next(x: u64) -> u64
    ensures { result ≡ next_draw x }
{
    let a = x ^ (x << 13);
    let b = a ^ (a >> 7);
    b ^ (b << 17)
}

// The last five bits choose the kind, and those past the eighth a place near the front. In 4 of 32 draws the fabric loses or
// copies a packet.
#[tactic(auto, unfolding(crate::specs::Draw::chosen, crate::specs::Draw::lapse), using(std::proofs::lemmas::Bool::Decides::nat_tests))]
pub fn choose(x: u64) -> Event
    ensures { event_of result 64 ≡ chosen x }
{
    let v = x >> 8;
    match x % 32 {
        0..=2 => Event::Accept(x),
        3..=9 => Event::Send(v % 4),
        10..=14 => Event::Data(v % 2),
        15..=17 => Event::Room,
        18..=21 => Event::Ack,
        22..=25 => Event::Hear(v % 2),
        26..=27 => Event::Tick,
        28 => Event::DropD(v % 2),
        29 => Event::DropA(v % 2),
        30 => Event::DupD(v % 2),
        _ => Event::DupA(v % 2),
    }
}
