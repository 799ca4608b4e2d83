// Reading a script: a line without its line feed is a key, `=` and a value. What a line can ask for is in specs/Lines.antt.
#![tactic(auto)]

ghost use Rattle.std.specs.Prelude.{◌≡◌, option_map, option_copied};
ghost use Rattle.reader.specs.Values.{value_of};
ghost use Rattle.reader.specs.Lines.{field_of, event_for, events, only_one, line_of, nth, setup_keys, setup_value};

use rules::Event;
use std::str;

pub mod inner;

// 1 to 20 decimal digits whose number is below 2^64.
#[tactic(auto, using(crate::proofs::Values::value_none, crate::proofs::Values::value_begins, crate::proofs::Values::value_other, crate::proofs::Values::value_ends))]
pub fn read_value(d: &[u8]) -> Option<u64>
    ensures { result ≡ value_of d.now }
{
    if d.is_empty() || 20 < d.len() {
        return None;
    }
    let mut v: u64 = 0;
    for &b in d {
        let x = char::from(b).to_digit(10)?;
        v = v.checked_mul(10)?.checked_add(u64::from(x))?;
    }
    Some(v)
}

// A line's key and the value after its `=`.
#[tactic(auto, using(crate::proofs::Lines::field_cut, crate::proofs::Lines::field_no_value, crate::proofs::Lines::field_both))]
fn read_field(line: &[u8]) -> Option<(&[u8], u64)>
    ensures { option_map (λ f. (f.0.now, f.1)) result ≡ field_of line.now }
{
    let e = inner::index(line, 0, b'=')?;
    let x = read_value(&line[e + 1..])?;
    Some((&line[..e], x))
}

// An event line without its line feed.
#[tactic(auto, using(crate::proofs::Lines::line_no_text), unfolding(crate::specs::Lines::line_of))]
pub fn read_event(line: &[u8]) -> Option<Event>
    ensures { result ≡ line_of line.now }
{
    let (key, x) = read_field(line)?;
    to_event(str::from_utf8(key).ok()?, x)
}

// What the key asks for with the value x.
#[tactic(auto, unfolding(crate::specs::Lines::event_for))]
fn to_event(key: &str, x: u64) -> Option<Event>
    ensures { result ≡ event_for key.now x events }
{
    match key {
        "accept" => Some(Event::Accept(x)),
        "send" => Some(Event::Send(x)),
        "data" => Some(Event::Data(x)),
        "hear" => Some(Event::Hear(x)),
        "dropd" => Some(Event::DropD(x)),
        "dropa" => Some(Event::DropA(x)),
        "dupd" => Some(Event::DupD(x)),
        "dupa" => Some(Event::DupA(x)),
        "room" => only_one(x, Event::Room),
        "ack" => only_one(x, Event::Ack),
        "tick" => only_one(x, Event::Tick),
        _ => None,
    }
}

// An event whose value must be 1.
fn only_one(x: u64, e: Event) -> Option<Event>
    ensures { result ≡ only_one e x }
{
    (x == 1).then_some(e)
}

// The value of setup line n, from 1, without its line feed.
#[tactic(auto, unfolding(crate::specs::Lines::setup_value))]
pub fn read_setup(line: &[u8], n: usize) -> Option<u64>
    ensures { result ≡ setup_value n line.now }
{
    let (key, x) = read_field(line)?;
    let name = setup_key(n)?;
    (key == name.as_bytes()).then_some(x)
}

// The key of setup line n, from 1: the number is the line's, as `setup_value` has it.
#[tactic(auto, unfolding(crate::specs::Lines::nth))]
fn setup_key(n: usize) -> Option<&'static str>
    ensures { option_copied result ≡ nth n setup_keys }
{
    match n {
        1 => Some("window"),
        2 => Some("seqbits"),
        3 => Some("clockbits"),
        4 => Some("life"),
        5 => Some("rate"),
        6 => Some("seq"),
        7 => Some("sclock"),
        8 => Some("rclock"),
        _ => None,
    }
}
