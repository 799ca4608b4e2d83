// A line of output, written piece by piece. A clause sees the bytes that stand in it; there is room for `CAPACITY`.
ghost use Rattle.std.specs.Prelude.{◌≡◌, ℕ, ◌+◌, ◌*◌, ◌<◌, ◌≤◌, List, [], ◌∷◌, ◌++◌, length, take};
ghost use Rattle.writer.specs.Row.{Put};
ghost use Rattle.writer.specs.Decimal.{decimal};
ghost use Rattle.writer.specs.Lines.{then_units, event_line};

use std::marker::Model;

// The longest line has 64 units of 20 digits. No `Vec`: the memory is fixed, so each piece asks for its room; and no
// `write!`: what a format writes is known of a `String` alone.
pub const CAPACITY: usize = 2048;

#[derive(Drop)]
pub struct Line {
    bytes: [u8; CAPACITY],
    len: usize,
}

impl Model for Line {
    ghost use Rattle.std.specs.Prelude.{ℕ, ◌≤◌, List, take};
    ghost use Rattle.writer.specs.declared.inner.TheConstants.{CAPACITY};

    ghost Value = { List ℕ };

    ghost view = { λ l. take l.len l.bytes };

    ghost invariant = { λ l. l.len ≤ CAPACITY };
}

impl Line {
    pub fn new() -> Line
        ensures { result ≡ [] }
    {
        Line {
            bytes: [0; CAPACITY],
            len: 0,
        }
    }

    pub fn clear(&mut self)
        ensures { self.new ≡ [] }
    {
        self.len = 0;
    }

    pub fn len(&self) -> usize
        ensures value { result ≡ length self.now }
        ensures fits { result ≤ CAPACITY }
    {
        self.len
    }

    pub fn as_bytes(&self) -> &[u8]
        ensures { result.now ≡ self.now }
    {
        &self.bytes[..self.len]
    }

    // Copies the line into a lent row from the place `at` on, and gives the place after it.
    #[tactic(auto, using(crate::proofs::Row::put_copied))]
    pub fn copy_to(&self, out: &mut [u8], at: usize) -> usize
        requires { at + length self.now ≤ length out.old }
        ensures { Put out.old out.new at self.now result }
    {
        let end = at + self.len;
        out[at..end].copy_from_slice(self.as_bytes());
        end
    }

    pub fn push(&mut self, b: u8)
        requires { length self.old < CAPACITY }
        ensures { self.new ≡ self.old ++ b ∷ [] }
    {
        self.bytes[self.len] = b;
        self.len += 1;
    }

    pub fn push_bytes(&mut self, src: &[u8])
        requires { length self.old + length src.now ≤ CAPACITY }
        ensures { self.new ≡ self.old ++ src.now }
    {
        let end = self.len + src.len();
        self.bytes[self.len..end].copy_from_slice(src);
        self.len = end;
    }

    // A number in decimal, which has at most 20 digits.
    #[tactic(auto, using(crate::proofs::Decimal::decimal_text))]
    pub fn push_number(&mut self, n: u64)
        requires { length self.old + 20 ≤ CAPACITY }
        ensures text { self.new ≡ self.old ++ decimal n }
        ensures short { length self.new ≤ length self.old + 20 }
    {
        let mut digits = itoa::Buffer::new();
        self.push_bytes(digits.format(n).as_bytes());
    }

    // A space and a number.
    pub fn push_spaced(&mut self, n: u64)
        requires { length self.old + 21 ≤ CAPACITY }
        ensures text { self.new ≡ self.old ++ (32 ∷ decimal n) }
        ensures short { length self.new ≤ length self.old + 21 }
    {
        self.push(b' ');
        self.push_number(n);
    }

    // Each unit after a space, and a line feed.
    #[tactic(auto, using(crate::proofs::Units::units_next, crate::proofs::Units::units_end))]
    fn push_units(&mut self, units: &[u64])
        requires { length self.old + (length units.now * 21 + 1) ≤ CAPACITY }
        ensures { self.new ≡ self.old ++ then_units units.now }
    {
        for &unit in units {
            self.push_spaced(unit);
        }
        self.push(b'\n');
    }

    // The line of an event: its number, the answer, the delivered units. The answer is its number, as `event_line` has it.
    #[tactic(auto, unfolding(crate::specs::Lines::event_line))]
    pub fn push_event(&mut self, event: u64, answer: u64, units: &[u64])
        requires { length self.old + (42 + length units.now * 21) ≤ CAPACITY }
        ensures { self.new ≡ self.old ++ event_line event answer units.now }
    {
        self.push_number(event);
        self.push_spaced(answer);
        self.push_units(units);
    }
}
