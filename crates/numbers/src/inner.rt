// A range of 2 to the power `bits` values, with bits at most 32, and a ring of at most 64 slots.
ghost use Rattle.std.specs.Prelude.{◌≡◌, ◌+◌, ◌%◌, ◌^◌, ◌<◌, ◌≤◌, nat_lt};
ghost use Rattle.rules.specs.Numbers.{dist};

pub mod marks;
pub mod recent;

// The numbers of a range: 0 up to 2 to the power `bits`, and round again.
#[derive(Clone, Copy)]
pub struct Range {
    pub bits: u32,
    ghost fits: { bits ≤ 32 },
}

impl Range {
    pub fn new(bits: u32) -> Range
        requires { bits ≤ 32 }
        ensures { result.bits ≡ bits }
    {
        Range { bits }
    }

    // How many values the range has.
    pub fn size(self) -> u64
        ensures { (result ≡ 2 ^ self.bits) × (1 ≤ result) × (result ≤ 2 ^ 32) }
    {
        1u64 << self.bits
    }

    // The number is one of the range.
    pub fn contains(self, x: u32) -> bool
        ensures { result ≡ nat_lt x (2 ^ self.bits) }
    {
        in_bits(self.bits, x)
    }

    // a - b round the range.
    pub fn apart(self, a: u32, b: u32) -> u32
        requires { (a < 2 ^ self.bits) × (b < 2 ^ self.bits) }
        ensures { result ≡ dist (2 ^ self.bits) a b }
    {
        let d = a.wrapping_sub(b);
        ((d as u64) % self.size()) as u32
    }

    // a + k round the range.
    pub fn moved(self, a: u32, k: u32) -> u32
        ensures { (result ≡ (a + k) % 2 ^ self.bits) × (result < 2 ^ self.bits) }
    {
        let d = a.wrapping_add(k);
        ((d as u64) % self.size()) as u32
    }
}

// The number is below 2 to the power `bits`, whatever the bits: from 32 on each number is. No branch, so that a loop over packets
// makes the power once.
#[tactic(auto, using(crate::proofs::Laws::below_capped))]
pub fn in_bits(bits: u32, x: u32) -> bool
    ensures { result ≡ nat_lt x (2 ^ bits) }
{
    (x as u64) < 1u64 << bits.min(32)
}

// The slots of a window: a number's slot is its remainder.
#[derive(Clone, Copy)]
pub struct Ring {
    pub window: u32,
    ghost some: { 1 ≤ window },
    ghost most: { window ≤ 64 },
}

impl Ring {
    pub fn new(window: u32) -> Ring
        requires { (1 ≤ window) × (window ≤ 64) }
        ensures { result.window ≡ window }
    {
        Ring { window }
    }

    pub fn slot(self, q: u32) -> u32
        ensures { (result ≡ q % self.window) × (result < self.window) }
    {
        q % self.window
    }

    // The slot that lies d ahead of q's.
    pub fn slot_ahead(self, q: u32, d: u32) -> u32
        ensures { (result ≡ (q + d) % self.window) × (result < self.window) }
    {
        ((q as u64 + d as u64) % (self.window as u64)) as u32
    }
}
