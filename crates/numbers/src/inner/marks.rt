// The mark word: one bit for each of at most 64 slots.
// `i < 64` stays a `requires`: a type of slots would be opened again at each array index, and be no plainer.
ghost use Rattle.std.specs.Prelude.{◌≡◌, ◌<◌};
ghost use Rattle.rules.specs.Marks.{marked, mark, unmark};

pub fn is_marked(m: u64, i: u32) -> bool
    requires { i < 64 }
    ensures { result ≡ marked m i }
{
    (m >> i) & 1 == 1
}

pub fn with_mark(m: u64, i: u32) -> u64
    requires { i < 64 }
    ensures { result ≡ mark m i }
{
    m | (1u64 << i)
}

pub fn without_mark(m: u64, i: u32) -> u64
    requires { i < 64 }
    ensures { result ≡ unmark m i }
{
    m & !(1u64 << i)
}
