// Where a line or a key ends.
ghost use Rattle.std.specs.Prelude.{◌≤◌, length};
ghost use Rattle.reader.specs.Cuts.{First};

// The place of the first b of s from `from` on, if there is one.
pub fn index(s: &[u8], from: usize, b: u8) -> Option<usize>
    requires { from ≤ length s.now }
    ensures { First b s.now from result }
{
    let k = s[from..].iter().position(|x| *x == b)?;
    Some(from + k)
}
