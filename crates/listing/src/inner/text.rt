// The lines of a listing that no event makes.
ghost use Rattle.std.specs.Prelude.{◌≡◌, ◌+◌, ◌≤◌, length};
ghost use Rattle.writer.specs.declared.inner.TheConstants.{CAPACITY};
ghost use Rattle.listing.specs.Listing.{word_line, bad_line, setup_line};

use writer::inner::Line;

// A word, a space and a number.
#[tactic(auto, unfolding(crate::specs::Listing::word_line))]
fn set_word(line: &mut Line, word: &[u8], n: u64)
    requires { length word.now + 22 ≤ CAPACITY }
    ensures { line.new ≡ word_line word.now n }
{
    line.clear();
    line.push_bytes(word);
    line.push_spaced(n);
    line.push(b'\n');
}

pub fn set_bad(line: &mut Line, number: u64)
    ensures { line.new ≡ bad_line number }
{
    set_word(line, b"bad line", number);
}

// The answer is its number, as `setup_line` has it.
pub fn set_setup(line: &mut Line, answer: u64)
    ensures { line.new ≡ setup_line answer }
{
    set_word(line, b"setup", answer);
}
