// What a script prints: the listing of its bytes. specs/Listing.antt defines it; `inner` writes it a line or a row at a time.
#![tactic(auto)]

ghost use Rattle.listing.specs.Fitting.{Wrote};

use inner::Step;
use writer::inner::Line;

pub mod inner;

// How many bytes of the row were written, and whether they are the whole listing. No `Option`: the contract `Wrote` has both in each case.
#[derive(Clone, Copy)]
pub struct Written {
    pub len: usize,
    pub whole: bool,
}

// Writes the listing of a script into `out` from its start. Where the row is too short it holds the longest part of the listing
// that is whole lines and fits, and `whole` is false. Places past `len` stay.
pub fn write(src: &[u8], out: &mut [u8]) -> Written
    ensures { Wrote src.now out.old out.new result }
{
    let mut line = Line::new();
    let first = inner::set_first(src, &mut line);
    if out.len() < line.len() {
        return Written {
            len: 0,
            whole: false,
        };
    }
    let len = line.copy_to(out, 0);
    match first {
        Step::Over(_) => Written { len, whole: true },
        Step::More(run) => {
            let part = inner::fill(src, run, out, len);
            Written {
                len: part.end,
                whole: matches!(part.left, Step::Over(_)),
            }
        }
    }
}
