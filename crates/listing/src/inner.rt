// Running a script. A run stands at the start of a line; a step reads that line, runs its event and writes one line of the listing.
ghost use Rattle.std.specs.Prelude.{◌≡◌, ◌≤◌, length, nat_lt};
ghost use Rattle.listing.specs.Run.{Ready, SetFirst, Opened, Stepped, nowhere, step_of};
ghost use Rattle.listing.specs.Fitting.{Filled};

use rules::Bench;
use writer::inner::Line;

mod begin;
mod text;

// Where a run stands: the place of the next line, its number, and the number of the next event.
#[derive(Clone, Copy)]
pub struct Run {
    pub at: usize,
    pub line: u64,
    pub event: u64,
    pub bench: Bench,
}

// Where a line leaves the run: the script has another line, or the listing is over. No `Option`: `then` of `WroteLine` and `Filled` says
// of the run in that case too.
#[derive(Clone, Copy)]
pub enum Step {
    More(Run),
    Over(Run),
}

// A part of the listing in a row: the place after it, and where it leaves the run.
#[derive(Clone, Copy)]
pub struct Part {
    pub end: usize,
    pub left: Step,
}

// The run of a script that has none.
fn nowhere() -> Run
    ensures { result ≡ nowhere }
{
    Run {
        at: 0,
        line: 0,
        event: 0,
        bench: bench::inner::first(setup::zero()),
    }
}

// There is more if the run stands before the script's end.
fn leave(src: &[u8], run: Run) -> Step
    ensures { result ≡ step_of (nat_lt run.at (length src.now)) run }
{
    if run.at < src.len() {
        Step::More(run)
    } else {
        Step::Over(run)
    }
}

// The first line of the listing: the setup lines are read, and the setup is judged.
#[tactic(auto, using(crate::proofs::Setups::first_long, crate::proofs::Setups::first_bad, crate::proofs::Setups::first_refused, crate::proofs::Setups::set_first_on, crate::proofs::Setups::set_first_last))]
pub(crate) fn set_first(src: &[u8], line: &mut Line) -> Step
    ensures { SetFirst src.now line.new result }
{
    if 65536 < src.len() {
        line.clear();
        line.push_bytes(b"bad input\n");
        return Step::Over(nowhere());
    }
    let setup = match begin::read_lines(src) {
        Ok(setup) => setup,
        Err(bad) => {
            text::set_bad(line, bad.number);
            return Step::Over(nowhere());
        }
    };
    let bench = match begin::judge(setup.values) {
        Ok(bench) => bench,
        Err(why) => {
            text::set_setup(line, why as u64);
            return Step::Over(nowhere());
        }
    };
    text::set_setup(line, 0);
    let run = Run {
        at: setup.end,
        line: 9,
        event: 1,
        bench,
    };
    leave(src, run)
}

// The same, put at the start of a lent row. The rest of the row stays.
pub fn first_line(src: &[u8], out: &mut [u8]) -> Part
    requires { 2048 ≤ length out.old }
    ensures { Opened src.now out.old out.new result }
{
    let mut line = Line::new();
    let left = set_first(src, &mut line);
    // the place after the line: at most 2,048, so the row has room for it
    let end = line.len();
    line.copy_to(out, 0);
    Part { end, left }
}

// The line of the listing for the script's line at which the run stands. The run ends with a bad line, and with the script.
#[tactic(auto, using(crate::proofs::Steps::stepped_cut, crate::proofs::Steps::stepped_bad))]
pub(crate) fn next_line(src: &[u8], run: Run, line: &mut Line) -> Step
    requires { Ready src.now run }
    ensures { Stepped src.now run line.new result }
{
    let Some(end) = reader::inner::index(src, run.at, b'\n') else {
        text::set_bad(line, run.line);
        return Step::Over(run);
    };
    let Some(event) = reader::read_event(&src[run.at..end]) else {
        text::set_bad(line, run.line);
        return Step::Over(run);
    };
    let mut units = [0u64; 64];
    let given = bench::apply(run.bench, event, &mut units);
    let answer = rules::answer(&given);
    let (count, bench) = given.unwrap_or_else(|refused| (0, refused.state));
    line.clear();
    line.push_event(run.event, u64::from(answer), &units[..count]);
    let next = Run {
        at: end + 1,
        line: run.line + 1,
        event: run.event + 1,
        bench,
    };
    leave(src, next)
}

// Writes the lines of the listing from `run` on into `out`, from the place `from` on, as long as whole lines fit.
pub fn fill(src: &[u8], run: Run, out: &mut [u8], from: usize) -> Part
    requires ready { Ready src.now run }
    requires from_in_bounds { from ≤ length out.old }
    ensures { Filled src.now run out.old out.new from result }
{
    let mut line = Line::new();
    let mut left = Step::More(run);
    let mut end = from;
    while let Step::More(here) = left {
        let next = next_line(src, here, &mut line);
        if out.len() - end < line.len() {
            break;
        }
        end = line.copy_to(out, end);
        left = next;
    }
    Part { end, left }
}
