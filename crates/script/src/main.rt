// Runs the script on standard input, and writes its listing to standard output.
#![tactic(auto)]

ghost use Rattle.std.specs.Prelude.{◌<◌, ◌≤◌, length, take, IfSome, IfOk, OnOk, OnErr};
ghost use Rattle.std.specs.Io.KnownBytes.{Consumes, Appends, IsAtEnd};
ghost use Rattle.rules.specs.Numbers.{wrapped, whole};
ghost use Rattle.listing.specs.Listing.{listing};
ghost use Rattle.script.specs.Failed.{AppendsStart, ConsumesStart};

use listing::inner::Step;
use std::io::{self, Read, Write};

// Reads until buf is full or the input ends: how many bytes it put at the start of buf. Where a read fails, what is gone from the
// input stands there.
fn read_full<R: Read>(input: &mut R, buf: &mut [u8]) -> io::Result<usize>
    ensures within { IfOk result (λ n. n ≤ length buf.new) }
    ensures bytes { IfOk result (λ n.
        Consumes (R.remaining input.old) (R.remaining input.new) (take n buf.new)) }
    ensures whole { IfOk result (λ n. n < length buf.new → IsAtEnd (R.remaining input.new)) }
    ensures err { OnErr result (ConsumesStart (R.remaining input.old) (R.remaining input.new) buf.new) }
{
    // not std's `read_exact`: it fails where the input is shorter than buf, and does not say what it took before, as `err` does
    let mut done = 0;
    while done < buf.len() {
        let n = input.read(&mut buf[done..])?;
        if n == 0 {
            break;
        }
        done += n;
    }
    Ok(done)
}

// Writes all of buf. Where a write fails, or takes nothing, what was written is a beginning of buf.
fn write_full<W: Write>(output: &mut W, buf: &[u8]) -> io::Result<()>
    ensures ok { OnOk result (Appends (W.contents output.old) (W.contents output.new) buf.now) }
    ensures err { OnErr result (AppendsStart (W.contents output.old) (W.contents output.new) buf.now) }
{
    // not std's `write_all`: it does not say what it wrote before it failed, as `err` does
    let mut done = 0;
    while done < buf.len() {
        let n = output.write(&buf[done..])?;
        if n == 0 {
            return Err(io::ErrorKind::WriteZero.into());
        }
        done += n;
    }
    Ok(())
}

// The first line, and then rows of whole lines as long as there are more: what they hold, joined, is the listing. Where a write
// fails, what was written is a beginning of the listing.
fn write_listing<W: Write>(output: &mut W, src: &[u8]) -> io::Result<()>
    ensures ok { OnOk result
        (Appends (W.contents output.old) (W.contents output.new) (listing wrapped src.now)) }
    ensures err { OnErr result
        (AppendsStart (W.contents output.old) (W.contents output.new) (listing wrapped src.now)) }
{
    let mut row = [0u8; 16384];
    let mut part = listing::inner::first_line(src, &mut row);
    write_full(output, &row[..part.end])?;
    while let Step::More(run) = part.left {
        part = listing::inner::fill(src, run, &mut row, 0);
        write_full(output, &row[..part.end])?;
    }
    Ok(())
}

// Runs the script that the input holds: what is written is the listing of all that the input has left, as numbers give it that never
// wrap. Where a read or a write fails, it is a beginning of it.
fn run<R: Read, W: Write>(input: &mut R, output: &mut W) -> io::Result<()>
    ensures ok { OnOk result (IfSome (R.remaining input.old) (λ xs.
        Appends (W.contents output.old) (W.contents output.new) (listing whole xs))) }
    ensures err { OnErr result (IfSome (R.remaining input.old) (λ xs.
        AppendsStart (W.contents output.old) (W.contents output.new) (listing whole xs))) }
{
    // one byte more than a script may have, so that a script that is too long is seen; no `Vec`: the memory is fixed
    let mut script = [0u8; 65536 + 1];
    let n = read_full(input, &mut script)?;
    write_listing(output, &script[..n])
}

fn main(rt: HostRuntime) -> io::Result<()> {
    run(&mut rt.stdin(), &mut rt.stdout())
}
