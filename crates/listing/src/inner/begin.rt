// The setup lines, and the bench that they ask for.
ghost use Rattle.std.specs.Prelude.{◌≡◌};
ghost use Rattle.listing.specs.Listing.{setup_of};
ghost use Rattle.listing.specs.Run.{SetupRead, fitting, opened};

use rules::{Bench, Refusal, Setup};

// The values of the setup lines, and the place after the lines.
#[derive(Clone, Copy)]
pub struct SetupLines {
    pub values: [u64; 8],
    pub end: usize,
}

// The number of a setup line that is missing, unfinished or bad.
#[derive(Clone, Copy)]
pub struct BadLine {
    pub number: u64,
}

#[tactic(auto, using(crate::proofs::Setups::open_done))]
pub fn read_lines(src: &[u8]) -> Result<SetupLines, BadLine>
    ensures { SetupRead src.now result }
{
    let mut values = [0u64; 8];
    let mut at = 0;
    for (i, value) in values.iter_mut().enumerate() {
        let bad = BadLine {
            number: i as u64 + 1,
        };
        let end = reader::inner::index(src, at, b'\n').ok_or(bad)?;
        *value = reader::read_setup(&src[at..end], i + 1).ok_or(bad)?;
        at = end + 1;
    }
    Ok(SetupLines { values, end: at })
}

// The setup of the eight values, where each fits its field of 32 bits.
#[tactic(auto, using(std::proofs::lemmas::Bool::Decides::nat_tests, crate::proofs::Setups::also_left, crate::proofs::Setups::also_right, crate::proofs::Setups::also_from), unfolding(crate::specs::Listing::in_fields))]
fn to_setup(v: [u64; 8]) -> Option<Setup>
    ensures { result ≡ fitting (setup_of v) }
{
    Some(Setup {
        window: u32::try_from(v[0]).ok()?,
        seqbits: u32::try_from(v[1]).ok()?,
        clockbits: u32::try_from(v[2]).ok()?,
        life: u32::try_from(v[3]).ok()?,
        rate: u32::try_from(v[4]).ok()?,
        seq: u32::try_from(v[5]).ok()?,
        sclock: u32::try_from(v[6]).ok()?,
        rclock: u32::try_from(v[7]).ok()?,
    })
}

// A fresh bench of the eight values; refused where one is too large for its field or the setup is not admitted.
pub fn judge(v: [u64; 8]) -> Result<Bench, Refusal>
    ensures { result ≡ opened (setup_of v) }
{
    let setup = to_setup(v).ok_or(Refusal::NotAdmitted)?;
    bench::fresh(setup).map_err(|refused| refused.why)
}
