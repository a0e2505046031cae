// Judges the table of platform.csv and tasks.csv, of the working folder, and writes a row for each task, or the
// refusal.
#![tactic(auto)]

ghost use Rattle.texts.specs.Admit.{admit_text};
ghost use Rattle.texts.proofs.Sizes.{admit-fits};

use files::Listing;
use std::io;
use texts::UnitTexts;
use writers::Written;

const LISTING: usize = texts::ADMIT_MOST;

struct Admit;

impl Listing<LISTING> for Admit {
    ghost text = { admit_text };

    fn write(unit: UnitTexts, out: &mut [u8]) -> Written {
        texts::admit(unit, out)
    }

    ghost fits = { admit-fits };
}

fn main(rt: HostRuntime) -> io::Result<()> {
    let mut out = [0u8; LISTING];
    // Never refused, as `put_listing` says: the buffer is as long as the longest listing.
    let listing = files::put_listing::<LISTING, Admit, HostRuntime>(&rt, &mut out);
    rt.write_all(&out[..listing.length])
}
