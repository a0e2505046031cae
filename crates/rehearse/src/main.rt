// Rehearses the table of platform.csv and tasks.csv, of the working folder, and writes for each task how many jobs it
// started and the tick at which it was late, or the refusal.
#![tactic(auto)]

ghost use Rattle.trials.specs.Rehearse.{rehearse_text};
ghost use Rattle.trials.proofs.Sizes.{rehearse_fits};

use files::Listing;
use std::io;
use texts::UnitTexts;
use writers::Written;

const LISTING: usize = trials::REHEARSE_MOST;

struct Rehearse;

impl Listing<LISTING> for Rehearse {
    ghost text = { rehearse_text };

    fn write(unit: UnitTexts, out: &mut [u8]) -> Written {
        trials::rehearse(unit, out)
    }

    ghost fits = { rehearse_fits };
}

fn main(rt: HostRuntime) -> io::Result<()> {
    let mut out = [0u8; LISTING];
    // Never refused, as `put_listing` says: the buffer is as long as the longest listing.
    let listing = files::put_listing::<LISTING, Rehearse, HostRuntime>(&rt, &mut out);
    rt.write_all(&out[..listing.length])
}
