// Writes for each pair of tasks of platform.csv and tasks.csv, of the working folder, what the one takes of the other's
// limit, or the refusal.
#![tactic(auto)]

ghost use Rattle.shares.specs.Explain.{explain_text};
ghost use Rattle.shares.proofs.Sizes.{explain-fits};

use files::Listing;
use std::io;
use texts::UnitTexts;
use writers::Written;

const LISTING: usize = shares::EXPLAIN_MOST;

struct Explain;

impl Listing<LISTING> for Explain {
    ghost text = { explain_text };

    fn write(unit: UnitTexts, out: &mut [u8]) -> Written {
        shares::explain(unit, out)
    }

    ghost fits = { explain-fits };
}

fn main(rt: HostRuntime) -> io::Result<()> {
    let mut out = [0u8; LISTING];
    // Never refused, as `put_listing` says: the buffer is as long as the longest listing.
    let listing = files::put_listing::<LISTING, Explain, HostRuntime>(&rt, &mut out);
    rt.write_all(&out[..listing.length])
}
