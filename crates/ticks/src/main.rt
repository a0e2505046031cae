// Runs the ticks of standard input on the fresh machine of platform.csv and tasks.csv, of the working folder, and
// writes a row for each, or the refusal.
#![tactic(auto)]

ghost use Rattle.std.specs.Prelude.{◌≤◌, ◌≡◌, length};
ghost use Rattle.std.specs.Option.{IfSome, option_copied};
ghost use Rattle.table.specs.Refused.{no_refusal};
ghost use Rattle.files.specs.Got.{Whole};

use files::ROOM;
use std::io;
use std::rt::Files;
use writers::Written;

const LISTING: usize = runs::TICKS_MOST;

// The text of standard input. An array is lent at its length: the prover would count out one that the function itself
// makes.
fn read_input<'a, R: Input>(rt: &R, buf: &'a mut [u8; ROOM]) -> Option<&'a [u8]>
    ensures { IfSome (option_copied result) (λ text. length text ≤ length buf.old) }
{
    let mut input = rt.reader();
    let count = files::read_all(&mut input, buf)?;
    Some(&buf[..count])
}

// What the files and standard input give, and how long it is. The buffer is never too short.
fn put_listing<R: Files + Input>(rt: &R, out: &mut [u8; LISTING]) -> Written
    ensures { (result.refused ≡ no_refusal) × Whole result.length out.new }
{
    let mut platform = [0u8; ROOM];
    let mut tasks = [0u8; ROOM];
    let unit = files::read_table(rt, &mut platform, &mut tasks);
    let mut reports = [0u8; ROOM];
    let input = read_input(rt, &mut reports);
    runs::ticks(unit, input, out)
}

fn main(rt: HostRuntime) -> io::Result<()> {
    let mut out = [0u8; LISTING];
    let listing = put_listing(&rt, &mut out);
    rt.write_all(&out[..listing.length])
}
