// The least common multiple of the periods of a table.
ghost use Rattle.std.specs.Bool.{then_some};
ghost use Rattle.std.specs.Prelude.{◌≡◌, leb};
ghost use Rattle.rehearsal.specs.Bench.{Unrefused};
ghost use Rattle.rehearsal.specs.Multiple.{multiple, most_multiple};

use multiples::lcm_within;
use table::Table;

// Refusal 17: the multiple is above this.
pub const MOST: u32 = 1_000_000;

// Where it is at most `MOST`: it grows with each task, so that the first to pass the limit ends the search.
pub(crate) fn multiple(t: &Table) -> Option<u32>
    requires { Unrefused t.now }
    ensures { result ≡ then_some (leb (multiple t.now) most_multiple) (multiple t.now) }
{
    let mut so_far: u32 = 1;
    for task in t.tasks() {
        so_far = lcm_within(so_far, task.t, MOST)?;
    }
    Some(so_far)
}
