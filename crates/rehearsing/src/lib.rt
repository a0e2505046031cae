// A table rehearsed, event by event: ticks that bring nothing are leapt over.
#![tactic(auto)]

ghost use Rattle.std.specs.Prelude.{◌≡◌, ◌≤◌};
ghost use Rattle.table.specs.Reasons.{answered};
ghost use Rattle.rehearsal.specs.Bench.{Unrefused};
ghost use Rattle.rehearsal.specs.Multiple.{multiple, most_multiple};
ghost use Rattle.rehearsal.specs.Rehearsal.{bench_refusal, rehearsed};

mod lanes;
mod multiple;
mod track;

use crate::multiple::multiple;
use crate::track::Track;
use rehearsal::Rehearsal;
use table::{Reason, Refusal, Table};

// Ticks 0 to l of a table that is not refused, l being the multiple of its periods.
fn run(t: &Table, l: u32) -> Rehearsal
    requires taken { Unrefused t.now }
    requires is_multiple { l ≡ multiple t.now }
    requires small { l ≤ most_multiple }
    ensures { result ≡ rehearsed t.now }
{
    let mut track = Track::new(t.platform);
    let mut i: u32 = 0;
    // No `for`: it leaps from event to event.
    loop {
        if let Some(task) = track.settle_all(t, i) {
            return track.ended(Some((i, task)));
        }
        if i == l {
            return track.ended(None);
        }
        i = track.begin_all(t, i);
    }
}

// The table rehearsed, or its own refusal, or 17.
pub fn tried(t: &Table) -> Result<Rehearsal, Refusal>
    ensures { result ≡ answered (bench_refusal t.now) (rehearsed t.now) }
{
    t.check()?;
    let l = multiple(t).ok_or(Reason::Multiple)?;
    Ok(run(t, l))
}

// The same as C has it: with a refusal all else is 0.
pub fn rehearse(t: &Table) -> Rehearsal
    ensures { result ≡ rehearsed t.now }
{
    match tried(t) {
        Ok(rehearsal) => rehearsal,
        Err(refused) => Rehearsal {
            refused,
            tick: 0,
            task: 0,
            started: [0; Table::MOST],
        },
    }
}
