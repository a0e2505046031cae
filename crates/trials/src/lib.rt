// What the program "rehearse" writes: for each task the jobs that it started on the bench, and the tick at which it was
// late.
#![tactic(auto)]

ghost use Rattle.std.specs.Prelude.{suc, ◌<◌, ◌≤◌, ◌≡◌};
ghost use Rattle.std.specs.Option.{option_copied};
ghost use Rattle.table.specs.Limits.{most_tasks};
ghost use Rattle.texts.specs.Given.{table_taken};
ghost use Rattle.writers.specs.Written.{Wrote};
ghost use Rattle.trials.specs.Rehearse.{trial_row, trial_text, rehearse_text};
ghost use Rattle.trials.specs.Code.Trials.{tried_of};

use rehearsal::Rehearsal;
use table::{Refusal, Table};
use texts::UnitTexts;
use writers::{Sink, Text, Written};

const HEADER: &[u8] = b"task,started,late\r\n";

// The longest row: a number of two digits, two of ten, commas and CR LF.
const ROW: usize = (2 + 1) + 2 * (10 + 1) + 1;

// The most that the program "rehearse" writes: it lends so much, and refusal 16 cannot come up.
pub const REHEARSE_MOST: usize = HEADER.len() + ROW * Table::MOST;

// The listing of tasks 1 to n of a rehearsal.
#[derive(Clone, Copy)]
struct Trial {
    n: usize,
    rehearsal: Rehearsal,
    ghost few: { n ≤ most_tasks },
}

impl Trial {
    // The row of task i + 1.
    fn row(&self, i: usize) -> [u64; 3]
        requires { i < most_tasks }
        ensures { result ≡ trial_row self.now.rehearsal (suc i) }
    {
        let r = &self.rehearsal;
        let k = i + 1;
        let late = if k == r.task { r.tick } else { 0 };
        // `as`: there is no From of usize.
        [k as u64, u64::from(r.started[i]), u64::from(late)]
    }
}

impl Text for Trial {
    ghost bytes = { λ t. trial_text t.n t.rehearsal };

    fn put<S: Sink>(&self, sink: &mut S) -> Option<()> {
        sink.word(HEADER)?;
        for i in 0..self.n {
            writers::put_row(&self.row(i), sink)?;
        }
        Some(())
    }
}

// The rehearsal of the two texts' table, and how many tasks it has.
fn tried_table(unit: UnitTexts) -> Result<(usize, Rehearsal), Refusal>
    ensures { result ≡ tried_of
        (table_taken (option_copied unit.entry.platform) (option_copied unit.entry.tasks)) }
{
    let table = texts::take_table(unit)?;
    let rehearsal = rehearsing::tried(&table)?;
    Ok((table.n, rehearsal))
}

// What the program "rehearse" writes.
#[tactic(auto, unfolding(crate::specs::Rehearse::rehearse_text))]
pub fn rehearse(unit: UnitTexts, out: &mut [u8]) -> Written
    ensures { Wrote
        (rehearse_text (option_copied unit.entry.platform) (option_copied unit.entry.tasks))
        out.old result out.new }
{
    match tried_table(unit) {
        Ok((n, rehearsal)) => writers::write(&Trial { n, rehearsal }, out),
        Err(refusal) => writers::write_refused(refusal, out),
    }
}
