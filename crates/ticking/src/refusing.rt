// Refusals 9 to 13 of a tick.
ghost use Rattle.std.specs.Prelude.{◌≡◌, ◌≤◌, ◌^◌, ltb};
ghost use Rattle.std.specs.Int.Bits.{bit_or};
ghost use Rattle.table.specs.Limits.{most_tasks};
ghost use Rattle.table.specs.Reasons.{number_of};
ghost use Rattle.sets.specs.TaskSets.{has_task};
ghost use Rattle.ticking.specs.Code.Passes.{InPeriod, given10, given11, given12, given13, given_number};
ghost use Rattle.ticking.specs.Code.Passes.{first_above, task_or_none, first_of};

use crate::Turn;
use machine::Report;
use table::{Reason, Refusal, Table};

impl Turn {
    // Finished names a task that is not running.
    fn given_10(self, finished: bool) -> bool
        ensures { result ≡ given10 self.job finished }
    {
        finished && !self.job.stage.is_running()
    }

    // A running job, step 1 counted, has run C ticks and is not in finished.
    fn given_11(self, finished: bool) -> bool
        requires { InPeriod self.task self.job }
        ensures { result ≡ given11 self.task self.job finished }
    {
        self.job.stage.is_running() && self.older().ran == self.task.c && !finished
    }

    // Released names a task whose age, step 1 counted, is below T.
    fn given_12(self, released: bool) -> bool
        requires { InPeriod self.task self.job }
        ensures { result ≡ given12 self.task self.job released }
    {
        released && self.older().age < self.task.t
    }

    // Released names a task whose job is unfinished after step 2.
    fn given_13(self, released: bool, finished: bool) -> bool
        ensures { result ≡ given13 self.task self.job released finished }
    {
        released && !finished && !self.job.stage.is_idle()
    }

    // The first of refusals 10 to 13 that is given of the task.
    pub(crate) fn check(self, released: bool, finished: bool) -> Result<(), Reason>
        requires { InPeriod self.task self.job }
        ensures { number_of result ≡ given_number self.task self.job released finished }
    {
        if self.given_10(finished) {
            return Err(Reason::NotRunning);
        }
        if self.given_11(finished) {
            return Err(Reason::Overrun);
        }
        if self.given_12(released) {
            return Err(Reason::Early);
        }
        if self.given_13(released, finished) {
            return Err(Reason::Unfinished);
        }
        Ok(())
    }
}

// Neither set names a task above n.
fn is_within(report: Report, n: usize) -> bool
    requires { n ≤ most_tasks }
    ensures { result ≡ ltb (bit_or report.released report.finished) (2 ^ n) }
{
    u64::from(report.released | report.finished) >> n == 0
}

// The lowest task above n in one of the sets.
pub(crate) fn first_above(report: Report, n: usize) -> Option<usize>
    requires { n ≤ most_tasks }
    ensures { result ≡ task_or_none (first_above (bit_or report.released report.finished) n) }
{
    if is_within(report, n) {
        return None;
    }
    for i in n..Table::MOST {
        if report.names(i + 1) {
            return Some(i + 1);
        }
    }
    None
}

// What was found of the tasks before task k, or of task k: the lower number goes first, then the lower task.
pub(crate) fn first_of(
    before: Result<(), Refusal>,
    found: Result<(), Reason>,
    k: usize,
) -> Result<(), Refusal>
    ensures { result ≡ first_of before (number_of found) k }
{
    let Err(reason) = found else {
        return before;
    };
    let refused = Refusal::new(reason, k);
    if let Err(first) = before {
        if first.number <= refused.number {
            return before;
        }
    }
    Err(refused)
}
