// A task of a machine at its turn, and what the passes of a tick ask of its job.
ghost use Rattle.std.specs.Prelude.{◌≡◌, ◌<◌, eqb, length};
ghost use Rattle.std.specs.Int.Bits.{bit_or};
ghost use Rattle.table.specs.Limits.{most_tasks};
ghost use Rattle.sets.specs.Sets.{below, without};
ghost use Rattle.machine.specs.Conditions.{has_nothing, idles_well, runs_well, good_job};
ghost use Rattle.ticking.specs.Code.Passes.{turn_of, is_left};

use crate::Turn;
use machine::{Job, Machine, Report};
use table::Partitions;

// The lists of a machine are as long as its type says. A proof learns it of what is lent from a read alone.
pub(crate) fn full_lists(m: &Machine)
    ensures rows { length m.now.table.rows ≡ most_tasks }
    ensures jobs { length m.now.jobs ≡ most_tasks }
{
    let _row = m.table.rows[0];
    let _job = m.jobs[0];
}

// It holds no partition and has run 0, as is asked of a waiting job.
fn has_nothing(j: Job) -> bool
    ensures { result ≡ has_nothing j }
{
    j.held == 0 && j.ran == 0
}

// What is asked of an idle job.
fn idles_well(j: Job) -> bool
    ensures { result ≡ idles_well j }
{
    has_nothing(j) && 1 <= j.age
}

// All partitions of the set are of a cache of p.
fn is_cached(held: u64, p: Partitions) -> bool
    ensures { result ≡ eqb (without held (below p.0)) 0 }
{
    sets::without(held, sets::below(p)) == 0
}

impl Turn {
    // The turn after i others.
    pub(crate) fn of(m: &Machine, i: usize) -> Turn
        requires { i < most_tasks }
        ensures { result ≡ turn_of m.now i }
    {
        Turn {
            k: i + 1,
            task: m.table.rows[i],
            job: m.jobs[i],
        }
    }

    // The task idles and is in neither set: a tick that names only tasks of the table adds 1 to its age, and changes
    // nothing else.
    pub(crate) fn is_left(self, report: Report) -> bool
        ensures { result ≡ is_left self.job (bit_or report.released report.finished) self.k }
    {
        self.job.stage.is_idle() && !report.names(self.k)
    }

    // What is asked of a running job, on a cache of p partitions.
    fn runs_well(self, p: Partitions) -> bool
        ensures { result ≡ runs_well p.0 self.task self.job }
    {
        let j = self.job;
        j.ran <= self.task.c.saturating_sub(1)
            && j.ran <= j.age
            && sets::size(j.held).0 == self.task.a.0
            && is_cached(j.held, p)
    }

    // What is asked of the job, on a cache of p partitions.
    #[tactic(auto, unfolding(machine::specs::Conditions::good_job))]
    pub(crate) fn is_good(self, p: Partitions) -> bool
        ensures { result ≡ good_job p.0 self.task self.job }
    {
        let j = self.job;
        if self.task.t < j.age {
            return false;
        }
        if j.stage.is_running() {
            return self.runs_well(p);
        }
        if j.stage.is_idle() {
            return idles_well(j);
        }
        j.stage.is_waiting() && has_nothing(j)
    }
}
