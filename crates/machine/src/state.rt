// Jobs, a fresh machine and set-up.
ghost use Rattle.std.specs.Prelude.{◌≡◌};
ghost use Rattle.table.specs.Refused.{refusal};
ghost use Rattle.table.specs.Reasons.{outcome};
ghost use Rattle.machine.specs.Jobs.{is_idle, is_waiting, is_running, no_job};
ghost use Rattle.machine.specs.Fresh.{fresh, set_up};

use crate::{Job, Machine, Stage};
use table::{Refusal, Table};

impl Stage {
    pub const IDLE: Stage = Stage(0);

    pub const WAITING: Stage = Stage(1);

    pub const RUNNING: Stage = Stage(2);

    pub fn is_idle(self) -> bool
        ensures { result ≡ is_idle self }
    {
        self.0 == 0
    }

    pub fn is_waiting(self) -> bool
        ensures { result ≡ is_waiting self }
    {
        self.0 == 1
    }

    pub fn is_running(self) -> bool
        ensures { result ≡ is_running self }
    {
        self.0 == 2
    }
}

impl Job {
    pub fn none() -> Job
        ensures { result ≡ no_job }
    {
        Job {
            stage: Stage::IDLE,
            age: 0,
            ran: 0,
            held: 0,
        }
    }
}

// Tasks 1 to n idle with age T, and zero past n.
fn fresh_jobs(t: &Table) -> [Job; Table::MOST]
    ensures { result ≡ (fresh t.now).jobs }
{
    let none = Job::none();
    let mut jobs = [none; Table::MOST];
    for (i, task) in t.tasks().iter().enumerate() {
        jobs[i] = Job {
            age: task.t,
            ..none
        };
    }
    jobs
}

impl Machine {
    // Its n is the table's own, above 32 too.
    pub fn fresh(t: &Table) -> Machine
        ensures { result ≡ fresh t.now }
    {
        Machine {
            table: Table {
                n: t.n,
                ..Table::of(t.platform, t.tasks())
            },
            jobs: fresh_jobs(t),
        }
    }

    // A fresh machine of the table in the place of the old one, which stays where the table is refused.
    pub fn set_up(&mut self, t: &Table) -> Result<(), Refusal>
        ensures answer { result ≡ outcome (refusal t.now) }
        ensures machine { self.new ≡ (set_up self.old t.now).machine }
    {
        t.check()?;
        *self = Machine::fresh(t);
        Ok(())
    }
}
