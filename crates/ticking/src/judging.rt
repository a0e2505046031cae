// The first pass of a tick: it judges the lent state and the two sets task by task, and changes nothing.
ghost use Rattle.std.specs.Prelude.{◌≡◌, ◌<◌, ◌≤◌, true, false};
ghost use Rattle.table.specs.Limits.{most_tasks};
ghost use Rattle.machine.specs.Jobs.{is_running};
ghost use Rattle.ticking.specs.Code.Passes.{InPeriod, Fewer, busy_none, busy_and, look_start, admits, look_more};
ghost use Rattle.ticking.specs.Code.Passes.{look_with, past_start, past_with, past_none, zero_to, judged};

use crate::jobs::full_lists;
use crate::refusing::{first_above, first_of};
use crate::{Busy, Look, Past, Turn};
use machine::{Job, Machine, Report, Stage};
use table::{Cores, Partitions, Reason, Refusal, Table, Task};

impl Busy {
    fn none() -> Busy
        ensures { result ≡ busy_none }
    {
        Busy {
            cores: Cores(0),
            held: 0,
        }
    }

    // A running job more.
    fn and(self, j: Job) -> Busy
        requires few { self.cores.0 < most_tasks }
        requires runs { is_running j.stage ≡ true }
        ensures { result ≡ busy_and self j }
    {
        Busy {
            cores: Cores(self.cores.0 + 1),
            held: self.held | j.held,
        }
    }
}

impl Look {
    fn start() -> Look
        ensures { result ≡ look_start }
    {
        Look {
            refused: Ok(()),
            running: Busy::none(),
            stays: Busy::none(),
        }
    }

    // The row and the job of this task are good, and it holds nothing that those before hold.
    fn admits(self, turn: Turn, p: Partitions) -> bool
        ensures { result ≡ admits p.0 turn.task turn.job self }
    {
        turn.task.check(p).is_ok() && turn.is_good(p) && self.running.held & turn.job.held == 0
    }

    // A good task more.
    fn more(self, turn: Turn, report: Report) -> Look
        requires few { Fewer self }
        requires period { InPeriod turn.task turn.job }
        requires holds { is_running turn.job.stage ≡ false → turn.job.held ≡ 0 }
        ensures { result ≡ look_more turn report self }
    {
        let finished = report.finishes(turn.k);
        let found = turn.check(report.releases(turn.k), finished);
        let refused = first_of(self.refused, found, turn.k);
        if !turn.job.stage.is_running() {
            return Look { refused, ..self };
        }
        Look {
            refused,
            running: self.running.and(turn.job),
            stays: if finished {
                self.stays
            } else {
                self.stays.and(turn.job)
            },
        }
    }

    // A task more. A state that is not good is not looked at further.
    #[tactic(auto, unfolding(crate::specs::Code::Passes::look_with))]
    fn with(self, turn: Turn, p: Partitions, report: Report) -> Result<Look, Reason>
        requires { Fewer self }
        ensures { result ≡ look_with p.0 turn report self }
    {
        if !self.admits(turn, p) {
            return Err(Reason::State);
        }
        if turn.is_left(report) {
            return Ok(self);
        }
        Ok(self.more(turn, report))
    }
}

impl Past {
    fn start() -> Past
        ensures { result ≡ past_start }
    {
        Past {
            row: Task::none(),
            job: Job::none(),
        }
    }

    // An entry more.
    fn with(self, task: Task, j: Job) -> Past
        ensures { result ≡ past_with task j self }
    {
        Past {
            row: Task {
                d: self.row.d | task.d,
                t: self.row.t | task.t,
                c: self.row.c | task.c,
                a: Partitions(self.row.a.0 | task.a.0),
            },
            job: Job {
                stage: Stage(self.job.stage.0 | j.stage.0),
                age: self.job.age | j.age,
                ran: self.job.ran | j.ran,
                held: self.job.held | j.held,
            },
        }
    }

    // All entries that were put together are zero.
    fn is_none(self) -> bool
        ensures { result ≡ past_none self }
    {
        let job = self.job.stage.0 | self.job.age | self.job.ran;
        let row = self.row.d | self.row.t | self.row.c | self.row.a.0;
        u64::from(row | job) | self.job.held == 0
    }
}

// The entries past n are zero. They are put together first and asked once: to ask each takes longer (docs/SPEED.md).
fn rest_is_zero(m: &Machine) -> bool
    requires { m.now.table.n ≤ most_tasks }
    ensures { result ≡ zero_to m.now most_tasks }
{
    let mut past = Past::start();
    for i in m.table.n..Table::MOST {
        past = past.with(m.table.rows[i], m.jobs[i]);
    }
    past.is_none()
}

// What those jobs have that go on running after step 2, or the refusal of the tick.
pub(crate) fn judge(m: &Machine, report: Report) -> Result<Busy, Refusal>
    ensures { result ≡ judged m.now report.released report.finished }
{
    full_lists(m);
    if m.table.check_sizes().is_err() {
        return Err(Refusal::from(Reason::State));
    }
    let platform = m.table.platform;
    let mut look = Look::start();
    for i in 0..m.table.n {
        look = look.with(Turn::of(m, i), platform.partitions, report)?;
    }
    if platform.cores.0 < look.running.cores.0 || !rest_is_zero(m) {
        return Err(Refusal::from(Reason::State));
    }
    if let Some(k) = first_above(report, m.table.n) {
        return Err(Refusal::new(Reason::Task, k));
    }
    look.refused?;
    Ok(look.stays)
}
