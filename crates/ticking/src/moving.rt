// The second pass of a tick: it takes each task through steps 1 to 5.
ghost use Rattle.std.specs.Prelude.{◌≡◌, cond, ◌+◌, ◌≤◌, min, Ok};
ghost use Rattle.table.specs.Tasks.{T};
ghost use Rattle.machine.specs.Steps.{older, awaiting, late_set, passed, finish};
ghost use Rattle.machine.specs.Code.Readied.{finished_job};
ghost use Rattle.machine.specs.Tick.{readied, moved, started_set};
ghost use Rattle.ticking.specs.Code.Passes.{InPeriod, cores_less, walk_start, late_bit, tries, walk_go, walk_by};
ghost use Rattle.ticking.specs.Code.Passes.{walk_begin, walk_with, judged};

use crate::jobs::full_lists;
use crate::{Busy, Turn, Walk};
use machine::{Job, Machine, Report, Stage};
use table::{Cores, Partitions, Platform};

impl Turn {
    // Step 1: an age is held at T.
    pub(crate) fn older(self) -> Job
        requires { InPeriod self.task self.job }
        ensures { result ≡ older self.task self.job }
    {
        let j = self.job;
        Job {
            age: (j.age + 1).min(self.task.t),
            ran: j.ran + u32::from(j.stage.is_running()),
            ..j
        }
    }

    // Steps 1 and 2.
    fn ended(self, finished: bool) -> Job
        requires { InPeriod self.task self.job }
        ensures { result ≡ finished_job self.task finished self.job }
    {
        if finished {
            return Job {
                stage: Stage::IDLE,
                age: self.older().age,
                ran: 0,
                held: 0,
            };
        }
        self.older()
    }

    // Step 3: the task if it is late, where steps 1 and 2 left the job `ended`. An age that rose to D is D, for D is
    // not above T.
    fn late_bit(self, ended: Job) -> u32
        requires period { InPeriod self.task self.job }
        requires age { ended.age ≡ min (self.job.age + 1) (T self.task) }
        ensures { result ≡ late_bit self.k self.task self.job.age ended }
    {
        if ended.stage.is_idle() || self.job.age + 1 != self.task.d {
            return 0;
        }
        sets::task_bit(self.k)
    }
}

// Step 4, of a job that steps 1 and 2 left as it is given.
fn released_job(j: Job, released: bool) -> Job
    ensures { result ≡ cond released (awaiting j) j }
{
    if released {
        return Job {
            stage: Stage::WAITING,
            age: 0,
            ..j
        };
    }
    j
}

impl Walk {
    fn start(platform: Platform, busy: Busy) -> Walk
        ensures { result ≡ walk_start platform busy }
    {
        let idle = sets::without(sets::below(platform.partitions), busy.held);
        Walk {
            job: Job::none(),
            goes: true,
            cores: Cores(platform.cores.0.saturating_sub(busy.cores.0)),
            idle,
            partitions: sets::size(idle),
            late: 0,
            started: 0,
        }
    }

    // The task starts.
    fn go(self, turn: Turn, late: u32) -> Walk
        requires cores { 1 ≤ self.cores.0 }
        requires partitions { turn.task.a.0 ≤ self.partitions.0 }
        ensures { result ≡ walk_go turn.k turn.task turn.job late self }
    {
        let held = sets::choose(self.idle, turn.task.a);
        Walk {
            job: Job {
                stage: Stage::RUNNING,
                ran: 0,
                held,
                ..turn.job
            },
            cores: Cores(self.cores.0 - 1),
            idle: self.idle - held,
            partitions: Partitions(self.partitions.0 - turn.task.a.0),
            late,
            started: self.started | sets::task_bit(turn.k),
            ..self
        }
    }

    // The task does not start.
    fn by(self, goes: bool, job: Job, late: u32) -> Walk
        ensures { result ≡ walk_by goes job late self }
    {
        Walk {
            job,
            goes,
            late,
            ..self
        }
    }

    // Step 5, of a task with the job that steps 1, 2 and 4 left it.
    fn begin(self, turn: Turn, late: u32) -> Walk
        ensures { result ≡ walk_begin turn.k turn.task turn.job late self }
    {
        if !self.goes || !turn.job.stage.is_waiting() {
            return self.by(self.goes, turn.job, late);
        }
        if !machine::fits_in(self.cores, self.partitions, turn.task) {
            return self.by(false, turn.job, late);
        }
        self.go(turn, late)
    }

    // A task more.
    #[tactic(auto, unfolding(crate::specs::Code::Passes::walk_with))]
    fn with(self, turn: Turn, report: Report) -> Walk
        requires { InPeriod turn.task turn.job }
        ensures { result ≡ walk_with turn.k turn.task turn.job report.released report.finished self }
    {
        if turn.is_left(report) {
            return self.by(self.goes, turn.older(), self.late);
        }
        let ended = turn.ended(report.finishes(turn.k));
        let late = self.late | turn.late_bit(ended);
        let job = released_job(ended, report.releases(turn.k));
        self.begin(Turn { job, ..turn }, late)
    }
}

// The jobs after an accepted tick, and the sets of those that are late and of those that start.
pub(crate) fn move_jobs(m: &mut Machine, report: Report, busy: Busy) -> Walk
    requires { judged m.old report.released report.finished ≡ Ok busy }
    ensures late { result.late ≡ late_set m.old (finish report.finished (passed m.old)) }
    ensures started { let r = readied m.old report.released report.finished in
        result.started ≡ started_set r (moved m.old report.released report.finished) }
    ensures machine { m.new ≡ moved m.old report.released report.finished }
{
    full_lists(m);
    let mut walk = Walk::start(m.table.platform, busy);
    for i in 0..m.table.n {
        walk = walk.with(Turn::of(m, i), report);
        m.jobs[i] = walk.job;
    }
    walk
}
