// What becomes of one task at a tick.
ghost use Rattle.std.specs.Prelude.{◌≡◌, ◌≤◌};
ghost use Rattle.rehearsal.specs.Multiple.{most_multiple};
ghost use Rattle.rehearsing.specs.Code.Lanes.{Small, first_lane, lane_is_late, lane_waits, lane_rests};
ghost use Rattle.rehearsing.specs.Code.Lanes.{settled_lane, begun_lane, next_of};

use table::Task;

// Later than any tick of a rehearsal. A number in the place of `Option<u32>` for `late` and `ends`: that form, not
// proved here, was measured and meets the bar of 1.5 times plain C (docs/DESIGN-PASS.md).
pub(crate) const NEVER: u32 = u32::MAX;

// A task on the bench, by the ticks at which something becomes of it: its next release, the tick at which its
// unfinished job is late, the tick at which its running job has run C. And how many jobs it started.
#[derive(Clone, Copy)]
pub(crate) struct Lane {
    pub(crate) due: u32,
    pub(crate) late: u32,
    pub(crate) ends: u32,
    pub(crate) started: u32,
}

impl Lane {
    // Before tick 0, at which all are released.
    pub(crate) fn first() -> Lane
        ensures { result ≡ first_lane }
    {
        Lane {
            due: 0,
            late: NEVER,
            ends: NEVER,
            started: 0,
        }
    }

    pub(crate) fn is_late(&self, i: u32) -> bool
        ensures { result ≡ lane_is_late i self.now }
    {
        self.ends != i && self.late == i
    }

    pub(crate) fn waits(&self) -> bool
        ensures { result ≡ lane_waits self.now }
    {
        self.late != NEVER && self.ends == NEVER
    }

    // Nothing becomes of it at tick i, before step 5.
    pub(crate) fn rests(&self, i: u32) -> bool
        ensures { result ≡ lane_rests i self.now }
    {
        self.due != i && self.late != i && self.ends != i
    }

    // Steps 2 and 4 of tick i: a job that has run C finishes, and a task that is due is released. Tick and task go
    // apart, and `Small` is asked of both: a type of the two would be made for each call and for nothing else.
    pub(crate) fn settle(&mut self, i: u32, task: &Task)
        requires { Small i task.now }
        ensures { self.new ≡ settled_lane i task.now self.old }
    {
        if self.ends == i {
            self.late = NEVER;
            self.ends = NEVER;
        }
        if self.due == i {
            self.due = i + task.t;
            self.late = i + task.d;
        }
    }

    // Step 5 of tick i: its job starts.
    pub(crate) fn begin(&mut self, i: u32, task: &Task)
        requires row { Small i task.now }
        requires started { self.old.started ≤ most_multiple }
        ensures { self.new ≡ begun_lane i task.now self.old }
    {
        self.ends = i + task.c;
        self.started += 1;
    }

    // The first tick at which something becomes of it.
    pub(crate) fn next(&self) -> u32
        ensures { result ≡ next_of self.now }
    {
        self.due.min(self.late.min(self.ends))
    }
}
