// The two passes of a tick over the tasks: the first finishes, judges and releases, the second starts.
ghost use Rattle.std.specs.Prelude.{◌≡◌, ◌≢◌, ◌≤◌, ◌<◌, Some, cond, MatchOption};
ghost use Rattle.table.specs.Limits.{most_tasks};
ghost use Rattle.rehearsal.specs.Multiple.{multiple, most_multiple};
ghost use Rattle.rehearsal.specs.Rehearsal.{rehearsed};
ghost use Rattle.rehearsing.specs.Code.Lanes.{Small, lane_is_late};
ghost use Rattle.rehearsing.specs.Code.Tracks.{first_track, lane_at, track_settled, track_begun, goes_on, starts_of};
ghost use Rattle.rehearsing.specs.Code.Tracks.{ended};
ghost use Rattle.rehearsing.specs.Code.Events.{Rehearsing, Judging};

use crate::lanes::{Lane, NEVER};
use rehearsal::Rehearsal;
use table::{Platform, Refusal, Table, Task};

// All tasks on the bench: the lane of each, and how many cores and partitions are idle.
#[derive(Clone, Copy)]
pub(crate) struct Track {
    lanes: [Lane; Table::MOST],
    idle: Platform,
}

impl Track {
    // Before tick 0.
    pub(crate) fn new(platform: Platform) -> Track
        ensures { result ≡ first_track platform }
    {
        Track {
            lanes: [Lane::first(); Table::MOST],
            idle: platform,
        }
    }

    // Steps 1 to 4 of tick i, of task k + 1: whether its job is late.
    fn settle(&mut self, k: usize, i: u32, task: &Task) -> bool
        requires in_range { k < most_tasks }
        requires row { Small i task.now }
        requires cores { self.old.idle.cores.0 ≤ 65535 }
        requires partitions { self.old.idle.partitions.0 ≤ 65535 }
        ensures late { result ≡ lane_is_late i (lane_at self.old k) }
        ensures track { self.new ≡ cond (lane_is_late i (lane_at self.old k)) self.old
            (track_settled k i task.now self.old) }
    {
        let lane = &mut self.lanes[k];
        if lane.rests(i) {
            return false;
        }
        if lane.is_late(i) {
            return true;
        }
        if lane.ends == i {
            self.idle.cores.0 += 1;
            self.idle.partitions.0 += task.a.0;
        }
        lane.settle(i, task);
        false
    }

    // Steps 1 to 4 of tick i: the lowest task that is late at it, if one is; the rehearsal has ended then.
    pub(crate) fn settle_all(&mut self, t: &Table, i: u32) -> Option<usize>
        requires { Rehearsing t.now i self.old }
        ensures { MatchOption result (Judging t.now i self.new t.now.n)
            (λ task. ended (Some (i, task)) self.new.lanes ≡ rehearsed t.now) }
    {
        for k in 0..t.n {
            if self.settle(k, i, &t.rows[k]) {
                return Some(k + 1);
            }
        }
        None
    }

    // Step 5 of tick i, of task k + 1: whether the step goes on after it.
    fn begin(&mut self, k: usize, i: u32, task: &Task) -> bool
        requires in_range { k < most_tasks }
        requires row { Small i task.now }
        requires started { (lane_at self.old k).started ≤ most_multiple }
        ensures goes { result ≡ goes_on k task.now self.old }
        ensures track { self.new ≡ track_begun k i task.now self.old }
    {
        let lane = &mut self.lanes[k];
        if !lane.waits() {
            return true;
        }
        if !machine::fits_in(self.idle.cores, self.idle.partitions, *task) {
            return false;
        }
        self.idle.cores.0 -= 1;
        self.idle.partitions.0 -= task.a.0;
        lane.begin(i, task);
        true
    }

    // Step 5 of tick i: the first tick to come at which something becomes of a task.
    pub(crate) fn begin_all(&mut self, t: &Table, i: u32) -> u32
        requires settled { Judging t.now i self.old t.now.n }
        requires not_last { i ≢ multiple t.now }
        ensures comes { i < result }
        ensures track { Rehearsing t.now result self.new }
    {
        let mut goes = true;
        let mut next = NEVER;
        for k in 0..t.n {
            goes = goes && self.begin(k, i, &t.rows[k]);
            next = next.min(self.lanes[k].next());
        }
        next
    }

    // How it ended: with this tick and this task if a job is late, which C has as 0 and 0 where none is.
    pub(crate) fn ended(&self, late: Option<(u32, usize)>) -> Rehearsal
        ensures { result ≡ ended late self.now.lanes }
    {
        let (tick, task) = late.unwrap_or((0, 0));
        Rehearsal {
            refused: Refusal::NONE,
            tick,
            task,
            started: self.starts(),
        }
    }

    // How many jobs each task started. Tried as the array's `map`, which moves the lanes through an iterator: some 900
    // instructions more, with which a rehearsal that is soon over misses its bar.
    fn starts(&self) -> [u32; Table::MOST]
        ensures { result ≡ starts_of self.now.lanes }
    {
        let mut started = [0u32; Table::MOST];
        for k in 0..Table::MOST {
            started[k] = self.lanes[k].started;
        }
        started
    }
}
