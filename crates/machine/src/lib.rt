// The machine: a table and the job of each task, what a tick answers, and what a start asks.
#![tactic(auto)]

ghost use Rattle.std.specs.Prelude.{◌≡◌};
ghost use Rattle.std.specs.Int.Bits.{bit_or};
ghost use Rattle.sets.specs.TaskSets.{has_task};
ghost use Rattle.machine.specs.Steps.{fits_in};

mod state;

use table::{Cores, Partitions, Refusal, Table, Task};

// 0 idle, 1 waiting, 2 running; no good state has another.
// A number and no enum: a state comes through the C interface, and one with a stage above 2 is refused under 14.
#[repr(C)]
#[derive(Clone, Copy)]
pub struct Stage(pub u32);

// Of a task's job: age counts ticks since its release, ran those that it has run; held is its set of partitions.
#[repr(C)]
#[derive(Clone, Copy)]
pub struct Job {
    pub stage: Stage,
    pub age: u32,
    pub ran: u32,
    pub held: u64,
}

#[repr(C)]
#[derive(Clone, Copy)]
pub struct Machine {
    pub table: Table,
    pub jobs: [Job; Table::MOST],
}

// What a tick is brought, by a caller or a row of a ticks text: the tasks that are released and those that finished.
#[derive(Clone, Copy)]
pub struct Report {
    pub released: u32,
    pub finished: u32,
}

impl Report {
    pub fn releases(self, k: usize) -> bool
        ensures { result ≡ has_task self.released k }
    {
        sets::has_task(self.released, k)
    }

    pub fn finishes(self, k: usize) -> bool
        ensures { result ≡ has_task self.finished k }
    {
        sets::has_task(self.finished, k)
    }

    // One of the sets names task k.
    pub fn names(self, k: usize) -> bool
        ensures { result ≡ has_task (bit_or self.released self.finished) k }
    {
        sets::has_task(self.released | self.finished, k)
    }
}

// What a tick answers: three sets of tasks, or the refusal; both in one record, since C gets it.
#[repr(C)]
#[derive(Clone, Copy)]
pub struct Answer {
    pub refused: Refusal,
    pub finished: u32,
    pub late: u32,
    pub started: u32,
}

// At least one core and A partitions are idle.
pub fn fits_in(cores: Cores, partitions: Partitions, task: Task) -> bool
    ensures { result ≡ fits_in cores partitions task }
{
    1 <= cores.0 && task.a.0 <= partitions.0
}
