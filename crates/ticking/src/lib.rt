// One tick under blocking FP_CA, in the machine's place and in two passes over the tasks: the first judges, the second
// moves the jobs.
#![tactic(auto)]

ghost use Rattle.std.specs.Prelude.{◌≡◌};
ghost use Rattle.machine.specs.Tick.{tick};

mod jobs;
mod judging;
mod moving;
mod refusing;

use crate::judging::judge;
use crate::moving::move_jobs;
use machine::{Answer, Job, Machine, Report};
use table::{Cores, Partitions, Refusal, Task};

// A task at its turn: its number, its row and its job. That they are small (`InPeriod`) is asked where it is needed and
// no fact of the type, since a turn is looked at before it is known to be good.
#[derive(Clone, Copy)]
struct Turn {
    k: usize,
    task: Task,
    job: Job,
}

// The cores that running jobs have, and the partitions that they hold.
#[derive(Clone, Copy)]
struct Busy {
    cores: Cores,
    held: u64,
}

// What a tick's first pass found so far: the first of refusals 10 to 13, what running jobs have, and what those have
// that go on running after step 2.
#[derive(Clone, Copy)]
struct Look {
    refused: Result<(), Refusal>,
    running: Busy,
    stays: Busy,
}

// What the entries past n have, put together: a zero row and a zero job where all are.
#[derive(Clone, Copy)]
struct Past {
    row: Task,
    job: Job,
}

// What a tick's second pass made so far: the job that it came to last; whether step 5 goes on, with how many idle
// cores, which idle partitions and how many; and the sets to answer. `goes` is no flag over the counts: they are the
// machine's when step 5 has ended too, and the proof of a rehearsal holds its own to them. `job` beside the walk is no
// plainer: each function here would answer a pair, and the proof's one sequence of walks would be two.
#[derive(Clone, Copy)]
pub struct Walk {
    job: Job,
    goes: bool,
    cores: Cores,
    idle: u64,
    partitions: Partitions,
    late: u32,
    started: u32,
}

// One tick of the machine: a refused one leaves it as it was.
pub fn tick(m: &mut Machine, released: u32, finished: u32) -> Answer
    ensures answer { result ≡ (tick m.old released finished).answer }
    ensures machine { m.new ≡ (tick m.old released finished).machine }
{
    let report = Report { released, finished };
    match judge(m, report) {
        Err(refused) => Answer {
            refused,
            finished: 0,
            late: 0,
            started: 0,
        },
        Ok(busy) => {
            let walk = move_jobs(m, report, busy);
            // C's record has number 0 for no refusal.
            Answer {
                refused: Refusal::NONE,
                finished,
                late: walk.late,
                started: walk.started,
            }
        }
    }
}
