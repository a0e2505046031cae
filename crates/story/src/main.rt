// A machine in use by one clinic is set up anew for the next: it holds nothing of the old, and a table that is refused
// leaves it at work.
// Every step lends the machine to the functions that C calls.
#![tactic(auto)]

use gorsetumble::{gorsetumble_set_up, gorsetumble_tick};
use machine::Machine;
use std::{fmt, io};
use table::{Cores, Partitions, Platform, Refusal, Table, Task};

// A refusal as the story tells it.
#[derive(Clone, Copy)]
struct Refused(Refusal);

impl fmt::Display for Refused {
    fn fmt<W: fmt::Write>(&self, f: &mut fmt::Formatter<W>) -> fmt::Result {
        write!(f, "refused {}, row or task {}", self.0.number, self.0.row)
    }
}

// How many tasks there are and how many jobs run, and which partitions are held.
fn tell_machine<P: Print>(rt: &P, m: &Machine) -> io::Result<()> {
    let running = m.jobs.iter().filter(|job| job.stage.is_running()).count();
    let held = m.jobs.iter().fold(0, |held, job| held | job.held);
    println!(rt;
        "  tasks {}, running {running}, partitions held {held}",
        m.table.n
    )
}

fn set_up<P: Print>(
    rt: &P,
    name: &str,
    m: &mut Machine,
    platform: Platform,
    rows: &[Task],
) -> io::Result<()> {
    let refused = Refused(gorsetumble_set_up(m, platform, rows));
    println!(rt; "{name}: {refused}")?;
    tell_machine(rt, m)
}

fn tick<P: Print>(rt: &P, m: &mut Machine, released: u32, finished: u32) -> io::Result<()> {
    let answer = gorsetumble_tick(m, released, finished);
    let refused = Refused(answer.refused);
    println!(rt;
        "tick, released {released}, finished {finished}: {refused}, late {}, started {}",
        answer.late, answer.started
    )?;
    tell_machine(rt, m)
}

fn row(d: u32, t: u32, c: u32, a: u32) -> Task {
    Task {
        d,
        t,
        c,
        a: Partitions(a),
    }
}

fn platform(m: u32, p: u32) -> Platform {
    Platform {
        cores: Cores(m),
        partitions: Partitions(p),
    }
}

fn main(rt: HostRuntime) -> io::Result<()> {
    let a = platform(3, 4);
    let b = platform(2, 2);
    // Case P8.
    let first_clinic = [
        row(6, 6, 2, 1),
        row(8, 8, 3, 2),
        row(9, 9, 2, 2),
        row(12, 12, 2, 1),
    ];
    // The last row of the three asks for a partition more than there are, and the 30 behind it are of no task.
    let mut next_clinic = [Task::none(); Table::MOST + 1];
    next_clinic[0] = row(20, 20, 5, 2);
    next_clinic[1] = row(30, 30, 5, 1);
    next_clinic[2] = row(30, 30, 5, 3);

    let mut m = Machine::fresh(&Table::empty(a));
    set_up(&rt, "the first clinic", &mut m, a, &first_clinic)?;
    tick(&rt, &mut m, 15, 0)?;
    tick(&rt, &mut m, 0, 0)?;
    set_up(
        &rt,
        "the next clinic, three rows",
        &mut m,
        b,
        &next_clinic[..3],
    )?;
    set_up(&rt, "the next clinic, 33 rows", &mut m, b, &next_clinic)?;
    tick(&rt, &mut m, 0, 1)?;
    set_up(
        &rt,
        "the next clinic, two rows",
        &mut m,
        b,
        &next_clinic[..2],
    )?;
    tick(&rt, &mut m, 0, 4)?;
    tick(&rt, &mut m, 0, 2)?;
    tick(&rt, &mut m, 3, 0)
}
