// What the outside calls: a lent row of task records, and a machine that the caller lends and gets moved on.
#![tactic(auto)]

pub mod texting;

ghost use Rattle.std.specs.Prelude.{◌≡◌};
ghost use Rattle.table.specs.Tasks.{table_of};
ghost use Rattle.admission.specs.Answers.{full_answer, quick_answer};
ghost use Rattle.machine.specs.Fresh.{set_up};
ghost use Rattle.machine.specs.Tick.{tick};
ghost use Rattle.rehearsal.specs.Rehearsal.{rehearsed};

use admission::{FullAnswer, QuickAnswer};
use machine::{Answer, Machine};
use rehearsal::Rehearsal;
use table::{Platform, Refusal, Table, Task};

pub fn gorsetumble_full(platform: Platform, rows: &[Task]) -> FullAnswer
    ensures { result ≡ full_answer (table_of platform rows.now) }
{
    admission::full_answer(&Table::of(platform, rows))
}

pub fn gorsetumble_quick(platform: Platform, rows: &[Task]) -> QuickAnswer
    ensures { result ≡ quick_answer (table_of platform rows.now) }
{
    admission::quick_answer(&Table::of(platform, rows))
}

// The rows rehearsed on the bench.
pub fn gorsetumble_rehearse(platform: Platform, rows: &[Task]) -> Rehearsal
    ensures { result ≡ rehearsed (table_of platform rows.now) }
{
    rehearsing::rehearse(&Table::of(platform, rows))
}

// A fresh machine of the rows in the place of the old one, which stays where they are refused.
pub fn gorsetumble_set_up(m: &mut Machine, platform: Platform, rows: &[Task]) -> Refusal
    ensures { (result ≡ (set_up m.old (table_of platform rows.now)).refused)
        × (m.new ≡ (set_up m.old (table_of platform rows.now)).machine) }
{
    m.set_up(&Table::of(platform, rows))
        .err()
        .unwrap_or(Refusal::NONE)
}

// One tick of the machine, in its place.
pub fn gorsetumble_tick(m: &mut Machine, released: u32, finished: u32) -> Answer
    ensures { (result ≡ (tick m.old released finished).answer)
        × (m.new ≡ (tick m.old released finished).machine) }
{
    ticking::tick(m, released, finished)
}
