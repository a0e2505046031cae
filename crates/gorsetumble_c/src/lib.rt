// The functions of crate gorsetumble as C calls them: each export calls the function of its name, with its clauses.
// They stand twice, since a crate is a library for Rattle or an archive for C.
#![tactic(auto)]

ghost use Rattle.std.specs.Prelude.{◌≡◌, Some};
ghost use Rattle.table.specs.Tasks.{table_of};
ghost use Rattle.admission.specs.Answers.{full_answer, quick_answer};
ghost use Rattle.machine.specs.Fresh.{set_up};
ghost use Rattle.machine.specs.Tick.{tick};
ghost use Rattle.rehearsal.specs.Rehearsal.{rehearsed};
ghost use Rattle.texts.specs.Admit.{admit_text};
ghost use Rattle.texts.specs.Verdict.{verdict};
ghost use Rattle.runs.specs.Ticks.{ticks_text};
ghost use Rattle.trials.specs.Rehearse.{rehearse_text};
ghost use Rattle.writers.specs.Outputs.{platform_text, tasks_text};
ghost use Rattle.writers.specs.Written.{Wrote, WroteBoth};
ghost use Rattle.gorsetumble.specs.FromTexts.{set_up_texts};

use admission::{FullAnswer, QuickAnswer};
use gorsetumble::texting;
use gorsetumble::texting::TextRefusal;
use machine::{Answer, Machine};
use rehearsal::Rehearsal;
use table::{Platform, Refusal, Table, Task};
use writers::{TextsWritten, Written};

#[unsafe(no_mangle)]
pub extern "C" fn gorsetumble_full(platform: Platform, rows: &[Task]) -> FullAnswer
    ensures { result ≡ full_answer (table_of platform rows.now) }
{
    gorsetumble::gorsetumble_full(platform, rows)
}

#[unsafe(no_mangle)]
pub extern "C" fn gorsetumble_quick(platform: Platform, rows: &[Task]) -> QuickAnswer
    ensures { result ≡ quick_answer (table_of platform rows.now) }
{
    gorsetumble::gorsetumble_quick(platform, rows)
}

// The rows rehearsed on the bench.
#[unsafe(no_mangle)]
pub extern "C" fn gorsetumble_rehearse(platform: Platform, rows: &[Task]) -> Rehearsal
    ensures { result ≡ rehearsed (table_of platform rows.now) }
{
    gorsetumble::gorsetumble_rehearse(platform, rows)
}

// A fresh machine of the rows in the place of the old one, which stays where they are refused.
#[unsafe(no_mangle)]
pub extern "C" fn gorsetumble_set_up(m: &mut Machine, platform: Platform, rows: &[Task]) -> Refusal
    ensures { (result ≡ (set_up m.old (table_of platform rows.now)).refused)
        × (m.new ≡ (set_up m.old (table_of platform rows.now)).machine) }
{
    gorsetumble::gorsetumble_set_up(m, platform, rows)
}

// One tick of the machine, in its place.
#[unsafe(no_mangle)]
pub extern "C" fn gorsetumble_tick(m: &mut Machine, released: u32, finished: u32) -> Answer
    ensures { (result ≡ (tick m.old released finished).answer)
        × (m.new ≡ (tick m.old released finished).machine) }
{
    gorsetumble::gorsetumble_tick(m, released, finished)
}

// A fresh machine of two texts in the place of the old one, which stays where they are refused.
#[unsafe(no_mangle)]
pub extern "C" fn gorsetumble_set_up_texts(
    m: &mut Machine,
    platform: &[u8],
    tasks: &[u8],
) -> TextRefusal
    ensures { (result ≡ (set_up_texts m.old platform.now tasks.now).refused)
        × (m.new ≡ (set_up_texts m.old platform.now tasks.now).machine) }
{
    texting::gorsetumble_set_up_texts(m, platform, tasks)
}

#[unsafe(no_mangle)]
pub extern "C" fn gorsetumble_quick_verdict(platform: &[u8], tasks: &[u8]) -> u32
    ensures { result ≡ verdict platform.now tasks.now }
{
    texting::gorsetumble_quick_verdict(platform, tasks)
}

#[unsafe(no_mangle)]
pub extern "C" fn gorsetumble_admit(platform: &[u8], tasks: &[u8], out: &mut [u8]) -> Written
    ensures { Wrote (admit_text (Some platform.now) (Some tasks.now))
        out.old result out.new }
{
    texting::gorsetumble_admit(platform, tasks, out)
}

#[unsafe(no_mangle)]
pub extern "C" fn gorsetumble_rehearse_texts(
    platform: &[u8],
    tasks: &[u8],
    out: &mut [u8],
) -> Written
    ensures { Wrote (rehearse_text (Some platform.now) (Some tasks.now))
        out.old result out.new }
{
    texting::gorsetumble_rehearse_texts(platform, tasks, out)
}

#[unsafe(no_mangle)]
pub extern "C" fn gorsetumble_ticks(
    platform: &[u8],
    tasks: &[u8],
    ticks: &[u8],
    out: &mut [u8],
) -> Written
    ensures { Wrote (ticks_text (Some platform.now) (Some tasks.now) (Some ticks.now))
        out.old result out.new }
{
    texting::gorsetumble_ticks(platform, tasks, ticks, out)
}

#[unsafe(no_mangle)]
pub extern "C" fn gorsetumble_write_platform(platform: Platform, out: &mut [u8]) -> Written
    ensures { Wrote (platform_text platform) out.old result out.new }
{
    texting::gorsetumble_write_platform(platform, out)
}

#[unsafe(no_mangle)]
pub extern "C" fn gorsetumble_write_tasks(table: Table, out: &mut [u8]) -> Written
    ensures { Wrote (tasks_text table) out.old result out.new }
{
    texting::gorsetumble_write_tasks(table, out)
}

// Both texts of a table, or neither.
#[unsafe(no_mangle)]
pub extern "C" fn gorsetumble_write_texts(
    table: Table,
    platform: &mut [u8],
    tasks: &mut [u8],
) -> TextsWritten
    ensures { WroteBoth (platform_text table.platform) (tasks_text table) platform.old
        tasks.old result platform.new tasks.new }
{
    texting::gorsetumble_write_texts(table, platform, tasks)
}
