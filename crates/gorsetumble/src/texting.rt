// Whole texts from C: the quick verdict, set-up, what the programs `admit`, `rehearse` and `ticks` write of texts that
// are there, and the writers. Each takes what C passes: two texts side by side, a table by value, a buffer.
ghost use Rattle.std.specs.Prelude.{◌≡◌, Some};
ghost use Rattle.std.specs.Option.{option_copied};
ghost use Rattle.texts.specs.Admit.{admit_text};
ghost use Rattle.texts.specs.Verdict.{verdict};
ghost use Rattle.runs.specs.Ticks.{ticks_text};
ghost use Rattle.trials.specs.Rehearse.{rehearse_text};
ghost use Rattle.writers.specs.Outputs.{platform_text, tasks_text};
ghost use Rattle.writers.specs.Written.{Wrote, WroteBoth};
ghost use Rattle.gorsetumble.specs.FromTexts.{set_up_texts};
ghost use Rattle.gorsetumble.specs.Code.TextsRead.{judged, texts_read, renewed, told_of};

use machine::Machine;
use table::{Platform, Refusal, Table};
use texts::UnitTexts;
use writers::{TextsWritten, Written};

// Why two texts set up no machine, and which text the refusal is in, as C gets it: 1 the platform, 2 the tasks, 0
// neither.
#[repr(C)]
#[derive(Clone, Copy)]
pub struct TextRefusal {
    pub refused: Refusal,
    pub text: u32,
}

// The same for the code: a text is not of its form, or the table of both is refused.
#[derive(Clone, Copy)]
pub(crate) enum Failure {
    Platform(Refusal),
    Tasks(Refusal),
    Judged(Refusal),
}

impl From<Refusal> for Failure {
    ghost from_gives = { λ refused failure. failure ≡ judged refused };

    fn from(refused: Refusal) -> Failure {
        Failure::Judged(refused)
    }
}

impl From<Failure> for TextRefusal {
    ghost from_gives = { λ failure r. r ≡ told_of failure };

    fn from(failure: Failure) -> TextRefusal {
        match failure {
            Failure::Platform(refused) => TextRefusal { refused, text: 1 },
            Failure::Tasks(refused) => TextRefusal { refused, text: 2 },
            Failure::Judged(refused) => TextRefusal { refused, text: 0 },
        }
    }
}

// The table of two texts, or the refusal of the first that is not of its form.
fn read_texts(platform: &[u8], tasks: &[u8]) -> Result<Table, Failure>
    ensures { result ≡ texts_read platform.now tasks.now }
{
    let held = readers::read_platform(platform).map_err(Failure::Platform)?;
    readers::read_tasks(tasks, held).map_err(Failure::Tasks)
}

// A fresh machine of the two in the place of the old one.
fn set_up(m: &mut Machine, platform: &[u8], tasks: &[u8]) -> Result<(), Failure>
    ensures answer { result ≡ renewed (texts_read platform.now tasks.now) }
    ensures machine { m.new ≡ (set_up_texts m.old platform.now tasks.now).machine }
{
    let t = read_texts(platform, tasks)?;
    m.set_up(&t)?;
    Ok(())
}

// A fresh machine of two texts in the place of the old one, which stays where they are refused.
pub fn gorsetumble_set_up_texts(m: &mut Machine, platform: &[u8], tasks: &[u8]) -> TextRefusal
    ensures { (result ≡ (set_up_texts m.old platform.now tasks.now).refused)
        × (m.new ≡ (set_up_texts m.old platform.now tasks.now).machine) }
{
    match set_up(m, platform, tasks) {
        Ok(()) => TextRefusal {
            refused: Refusal::NONE,
            text: 0,
        },
        Err(failure) => failure.into(),
    }
}

// Two texts that are there.
fn both<'a>(platform: &'a [u8], tasks: &'a [u8]) -> UnitTexts<'a>
    ensures platform { option_copied result.platform ≡ Some platform.now }
    ensures tasks { option_copied result.tasks ≡ Some tasks.now }
{
    UnitTexts {
        platform: Some(platform),
        tasks: Some(tasks),
    }
}

pub fn gorsetumble_quick_verdict(platform: &[u8], tasks: &[u8]) -> u32
    ensures { result ≡ verdict platform.now tasks.now }
{
    texts::quick_verdict(platform, tasks)
}

pub fn gorsetumble_admit(platform: &[u8], tasks: &[u8], out: &mut [u8]) -> Written
    ensures { Wrote (admit_text (Some platform.now) (Some tasks.now))
        out.old result out.new }
{
    texts::admit(both(platform, tasks), out)
}

pub fn gorsetumble_rehearse_texts(platform: &[u8], tasks: &[u8], out: &mut [u8]) -> Written
    ensures { Wrote (rehearse_text (Some platform.now) (Some tasks.now))
        out.old result out.new }
{
    trials::rehearse(both(platform, tasks), out)
}

pub fn gorsetumble_ticks(platform: &[u8], tasks: &[u8], ticks: &[u8], out: &mut [u8]) -> Written
    ensures { Wrote (ticks_text (Some platform.now) (Some tasks.now) (Some ticks.now))
        out.old result out.new }
{
    runs::ticks(both(platform, tasks), Some(ticks), out)
}

pub fn gorsetumble_write_platform(platform: Platform, out: &mut [u8]) -> Written
    ensures { Wrote (platform_text platform) out.old result out.new }
{
    writers::write_platform(platform, out)
}

pub fn gorsetumble_write_tasks(table: Table, out: &mut [u8]) -> Written
    ensures { Wrote (tasks_text table) out.old result out.new }
{
    writers::write_tasks(&table, out)
}

// Both texts of a table, or neither.
pub fn gorsetumble_write_texts(table: Table, platform: &mut [u8], tasks: &mut [u8]) -> TextsWritten
    ensures { WroteBoth (platform_text table.platform) (tasks_text table) platform.old
        tasks.old result platform.new tasks.new }
{
    writers::write_texts(&table, platform, tasks)
}
