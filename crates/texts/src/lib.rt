// Whole texts in, whole text out: what the programs write, and the quick verdict on two texts.
#![tactic(auto)]

ghost use Rattle.std.specs.Prelude.{◌≡◌, ◌≤◌, MatchResult, Ok, Some};
ghost use Rattle.std.specs.Option.{option_copied};
ghost use Rattle.std.specs.Result.{result_map_both};
ghost use Rattle.forms.specs.Forms.{platform_form, tasks_form, ticks_form};
ghost use Rattle.table.specs.Limits.{most_tasks};
ghost use Rattle.readers.specs.Inputs.{platform_read, table_read, ticks_read};
ghost use Rattle.writers.specs.Outputs.{refused_text, margins_text};
ghost use Rattle.writers.specs.Written.{Wrote};
ghost use Rattle.texts.specs.Given.{taken, table_taken};
ghost use Rattle.texts.specs.Admit.{admit_text};
ghost use Rattle.texts.specs.Verdict.{verdict};
ghost use Rattle.texts.specs.Code.Fitting.{fitting};
ghost use Rattle.texts.specs.Code.Numbers.{verdict_number};

use table::{Platform, Reason, Refusal, Table};
use writers::Written;

// The longest text that a program takes.
pub const LONGEST: usize = 60_000;

// The most that the program "admit" writes: it lends so much, and refusal 16 cannot come up.
pub const ADMIT_MOST: usize = 18 + 27 * Table::MOST;

// The two texts of a table, each there or missing.
#[derive(Clone, Copy)]
pub struct UnitTexts<'a> {
    pub platform: Option<&'a [u8]>,
    pub tasks: Option<&'a [u8]>,
}

// The margins of a table of n tasks.
#[derive(Clone, Copy)]
struct Margins {
    n: usize,
    margins: [i64; Table::MOST],
    ghost few: { n ≤ most_tasks },
}

// A text as a program takes it: one that is not there or is too long is refused with 15 and 0.
fn take(text: Option<&[u8]>) -> Result<&[u8], Refusal>
    ensures { result_map_both (λ s. s.now) (λ r. r) result ≡ fitting (option_copied text.entry) }
{
    match text {
        Some(text) if text.len() <= LONGEST => Ok(text),
        _ => Err(Refusal::from(Reason::Text)),
    }
}

// Three functions and no generic one: three readers, of three types.
fn take_platform(text: Option<&[u8]>) -> Result<Platform, Refusal>
    ensures { result ≡ platform_read (taken platform_form (option_copied text.entry)) }
{
    readers::read_platform(take(text)?)
}

fn take_tasks(text: Option<&[u8]>, platform: Platform) -> Result<Table, Refusal>
    ensures { result ≡ table_read platform (taken tasks_form (option_copied text.entry)) }
{
    readers::read_tasks(take(text)?, platform)
}

// The table of a program's two texts, the platform first.
pub fn take_table(unit: UnitTexts) -> Result<Table, Refusal>
    ensures { result ≡ table_taken (option_copied unit.entry.platform) (option_copied unit.entry.tasks) }
{
    let platform = take_platform(unit.platform)?;
    take_tasks(unit.tasks, platform)
}

pub fn take_ticks(ticks: Option<&[u8]>) -> Result<usize, Refusal>
    ensures { result ≡ ticks_read (taken ticks_form (option_copied ticks.entry)) }
{
    readers::read_ticks(take(ticks)?)
}

// The margins of the texts' table.
fn judge(unit: UnitTexts) -> Result<Margins, Refusal>
    ensures { let text = admit_text (option_copied unit.entry.platform) (option_copied unit.entry.tasks) in
        MatchResult result (λ m. margins_text m.n m.margins ≡ text) (λ r. refused_text r ≡ text) }
{
    let table = take_table(unit)?;
    let margins = admission::margins_of(&table)?;
    Ok(Margins {
        n: table.n,
        margins,
    })
}

// What the program "admit" writes.
pub fn admit(unit: UnitTexts, out: &mut [u8]) -> Written
    ensures { Wrote (admit_text (option_copied unit.entry.platform) (option_copied unit.entry.tasks))
        out.old result out.new }
{
    match judge(unit) {
        Ok(judged) => writers::write_margins(&judged.margins[..judged.n], out),
        Err(refusal) => writers::write_refused(refusal, out),
    }
}

// The first task that does not pass, if there is one, of the table of two texts of any length.
fn first_failing(platform: &[u8], tasks: &[u8]) -> Result<Option<usize>, Refusal>
    ensures number { verdict_number result ≡ verdict platform.now tasks.now }
    ensures few { (k : _) → result ≡ Ok (Some k) → k ≤ most_tasks }
{
    let platform = readers::read_platform(platform)?;
    let table = readers::read_tasks(tasks, platform)?;
    admission::first_failing_of(&table)
}

// The quick verdict, one number for C: 0 for admitted, 100 and the first task that does not pass, or the number of the
// refusal.
pub fn quick_verdict(platform: &[u8], tasks: &[u8]) -> u32
    ensures { result ≡ verdict platform.now tasks.now }
{
    match first_failing(platform, tasks) {
        Ok(None) => 0,
        // `as`: k is at most 32, and TryFrom would have an Err that never comes.
        Ok(Some(k)) => 100 + k as u32,
        Err(refusal) => refusal.number,
    }
}
