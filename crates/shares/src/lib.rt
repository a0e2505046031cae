// What the program "explain" writes: for each pair of tasks what the one takes of the other's limit.
#![tactic(auto)]

ghost use Rattle.std.specs.Prelude.{true, ◌≤◌, ◌≡◌};
ghost use Rattle.std.specs.Option.{option_copied};
ghost use Rattle.table.specs.Refused.{unrefused};
ghost use Rattle.texts.specs.Given.{table_taken};
ghost use Rattle.writers.specs.Sinks.{Took};
ghost use Rattle.writers.specs.Written.{Wrote};
ghost use Rattle.shares.specs.Explain.{pair_row, pairs_text, explain_text};
ghost use Rattle.shares.specs.Code.Pairs.{task_text, judged};

use table::{Refusal, Table};
use texts::UnitTexts;
use writers::{Sink, Text, Written};

const HEADER: &[u8] = b"task,other,interference,weight,share\r\n";

// The most that the program "explain" writes: it lends so much, and refusal 16 cannot come up.
pub const EXPLAIN_MOST: usize = HEADER.len() + writers::ROW_OF_FIVE * (Table::MOST * Table::MOST);

// The listing of a table that is not refused.
#[derive(Clone, Copy)]
struct Pairs<'a> {
    table: &'a Table,
    ghost judged: { unrefused table.now ≡ true },
}

impl Pairs<'_> {
    // The row of task k and of what task i takes of its limit.
    fn row(&self, k: usize, i: usize) -> [u64; 5]
        requires { (1 ≤ k) × (k ≤ self.now.table.now.n) × (1 ≤ i) × (i ≤ self.now.table.now.n) }
        ensures { result ≡ pair_row self.now.table.now k i }
    {
        let x = admission::share_of(self.table, k, i);
        // `as`: there is no From of usize.
        [k as u64, i as u64, x.interference, x.weight, x.share]
    }

    // The rows of task k.
    fn put_rows<S: Sink>(&self, k: usize, sink: &mut S) -> Option<()>
        requires { (1 ≤ k) × (k ≤ self.now.table.now.n) }
        ensures { Took S.room S.put sink.old (task_text self.now.table.now k) result sink.new }
    {
        for i in 1..=self.table.n {
            writers::put_row(&self.row(k, i), sink)?;
        }
        Some(())
    }
}

impl Text for Pairs<'_> {
    ghost bytes = { λ p. pairs_text p.table.now };

    fn put<S: Sink>(&self, sink: &mut S) -> Option<()> {
        sink.word(HEADER)?;
        for k in 1..=self.table.n {
            self.put_rows(k, sink)?;
        }
        Some(())
    }
}

// The table of the two texts, if nothing refuses it.
fn judged_table(unit: UnitTexts) -> Result<Table, Refusal>
    ensures { result ≡ judged
        (table_taken (option_copied unit.entry.platform) (option_copied unit.entry.tasks)) }
{
    let table = texts::take_table(unit)?;
    table.check()?;
    Ok(table)
}

// What the program "explain" writes.
#[tactic(auto, unfolding(crate::specs::Explain::explain_text))]
pub fn explain(unit: UnitTexts, out: &mut [u8]) -> Written
    ensures { Wrote
        (explain_text (option_copied unit.entry.platform) (option_copied unit.entry.tasks))
        out.old result out.new }
{
    match judged_table(unit) {
        Ok(table) => writers::write(&Pairs { table: &table }, out),
        Err(refusal) => writers::write_refused(refusal, out),
    }
}
