// What the program "ticks" writes: the ticks of a text on the fresh machine of a table.
#![tactic(auto)]

ghost use Rattle.std.specs.Prelude.{◌-◌, ◌^◌, ◌<◌, ◌≤◌, ◌≡◌, true, leb, length};
ghost use Rattle.std.specs.Option.{option_copied};
ghost use Rattle.forms.specs.Forms.{ticks_form};
ghost use Rattle.readers.specs.Inputs.{ticks_read};
ghost use Rattle.texts.specs.Given.{taken, table_taken};
ghost use Rattle.writers.specs.Written.{Wrote};
ghost use Rattle.runs.specs.Ticks.{run_text, listing_most, ticks_text};
ghost use Rattle.runs.specs.Code.Runs.{ticks_in, CountedTicks, run_on, line_on, judged};

use machine::Machine;
use table::{Refusal, Table};
use texts::UnitTexts;
use writers::{Bounded, Sink, Text, Written};

const HEADER: &[u8] = b"tick,refused,finished,late,started\r\n";

// The most that the program "ticks" writes: it lends so much, and refusal 16 cannot come up. A tick takes at least 5
// bytes of its text.
pub const TICKS_MOST: usize = HEADER.len()
    + writers::ROW_OF_FIVE * ((texts::LONGEST - readers::FIRST_TICK) / 5);

// A run at the place of its next tick: the machine, and how many ticks it took.
#[derive(Clone, Copy)]
struct Run {
    machine: Machine,
    taken: u64,
    at: usize,
}

impl Run {
    // Past the tick at its place: the row of that tick.
    fn on(&mut self, text: &[u8]) -> [u64; 5]
        requires { self.old.taken < 2 ^ 64 - 1 }
        ensures row { result ≡ line_on text.now self.old }
        ensures run { self.new ≡ run_on text.now self.old }
    {
        let read = readers::tick_at(text, self.at);
        let x = ticking::tick(&mut self.machine, read.value.released, read.value.finished);
        let row = [
            self.taken,
            u64::from(x.refused.number),
            u64::from(x.finished),
            u64::from(x.late),
            u64::from(x.started),
        ];
        // C's record has number 0 where the tick is not refused.
        self.taken += u64::from(x.refused.number == 0);
        self.at = read.next;
        row
    }
}

// Whether the longest listing of so many ticks has room.
fn surely_fits(count: usize, room: usize) -> bool
    ensures { result ≡ leb (listing_most count) room }
{
    HEADER.len() <= room && count <= (room - HEADER.len()) / writers::ROW_OF_FIVE
}

// The listing of a good ticks text's ticks on a machine.
#[derive(Clone, Copy)]
struct AnsweredTicks<'a> {
    machine: Machine,
    text: &'a [u8],
    count: usize,
    ghost counted: { CountedTicks text.now count },
}

impl Text for AnsweredTicks<'_> {
    ghost bytes = { λ l. run_text l.machine (ticks_in l.text.now) };

    fn put<S: Sink>(&self, sink: &mut S) -> Option<()> {
        sink.word(HEADER)?;
        let mut run = Run {
            machine: self.machine,
            taken: 0,
            at: readers::FIRST_TICK,
        };
        for _ in 0..self.count {
            writers::put_row(&run.on(self.text), sink)?;
        }
        Some(())
    }
}

impl Bounded for AnsweredTicks<'_> {
    ghost bound = { λ l. listing_most l.count };

    // Where the longest listing of so many ticks has room, and nowhere else, the ticks are not run to measure theirs.
    fn surely_fits(&self, room: usize) -> bool
        ensures fits { result ≡ true → length (run_text self.now.machine (ticks_in self.now.text.now)) ≤ room }
        ensures exact { result ≡ leb (listing_most self.now.count) room }
    {
        surely_fits(self.count, room)
    }
}

// The fresh machine of the first two texts, and how many ticks the third has. All three are tried before any number of
// the table is judged.
fn judged_run(unit: UnitTexts, ticks: Option<&[u8]>) -> Result<(Machine, usize), Refusal>
    ensures { result ≡ judged
        (table_taken (option_copied unit.entry.platform) (option_copied unit.entry.tasks))
        (ticks_read (taken ticks_form (option_copied ticks.entry))) }
{
    let table = texts::take_table(unit)?;
    let count = texts::take_ticks(ticks)?;
    table.check()?;
    Ok((Machine::fresh(&table), count))
}

// What the program "ticks" writes.
pub fn ticks(unit: UnitTexts, ticks: Option<&[u8]>, out: &mut [u8]) -> Written
    ensures { Wrote
        (ticks_text (option_copied unit.entry.platform) (option_copied unit.entry.tasks)
        (option_copied ticks.entry))
        out.old result out.new }
{
    match judged_run(unit, ticks) {
        Ok((machine, count)) => {
            // A missing text was refused above, so that the empty one never stands in for it.
            let text = ticks.unwrap_or(&[]);
            let listing = AnsweredTicks {
                machine,
                text,
                count,
            };
            writers::write_bounded(&listing, out)
        }
        Err(refusal) => writers::write_refused(refusal, out),
    }
}
