// Readers of document 01's texts. Each reads as far as a good text could go, and says where that is.
#![tactic(auto)]

ghost use Rattle.std.specs.Prelude.{◌+◌, ◌*◌, ◌<◌, ◌≡◌, [], leb};
ghost use Rattle.forms.specs.Forms.{ending, platform_form, tasks_form, ticks_form};
ghost use Rattle.forms.specs.Reader.{read};
ghost use Rattle.readers.specs.Inputs.{bad_text, platform_of, platform_read, task_of, table_read};
ghost use Rattle.readers.specs.Inputs.{tick_of, ticks_read, tick_at};
ghost use Rattle.readers.specs.Places.{word_at, number_at, cell_at, row_from};
ghost use Rattle.readers.specs.Code.Digits.{grown_to, Narrow};

use machine::Report;
use table::{Cores, Partitions, Platform, Reason, Refusal, Table, Task};

// Where the first byte is that may not stand there.
#[derive(Clone, Copy)]
struct Offset(usize);

// What a piece of a text says, a number, a row of them or a tick, and the place behind it. A text and a place are lent
// apart and no reader moves on in it: a piece that is not there leaves its caller where it was.
#[derive(Clone, Copy)]
pub struct Piece<T> {
    pub value: T,
    pub next: usize,
}

// The largest number of a column of 32 bits.
const LARGEST: u64 = 4_294_967_295;

// A text that is not of its form.
impl From<Offset> for Refusal {
    ghost from_gives = { λ offset r. r ≡ bad_text offset.0 };

    fn from(offset: Offset) -> Refusal {
        Refusal::new(Reason::Text, offset.0)
    }
}

// The place behind the word that stands at a place.
fn word_at(s: &[u8], at: usize, word: &[u8]) -> Result<usize, Offset>
    ensures { result ≡ word_at s.now at word.now }
{
    for i in 0..word.len() {
        if s.len() <= at + i || s[at + i] != word[i] {
            return Err(Offset(at + i));
        }
    }
    Ok(at + word.len())
}

// A number with a further digit, where that may follow.
fn with_digit(most: u64, v: u64, c: u8) -> Option<u64>
    ensures { result ≡ grown_to most v c }
{
    if !c.is_ascii_digit() {
        return None;
    }
    let d = u64::from(c - b'0');
    if !has_room(most, v, d) {
        return None;
    }
    Some(10 * v + d)
}

// Whether 10 v + d is at most the largest, asked so that nothing passes 64 bits. Most digits are told by the quotient,
// the same for each: `checked_mul` and `checked_add` were tried, and the readers took up to 15 per cent more
// instructions, where 10 may be spent (set-up from the longest text 0.78 times plain C, not 0.67; docs/SPEED.md).
fn has_room(most: u64, v: u64, d: u64) -> bool
    requires { d < 10 }
    ensures { result ≡ leb (10 * v + d) most }
{
    if v < most / 10 {
        return true;
    }
    if most / 10 < v {
        return false;
    }
    d <= most - 10 * v
}

// The number of a column at a place, where one begins.
fn number_at(s: &[u8], at: usize, most: u64) -> Option<Piece<u64>>
    ensures { result ≡ number_at most s.now at }
{
    if s.len() <= at {
        return None;
    }
    let mut value = with_digit(most, 0, s[at])?;
    // No digit follows a leading 0.
    if value == 0 {
        return Some(Piece {
            value,
            next: at + 1,
        });
    }
    for next in at + 1..s.len() {
        let Some(more) = with_digit(most, value, s[next]) else {
            return Some(Piece { value, next });
        };
        value = more;
    }
    Some(Piece {
        value,
        next: s.len(),
    })
}

// What ends a number where so many more follow in its row.
fn ending(left: usize) -> &'static [u8]
    ensures { result.now ≡ ending left }
{
    if left == 0 {
        return b"\r\n";
    }
    b","
}

// The number of a column at a place, and what ends it where so many more follow in its row.
fn cell_at(s: &[u8], at: usize, most: u64, left: usize) -> Result<Piece<u64>, Offset>
    ensures { result ≡ cell_at most s.now at (ending left) }
{
    let Some(x) = number_at(s, at, most) else {
        return Err(Offset(at));
    };
    Ok(Piece {
        value: x.value,
        next: word_at(s, x.next, ending(left))?,
    })
}

// The row at a place, of columns whose largest numbers these are.
fn row_at<const N: usize>(
    s: &[u8],
    at: usize,
    columns: &[u64; N],
) -> Result<Piece<[u64; N]>, Offset>
    ensures { result ≡ row_from s.now [] columns.now at }
{
    let mut numbers = [0; N];
    let mut next = at;
    for j in 0..N {
        let x = cell_at(s, next, columns[j], N - j - 1)?;
        numbers[j] = x.value;
        next = x.next;
    }
    Ok(Piece {
        value: numbers,
        next,
    })
}

// Numbers of 32 bits, which `as` is proved to keep; TryFrom would have an Err that never comes.
fn narrow<const N: usize>(numbers: [u64; N]) -> [u32; N]
    requires { Narrow numbers }
    ensures { result ≡ numbers.entry }
{
    let mut narrowed = [0; N];
    for i in 0..N {
        narrowed[i] = numbers[i] as u32;
    }
    narrowed
}

fn platform_of(numbers: [u32; 2]) -> Platform
    ensures { result ≡ platform_of numbers }
{
    let [cores, partitions] = numbers;
    Platform {
        cores: Cores(cores),
        partitions: Partitions(partitions),
    }
}

// The platform of a platform text, or refusal 15.
pub fn read_platform(s: &[u8]) -> Result<Platform, Refusal>
    ensures { result ≡ platform_read (read platform_form s.now) }
{
    let at = word_at(s, 0, b"cores,partitions\r\n")?;
    let row = row_at(s, at, &[LARGEST; 2])?;
    if row.next < s.len() {
        return Err(Refusal::from(Offset(row.next)));
    }
    Ok(platform_of(narrow(row.value)))
}

fn task_of(numbers: [u32; 4]) -> Task
    ensures { result ≡ task_of numbers }
{
    let [d, t, c, a] = numbers;
    Task {
        d,
        t,
        c,
        a: Partitions(a),
    }
}

// The table of a platform and a tasks text, or refusal 15: every row counted, the first 32 kept.
pub fn read_tasks(s: &[u8], platform: Platform) -> Result<Table, Refusal>
    ensures { result ≡ table_read platform (read tasks_form s.now) }
{
    let mut at = word_at(s, 0, b"D,T,C,A\r\n")?;
    let mut table = Table::empty(platform);
    // No `for`: a step is as long as the row that it reads.
    while at < s.len() {
        let row = row_at(s, at, &[LARGEST; 4])?;
        if table.n < Table::MOST {
            table.rows[table.n] = task_of(narrow(row.value));
        }
        table.n += 1;
        at = row.next;
    }
    Ok(table)
}

const TICKS_HEADER: &[u8] = b"released,finished\r\n";

// The place of the first tick of a ticks text, behind the header.
pub const FIRST_TICK: usize = TICKS_HEADER.len();

// What a row of a ticks text says.
fn tick_of(numbers: [u32; 2]) -> Report
    ensures { result ≡ tick_of numbers }
{
    let [released, finished] = numbers;
    Report { released, finished }
}

// How many ticks a ticks text has, or refusal 15.
pub fn read_ticks(s: &[u8]) -> Result<usize, Refusal>
    ensures { result ≡ ticks_read (read ticks_form s.now) }
{
    let mut at = word_at(s, 0, TICKS_HEADER)?;
    let mut n: usize = 0;
    // No `for`: a step is as long as the row that it reads.
    while at < s.len() {
        at = row_at(s, at, &[LARGEST; 2])?.next;
        n += 1;
    }
    Ok(n)
}

// The tick at a place, and the place behind it; of a text that read_ticks accepts, from FIRST_TICK on. No Result: it
// could not fail, and where no tick stands it answers two empty sets.
pub fn tick_at(s: &[u8], at: usize) -> Piece<Report>
    ensures { result ≡ tick_at s.now at }
{
    match row_at(s, at, &[LARGEST; 2]) {
        Ok(row) => Piece {
            value: tick_of(narrow(row.value)),
            next: row.next,
        },
        Err(Offset(next)) => Piece {
            value: tick_of([0, 0]),
            next,
        },
    }
}
