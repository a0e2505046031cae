// Writers of document 01's texts into buffers that the caller lends. Each text is walked by one function, which is told
// where it goes: it is measured first, and where it does not fit, nothing is changed.
#![tactic(auto)]

ghost use Rattle.std.specs.Prelude.{ℕ, true, ◌+◌, ◌-◌, ◌<◌, ◌≤◌, ◌≡◌, IfNone, List, [], ◌∷◌, ◌++◌, leb, length, drop};
ghost use Rattle.forms.specs.Digits.{digits};
ghost use Rattle.forms.specs.Forms.{ending, line};
ghost use Rattle.table.specs.Limits.{most_tasks};
ghost use Rattle.table.specs.Refused.{no_refusal};
ghost use Rattle.writers.specs.Outputs.{task_row, platform_text, tasks_text, reports_text, refused_text, margins_text};
ghost use Rattle.writers.specs.Code.Places.{room_left, measured, measure_laws, room_ahead, written_at, cursor_laws};
ghost use Rattle.writers.specs.Signed.{margin_of, sign, margin_row};
ghost use Rattle.writers.specs.Sinks.{SinkLaws, Took};
ghost use Rattle.writers.specs.Written.{too_short, room_for, Wrote, WroteBoth, Added};

use table::{Platform, Reason, Refusal, Table, Task};

// Where a text goes: all of it in its order, or not all, where it has no room.
pub trait Sink {
    // how many bytes have room
    ghost room: { Self → ℕ };

    // what it is once some bytes are put there
    ghost put: { Self → List ℕ → Self };

    // The word, or none of it where it has no room: the place is then as it was.
    fn word(&mut self, word: &[u8]) -> Option<()>
        ensures took { Took room put self.old word.now result self.new }
        ensures kept { IfNone result (self.new ≡ self.old) };

    // A number and what ends it, where so many more follow in its row, as one word.
    fn cell(&mut self, n: u64, left: usize) -> Option<()>
        ensures took { Took room put self.old (digits n ++ ending left) result self.new }
        ensures kept { IfNone result (self.new ≡ self.old) }
    {
        let mut cell = Cell::empty();
        cell.push_ending(left);
        cell.push_digits(n);
        self.word(&cell.bytes[cell.from..])
    }

    ghost laws: { SinkLaws room put };
}

// A text that is only measured: what it leaves of some room.
#[derive(Drop)]
struct Measure {
    left: usize,
}

impl Sink for Measure {
    ghost room = { room_left };

    ghost put = { measured };

    ghost laws = { measure_laws };

    fn word(&mut self, word: &[u8]) -> Option<()>
        ensures took { Took room_left measured self.old word.now result self.new }
        ensures kept { IfNone result (self.new ≡ self.old) }
    {
        self.left = self.left.checked_sub(word.len())?;
        Some(())
    }

    // Counted and not made: the digits of what is measured are made when it is written (docs/LOOK-BACK.md, d).
    fn cell(&mut self, n: u64, left: usize) -> Option<()>
        ensures took { Took room_left measured self.old (digits n ++ ending left) result self.new }
        ensures kept { IfNone result (self.new ≡ self.old) }
    {
        self.left = self.left.checked_sub(width(n) + ending_width(left))?;
        Some(())
    }
}

// How many digits a number has: found on the way, so no `for`.
fn width(n: u64) -> usize
    ensures { result ≡ length (digits n) }
{
    let mut w: usize = 1;
    let mut rest = n;
    while 10 <= rest {
        w += 1;
        rest /= 10;
    }
    w
}

// How many bytes end a number that so many follow in its row.
fn ending_width(left: usize) -> usize
    ensures is { result ≡ length (ending left) }
    ensures few { result ≤ 2 }
{
    if left == 0 { 2 } else { 1 }
}

// A place in a buffer.
#[derive(Drop)]
struct Cursor<'a> {
    buf: &'a mut [u8],
    at: usize,
}

impl Sink for Cursor<'_> {
    ghost room = { room_ahead };

    ghost put = { written_at };

    ghost laws = { cursor_laws };

    fn word(&mut self, word: &[u8]) -> Option<()>
        ensures took { Took room_ahead written_at self.old word.now result self.new }
        ensures kept { IfNone result (self.new ≡ self.old) }
    {
        let at = self.at.min(self.buf.len());
        if self.buf.len() - at < word.len() {
            return None;
        }
        self.buf[at..at + word.len()].copy_from_slice(word);
        self.at += word.len();
        Some(())
    }
}

// What has a text. As std's Display, but whether a text has room is told exactly, and no format is read.
pub trait Text {
    ghost bytes: { Self → List ℕ };

    fn put<S: Sink>(&self, sink: &mut S) -> Option<()>
        ensures { Took S.room S.put sink.old (bytes self.now) result sink.new };
}

// What has a text with a bound, which is told without the walk.
pub trait Bounded: Text {
    ghost bound: { Self → ℕ };

    // Whether there is as much room as the bound: then the text fits.
    fn surely_fits(&self, room: usize) -> bool
        ensures fits { result ≡ true → length (Self.bytes self.now) ≤ room }
        ensures exact { result ≡ leb (bound self.now) room };
}

// C's record, as is that of two texts: refusal 0 and the length stand for Ok, the refusal and 0 for Err. No Result: the
// exports hand it on as it is, and a program would take a Result apart for its length alone.
#[repr(C)]
#[derive(Clone, Copy)]
pub struct Written {
    pub refused: Refusal,
    pub length: usize,
}

impl Written {
    fn short() -> Written
        ensures { result ≡ record { refused = too_short; length = 0 } }
    {
        Written {
            refused: Refusal::from(Reason::Room),
            length: 0,
        }
    }

    fn whole(length: usize) -> Written
        ensures { result ≡ record { refused = no_refusal; length = length } }
    {
        Written {
            refused: Refusal::NONE,
            length,
        }
    }
}

// What is left of some room behind the text, where it has so much.
pub fn room_behind<T: Text>(text: &T, room: usize) -> Option<usize>
    ensures { result ≡ room_for (T.bytes text.now) room }
{
    let mut measure = Measure { left: room };
    text.put(&mut measure)?;
    Some(measure.left)
}

// Whether the text has room.
pub fn fits<T: Text>(text: &T, room: usize) -> bool
    ensures { result ≡ leb (length (T.bytes text.now)) room }
{
    room_behind(text, room).is_some()
}

// A text that is known to have room.
fn write_fitting<T: Text>(text: &T, buf: &mut [u8]) -> Written
    requires { length (T.bytes text.now) ≤ length buf.old }
    ensures { Wrote (T.bytes text.now) buf.old result buf.new }
{
    let mut cursor = Cursor { buf, at: 0 };
    text.put(&mut cursor);
    Written::whole(cursor.at)
}

// The text, where it is known whether the buffer has room for it.
fn write_if<T: Text>(fits: bool, text: &T, buf: &mut [u8]) -> Written
    requires { fits ≡ leb (length (T.bytes text.now)) (length buf.old) }
    ensures { Wrote (T.bytes text.now) buf.old result buf.new }
{
    if !fits {
        return Written::short();
    }
    write_fitting(text, buf)
}

// The text, where the buffer has room for it.
pub fn write<T: Text>(text: &T, buf: &mut [u8]) -> Written
    ensures { Wrote (T.bytes text.now) buf.old result buf.new }
{
    write_if(fits(text, buf.len()), text, buf)
}

// The same, and the text is measured only where there is less room than its bound.
pub fn write_bounded<T: Bounded>(text: &T, buf: &mut [u8]) -> Written
    ensures { Wrote (T.bytes text.now) buf.old result buf.new }
{
    let room = buf.len();
    write_if(text.surely_fits(room) || fits(text, room), text, buf)
}

// The text at a place of the buffer, if it has room there, and the place behind it.
pub fn add<T: Text>(text: &T, buf: &mut [u8], at: usize) -> usize
    ensures { Added buf.old at (T.bytes text.now) result buf.new }
{
    if buf.len() < at || !fits(text, buf.len() - at) {
        return at;
    }
    let mut cursor = Cursor { buf, at };
    text.put(&mut cursor);
    cursor.at
}

// The bytes of a number with what ends it, from a place on.
#[derive(Drop)]
struct Cell {
    bytes: [u8; Cell::MOST],
    from: usize,
    ghost within: { from ≤ 22 },
}

impl Cell {
    ghost use Rattle.writers.specs.Code.Cells.{Prefixed, held};

    // Twenty digits, CR and LF.
    const MOST: usize = 22;

    fn empty() -> Cell
        ensures { (held result ≡ []) × (result.from ≡ 22) }
    {
        Cell {
            bytes: [0; Cell::MOST],
            from: Cell::MOST,
        }
    }

    // One byte more, at the front.
    fn push(&mut self, byte: u8)
        requires { 0 < self.old.from }
        ensures { Prefixed self.old (byte ∷ []) self.new }
    {
        self.from -= 1;
        self.bytes[self.from] = byte;
    }

    // What ends a number that so many follow in its row.
    fn push_ending(&mut self, left: usize)
        requires { 2 ≤ self.old.from }
        ensures { Prefixed self.old (ending left) self.new }
    {
        if left == 0 {
            self.push(b'\n');
            self.push(b'\r');
        } else {
            self.push(b',');
        }
    }

    // How many digits there are is found on the way: no `for`. The place is a local of the loop, to stay in a register.
    // `as u8`: a digit, where TryFrom would have an Err that never comes.
    fn push_digits(&mut self, n: u64)
        requires { 20 ≤ self.old.from }
        ensures { Prefixed self.old (digits n) self.new }
    {
        let mut at = self.from;
        let mut rest = n;
        while 10 <= rest {
            at -= 1;
            self.bytes[at] = b'0' + (rest % 10) as u8;
            rest /= 10;
        }
        at -= 1;
        self.bytes[at] = b'0' + rest as u8;
        self.from = at;
    }
}

// The longest row of five numbers: each of at most 20 digits and a comma, and CR LF behind the last.
pub const ROW_OF_FIVE: usize = 5 * (Cell::MOST - 1) + 1;

// A number and what ends it, where so many more follow in its row.
fn put_cell<S: Sink>(n: u64, left: usize, sink: &mut S) -> Option<()>
    ensures { Took S.room S.put sink.old (digits n ++ ending left) result sink.new }
{
    sink.cell(n, left)
}

// A row of the numbers.
pub fn put_row<S: Sink>(numbers: &[u64], sink: &mut S) -> Option<()>
    ensures { Took S.room S.put sink.old (line numbers.now) result sink.new }
{
    for (i, n) in numbers.iter().enumerate() {
        put_cell(*n, numbers.len() - i - 1, sink)?;
    }
    Some(())
}

// A word by itself.
#[derive(Clone, Copy)]
pub struct Word<'a>(pub &'a [u8]);

impl Text for Word<'_> {
    ghost bytes = { λ word. word.0.now };

    fn put<S: Sink>(&self, sink: &mut S) -> Option<()> {
        sink.word(self.0)
    }
}

// A row of numbers by itself.
#[derive(Clone, Copy)]
pub struct Row<'a>(pub &'a [u64]);

impl Text for Row<'_> {
    ghost bytes = { λ row. line row.0.now };

    fn put<S: Sink>(&self, sink: &mut S) -> Option<()> {
        put_row(self.0, sink)
    }
}

impl Text for Platform {
    ghost bytes = { platform_text };

    fn put<S: Sink>(&self, sink: &mut S) -> Option<()> {
        sink.word(b"cores,partitions\r\n")?;
        put_row(
            &[u64::from(self.cores.0), u64::from(self.partitions.0)],
            sink,
        )
    }
}

// The text of a platform.
pub fn write_platform(p: Platform, buf: &mut [u8]) -> Written
    ensures { Wrote (platform_text p) buf.old result buf.new }
{
    write(&p, buf)
}

impl Text for Refusal {
    ghost bytes = { refused_text };

    fn put<S: Sink>(&self, sink: &mut S) -> Option<()> {
        sink.word(b"refused,row\r\n")?;
        // `as`: there is no From of usize.
        put_row(&[u64::from(self.number), self.row as u64], sink)
    }
}

// The listing of a refused table or text.
pub fn write_refused(r: Refusal, buf: &mut [u8]) -> Written
    ensures { Wrote (refused_text r) buf.old result buf.new }
{
    write(&r, buf)
}

// The row of a task in a table's text.
fn task_numbers(t: Task) -> [u64; 4]
    ensures { result ≡ task_row t }
{
    [
        u64::from(t.d),
        u64::from(t.t),
        u64::from(t.c),
        u64::from(t.a.0),
    ]
}

impl Text for Table {
    ghost bytes = { tasks_text };

    fn put<S: Sink>(&self, sink: &mut S) -> Option<()> {
        sink.word(b"D,T,C,A\r\n")?;
        for task in self.rows.iter().take(self.n) {
            put_row(&task_numbers(*task), sink)?;
        }
        Some(())
    }
}

// The tasks text of a table.
pub fn write_tasks(t: &Table, buf: &mut [u8]) -> Written
    ensures { Wrote (tasks_text t.now) buf.old result buf.new }
{
    write(t, buf)
}

// A margin for the listing: whether it is negative, its size, and 1 where it is above 0. `below` is its sign, no flag
// that tells whether the others count.
#[derive(Clone, Copy)]
struct Margin {
    below: bool,
    size: u64,
    pass: u64,
}

impl Margin {
    fn of(z: i64) -> Margin
        ensures { result ≡ margin_of z }
    {
        Margin {
            below: z < 0,
            size: z.unsigned_abs(),
            pass: u64::from(0 < z),
        }
    }

    fn sign(self) -> &'static [u8]
        ensures { result.now ≡ sign self.below }
    {
        if self.below { b"-" } else { b"" }
    }

    // Its row as task k's.
    fn put_row<S: Sink>(self, k: u64, sink: &mut S) -> Option<()>
        ensures { Took S.room S.put sink.old (margin_row k self) result sink.new }
    {
        put_cell(k, 2, sink)?;
        sink.word(self.sign())?;
        put_cell(self.size, 1, sink)?;
        put_cell(self.pass, 0, sink)
    }
}

// Margins as a listing has them, of task 1 and on.
#[derive(Clone, Copy)]
struct Margins<'a>(&'a [i64]);

impl Text for Margins<'_> {
    ghost bytes = { λ m. margins_text most_tasks m.0.now };

    fn put<S: Sink>(&self, sink: &mut S) -> Option<()> {
        sink.word(b"task,margin,pass\r\n")?;
        for (i, z) in self.0.iter().take(Table::MOST).enumerate() {
            // `as`: there is no From of usize.
            Margin::of(*z).put_row(i as u64 + 1, sink)?;
        }
        Some(())
    }
}

// The listing `task,margin,pass` of tasks 1 and on, as many as a table has at most.
pub fn write_margins(margins: &[i64], buf: &mut [u8]) -> Written
    ensures { Wrote (margins_text most_tasks margins.now) buf.old result buf.new }
{
    write(&Margins(margins), buf)
}

// What was released and what finished, tick by tick. Two slices: `WritesBack` speaks of two lists, of unequal length
// too, and so does `write_ticks`.
#[derive(Clone, Copy)]
struct Ticks<'a> {
    released: &'a [u32],
    finished: &'a [u32],
}

impl Text for Ticks<'_> {
    ghost bytes = { λ t. reports_text t.released.now t.finished.now };

    fn put<S: Sink>(&self, sink: &mut S) -> Option<()> {
        sink.word(b"released,finished\r\n")?;
        for (r, f) in self.released.iter().zip(self.finished) {
            put_row(&[u64::from(*r), u64::from(*f)], sink)?;
        }
        Some(())
    }
}

// The ticks text of the sets released and finished, tick by tick, as many as both slices have.
pub fn write_ticks(released: &[u32], finished: &[u32], buf: &mut [u8]) -> Written
    ensures { Wrote (reports_text released.now finished.now) buf.old result buf.new }
{
    write(&Ticks { released, finished }, buf)
}

#[repr(C)]
#[derive(Clone, Copy)]
pub struct TextsWritten {
    pub refused: Refusal,
    pub platform: usize,
    pub tasks: usize,
}

// Both texts of a table, or neither.
pub fn write_texts(t: &Table, platform: &mut [u8], tasks: &mut [u8]) -> TextsWritten
    ensures { WroteBoth (platform_text t.now.platform) (tasks_text t.now) platform.old tasks.old result
        platform.new tasks.new }
{
    if !fits(&t.platform, platform.len()) || !fits(t, tasks.len()) {
        return TextsWritten {
            refused: Refusal::from(Reason::Room),
            platform: 0,
            tasks: 0,
        };
    }
    let a = write_fitting(&t.platform, platform);
    let b = write_fitting(t, tasks);
    TextsWritten {
        refused: a.refused,
        platform: a.length,
        tasks: b.length,
    }
}
