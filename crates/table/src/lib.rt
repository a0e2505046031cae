// The task table of a unit and its platform, the limits of each, and refusals 1 to 8 of document 01.
#![tactic(auto)]

ghost use Rattle.std.specs.Prelude.{min, length, take, IfOk, ◌≡◌};
ghost use Rattle.table.specs.Limits.{most_tasks, most_cores, most_partitions, longest_period};
ghost use Rattle.table.specs.Refused.{sizes_refusal, row_refusal, rows_refusal, refusal};
ghost use Rattle.table.specs.Reasons.{number_of, outcome, refusal_for};
ghost use Rattle.table.specs.Tasks.{no_task, empty_table, table_of};

// Why something is refused: document 01 numbers the reasons.
#[derive(Clone, Copy, PartialEq, Eq)]
pub enum Reason {
    Count = 1,
    Cores = 2,
    Partitions = 3,
    Period = 4,
    NoRun = 5,
    Run = 6,
    Deadline = 7,
    Need = 8,
    Task = 9,
    NotRunning = 10,
    Overrun = 11,
    Early = 12,
    Unfinished = 13,
    State = 14,
    Text = 15,
    Room = 16,
    Multiple = 17,
}

#[repr(C)]
#[derive(Clone, Copy)]
pub struct Cores(pub u32);

#[repr(C)]
#[derive(Clone, Copy)]
pub struct Partitions(pub u32);

#[repr(C)]
#[derive(Clone, Copy)]
pub struct Platform {
    pub cores: Cores,
    pub partitions: Partitions,
}

#[repr(C)]
#[derive(Clone, Copy)]
pub struct Task {
    pub d: u32,
    pub t: u32,
    pub c: u32,
    pub a: Partitions,
}

// Rows from n on are not the table's.
#[repr(C)]
#[derive(Clone, Copy)]
pub struct Table {
    pub platform: Platform,
    pub n: usize,
    pub rows: [Task; Table::MOST],
}

// A reason by its number, and the row or task concerned, as C gets it. Number 0 is no refusal: C's records alone have
// it.
#[repr(C)]
#[derive(Clone, Copy)]
pub struct Refusal {
    pub number: u32,
    pub row: usize,
}

impl Cores {
    pub const MOST: u32 = 16;
}

impl Partitions {
    pub const MOST: u32 = 64;
}

impl Task {
    pub const LONGEST: u32 = 65_535;

    pub fn none() -> Task
        ensures { result ≡ no_task }
    {
        Task {
            d: 0,
            t: 0,
            c: 0,
            a: Partitions(0),
        }
    }

    // The first of refusals 4 to 8 that the row earns on a cache of p partitions.
    pub fn check(self, p: Partitions) -> Result<(), Reason>
        ensures { number_of result ≡ row_refusal p.0 self }
    {
        if self.t < 1 || Task::LONGEST < self.t {
            return Err(Reason::Period);
        }
        if self.c == 0 {
            return Err(Reason::NoRun);
        }
        if self.d < self.c {
            return Err(Reason::Run);
        }
        if self.t < self.d {
            return Err(Reason::Deadline);
        }
        if p.0 < self.a.0 {
            return Err(Reason::Need);
        }
        Ok(())
    }
}

impl Table {
    pub const MOST: usize = 32;

    // A table without a row.
    pub fn empty(platform: Platform) -> Table
        ensures { result ≡ empty_table platform }
    {
        Table {
            platform,
            n: 0,
            rows: [Task::none(); Table::MOST],
        }
    }

    // How many entries tasks 1 to n have: a refused table may say more than there are.
    pub fn entries(n: usize) -> usize
        ensures { result ≡ min n most_tasks }
    {
        n.min(Table::MOST)
    }

    // The table of a row of tasks: their whole count, and the first of them as far as a table goes.
    pub fn of(platform: Platform, rows: &[Task]) -> Table
        ensures { result ≡ table_of platform rows.now }
    {
        let n = rows.len();
        let kept = Table::entries(n);
        let mut first = [Task::none(); Table::MOST];
        first[..kept].copy_from_slice(&rows[..kept]);
        Table {
            platform,
            n,
            rows: first,
        }
    }

    // Tasks 1 to n, as far as they are there.
    pub fn tasks(&self) -> &[Task]
        ensures are { result.now ≡ take self.now.n self.now.rows }
        ensures rows { length self.now.rows ≡ most_tasks }
    {
        &self.rows[..Table::entries(self.n)]
    }

    // The first of refusals 1 to 3.
    pub fn check_sizes(&self) -> Result<(), Reason>
        ensures { number_of result ≡ sizes_refusal self.now }
    {
        let m = self.platform.cores.0;
        let p = self.platform.partitions.0;
        if self.n < 1 || Table::MOST < self.n {
            return Err(Reason::Count);
        }
        if m < 1 || Cores::MOST < m {
            return Err(Reason::Cores);
        }
        if p < 1 || Partitions::MOST < p {
            return Err(Reason::Partitions);
        }
        Ok(())
    }

    // The first of refusals 4 to 8, row by row.
    fn check_rows(&self) -> Result<(), Refusal>
        ensures answer { result ≡ outcome (rows_refusal self.now) }
        ensures rows { length self.now.rows ≡ most_tasks }
    {
        let p = self.platform.partitions;
        for (i, task) in self.tasks().iter().enumerate() {
            if let Err(reason) = task.check(p) {
                return Err(Refusal::new(reason, i + 1));
            }
        }
        Ok(())
    }

    // The first of refusals 1 to 8. A table that passes has the rows that the type says, which the callers' proofs use.
    pub fn check(&self) -> Result<(), Refusal>
        ensures answer { result ≡ outcome (refusal self.now) }
        ensures rows { IfOk result (λ _. length self.now.rows ≡ most_tasks) }
    {
        self.check_sizes()?;
        self.check_rows()
    }
}

// A reason that concerns no one row.
impl From<Reason> for Refusal {
    ghost from_gives = { λ reason r. r ≡ refusal_for reason 0 };

    fn from(reason: Reason) -> Refusal {
        Refusal::new(reason, 0)
    }
}

impl Refusal {
    // What C's records have for no refusal.
    pub const NONE: Refusal = Refusal { number: 0, row: 0 };

    pub fn new(reason: Reason, row: usize) -> Refusal
        ensures { result ≡ refusal_for reason row }
    {
        Refusal {
            // as Rust numbers an enum: there is no From of it
            number: reason as u32,
            row,
        }
    }
}
