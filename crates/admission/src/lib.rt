// The admission answers: the second test of the report, task by task, with exact margins.
#![tactic(auto)]

ghost use Rattle.std.specs.Prelude.{◌≡◌, suc, ◌+◌, ◌^◌, ◌<◌, ◌≤◌, max, not, length, take, MatchResult, IfOk};
ghost use Rattle.std.specs.List.{position};
ghost use Rattle.table.specs.Good.{Good, GoodRow};
ghost use Rattle.table.specs.Limits.{most_tasks, most_cores, most_partitions, longest_period};
ghost use Rattle.table.specs.Refused.{no_refusal, refusal};
ghost use Rattle.table.specs.Tasks.{M};
ghost use Rattle.lives.specs.Report.{equation3, weight_of, limit_of};
ghost use Rattle.admission.specs.Test.{row, S, Amax, B, less, above0, first_failing};
ghost use Rattle.admission.specs.Answers.{task_found, margins, first_answer, margins_answer};
ghost use Rattle.admission.specs.Answers.{quick_refused, full_answer, quick_answer};
ghost use Rattle.admission.specs.Shares.{is_task, share_in, share_answer};
ghost use Rattle.admission.specs.Code.Shares.{share_by, load_by};
ghost use Rattle.admission.specs.Code.Judged.{Refused, judged, with_margins};

use table::{Cores, Partitions, Refusal, Table, Task};

// C's record, and so is the quick one: refusal 0 and first 0 stand for none, where the code has a Result and an Option.
#[repr(C)]
#[derive(Clone, Copy)]
pub struct FullAnswer {
    pub refused: Refusal,
    pub admitted: bool,
    pub first: usize,
    pub margins: [i64; Table::MOST],
}

// What a task takes of another's limit, and the two numbers that it is the product of.
#[derive(Clone, Copy, Default)]
pub struct Share {
    pub interference: u64,
    pub weight: u64,
    pub share: u64,
}

// A table that is not refused.
#[derive(Clone, Copy)]
struct Judged<'a> {
    table: &'a Table,
    ghost good: { Good table.now },
}

// M, and of one task B, a count of partitions, and its slack.
#[derive(Clone, Copy)]
struct Measures {
    m: Cores,
    b: Partitions,
    s: u32,
    ghost few_cores: { m.0 ≤ most_cores },
    ghost few_partitions: { b.0 ≤ most_partitions + 1 },
    ghost short: { s ≤ longest_period },
}

#[repr(C)]
#[derive(Clone, Copy)]
pub struct QuickAnswer {
    pub refused: Refusal,
    pub admitted: bool,
    pub first: usize,
}

impl Measures {
    // Equation 3, of a task in a window of the slack.
    fn interference(&self, task: &Task) -> u64
        requires { GoodRow most_partitions task.now }
        ensures { result ≡ equation3 self.now.s (row task.now) }
    {
        let jobs = self.s / task.t + 2;
        u64::from(jobs) * u64::from(task.c)
    }

    // The weight of a task in the load.
    fn weight(&self, task: &Task) -> u64
        requires { GoodRow most_partitions task.now }
        ensures { result ≡ weight_of self.now.m.0 self.now.b.0 task.now.a.0 }
    {
        let share = self.m.0 * task.a.0;
        u64::from(self.b.0.max(share))
    }

    // What a task takes of the limit: its term of the load.
    fn share(&self, task: &Task) -> Share
        requires { GoodRow most_partitions task.now }
        ensures { result ≡ share_by self.now.m.0 self.now.b.0 self.now.s task.now }
    {
        let interference = self.interference(task);
        let weight = self.weight(task);
        let share = weight * interference;
        Share {
            interference,
            weight,
            share,
        }
    }

    fn limit(&self) -> u64
        ensures { result ≡ limit_of self.now.m.0 self.now.b.0 self.now.s }
    {
        u64::from(self.m.0) * u64::from(self.b.0) * u64::from(self.s)
    }
}

impl QuickAnswer {
    // A refused table: all else is 0.
    fn refused(refused: Refusal) -> QuickAnswer
        ensures { result ≡ quick_refused refused }
    {
        QuickAnswer {
            refused,
            admitted: false,
            first: 0,
        }
    }

    // A table that is not refused, from the first task that does not pass.
    fn judged(first: Option<usize>) -> QuickAnswer
        ensures { result ≡ judged first }
    {
        QuickAnswer {
            refused: Refusal::NONE,
            admitted: first.is_none(),
            first: first.unwrap_or(0),
        }
    }

    // The same with the margin of each task.
    fn with(self, margins: [i64; Table::MOST]) -> FullAnswer
        ensures { result ≡ with_margins self margins }
    {
        FullAnswer {
            refused: self.refused,
            admitted: self.admitted,
            first: self.first,
            margins,
        }
    }
}

// The exact difference, below, at and above 0, in the form that document 01 names. No From leads from u64 to i64.
fn difference(a: u64, b: u64) -> i64
    requires { (a < 2 ^ 62) × (b < 2 ^ 62) }
    ensures { result ≡ less a b }
{
    (a as i64) - (b as i64)
}

// Tasks 1 to k.
fn first_tasks(t: &Table, k: usize) -> &[Task]
    requires { k ≤ most_tasks }
    ensures are { result.now ≡ take k t.now.rows }
    ensures many { length result.now ≡ k }
{
    &t.rows[..k]
}

// Amax of a task, from its row and from the Amax of the task before.
fn largest(most: Partitions, task: &Task) -> Partitions
    ensures { result.0 ≡ max most.0 task.now.a.0 }
{
    Partitions(most.0.max(task.a.0))
}

// Amax of task k.
fn amax(t: &Table, k: usize) -> Partitions
    requires { k ≤ most_tasks }
    ensures { result.0 ≡ Amax t.now k }
{
    let mut most = Partitions(0);
    for task in first_tasks(t, k) {
        most = largest(most, task);
    }
    most
}

impl Judged<'_> {
    // Of task k + 1, from its Amax.
    fn measures(&self, k: usize, most: Partitions) -> Measures
        requires { (k < self.now.table.now.n) × (most.0 ≡ Amax self.now.table.now (suc k)) }
        ensures { let t = self.now.table.now in
            (result.m.0 ≡ M t) × (result.b.0 ≡ B t (suc k)) × (result.s ≡ S t (suc k)) }
    {
        let t = self.table;
        let task = &t.rows[k];
        Measures {
            m: t.platform.cores,
            b: Partitions(t.platform.partitions.0 - most.0 + 1),
            s: task.d - task.c,
        }
    }

    // The load of the task that was measured.
    fn load(&self, x: &Measures) -> u64
        ensures { result ≡ load_by x.now.m.0 x.now.b.0 x.now.s self.now.table.now }
    {
        let mut load = 0;
        for task in first_tasks(self.table, self.table.n) {
            load += x.share(task).share;
        }
        load
    }

    // The margin of each task.
    fn margins(&self) -> [i64; Table::MOST]
        ensures { result ≡ margins self.now.table.now }
    {
        let t = self.table;
        let mut margins = [0; Table::MOST];
        let mut most = Partitions(0);
        for k in 0..t.n {
            most = largest(most, &t.rows[k]);
            let x = self.measures(k, most);
            margins[k] = difference(x.limit(), self.load(&x));
        }
        margins
    }

    // The first task that does not pass. Two loops in one function: document 01 names this form, nested loops left by
    // label with the number of that task, at once where a load reaches its limit.
    fn first_failing(&self) -> Option<usize>
        ensures { result ≡ task_found (first_failing self.now.table.now) }
    {
        let t = self.table;
        let mut most = Partitions(0);
        'tasks: {
            for k in 0..t.n {
                most = largest(most, &t.rows[k]);
                let x = self.measures(k, most);
                let limit = x.limit();
                let mut load = 0;
                for task in first_tasks(t, t.n) {
                    load += x.share(task).share;
                    if limit <= load {
                        break 'tasks Some(k + 1);
                    }
                }
            }
            None
        }
    }

    // What task i + 1 takes of the limit of task k + 1.
    fn share_at(&self, k: usize, i: usize) -> Share
        requires { (k < self.now.table.now.n) × (i < self.now.table.now.n) }
        ensures { result ≡ share_in self.now.table.now (suc k) (suc i) }
    {
        let most = amax(self.table, k + 1);
        self.measures(k, most).share(&self.table.rows[i])
    }
}

// What the check finds of a table.
fn checked(t: &Table) -> Result<Judged, Refusal>
    ensures { MatchResult result (λ j. (j.table.now ≡ t.now) × (refusal t.now ≡ no_refusal)) (λ r. Refused t.now r) }
{
    t.check()?;
    Ok(Judged { table: t })
}

// The first task that does not pass, if there is one; or the refusal.
pub fn first_failing_of(t: &Table) -> Result<Option<usize>, Refusal>
    ensures { result ≡ first_answer t.now }
{
    Ok(checked(t)?.first_failing())
}

// The margin of each task, of at most 32; or the refusal.
pub fn margins_of(t: &Table) -> Result<[i64; Table::MOST], Refusal>
    ensures margins { result ≡ margins_answer t.now }
    ensures few { IfOk result (λ margins. t.now.n ≤ most_tasks) }
{
    Ok(checked(t)?.margins())
}

// The first margin that is not above 0.
fn first_not_above_0(margins: &[i64]) -> Option<usize>
    ensures { result ≡ position (λ z. not (above0 z)) margins.now }
{
    margins.iter().position(|margin| *margin <= 0)
}

// The verdict, the first task that does not pass, and the margin of each task; or the refusal.
pub fn full_answer(t: &Table) -> FullAnswer
    ensures { result ≡ full_answer t.now }
{
    match margins_of(t) {
        Ok(margins) => {
            let first = first_not_above_0(&margins[..t.n]).map(|k| k + 1);
            QuickAnswer::judged(first).with(margins)
        }
        Err(refused) => QuickAnswer::refused(refused).with([0; Table::MOST]),
    }
}

// The verdict and the first task that does not pass; or the refusal.
pub fn quick_answer(t: &Table) -> QuickAnswer
    ensures { result ≡ quick_answer t.now }
{
    match first_failing_of(t) {
        Ok(first) => QuickAnswer::judged(first),
        Err(refused) => QuickAnswer::refused(refused),
    }
}

fn is_task(t: &Table, k: usize) -> bool
    ensures { result ≡ is_task t.now k }
{
    1 <= k && k <= t.n
}

// What task i takes of the limit of task k. Its statement, share_answer, has all 0 and no None where the table is
// refused or one of them is not a task.
pub fn share_of(t: &Table, k: usize, i: usize) -> Share
    ensures { result ≡ share_answer t.now k i }
{
    match checked(t) {
        Ok(judged) if is_task(t, k) && is_task(t, i) => judged.share_at(k - 1, i - 1),
        _ => Share::default(),
    }
}
