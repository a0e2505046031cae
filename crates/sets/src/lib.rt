// Sets of tasks and of partitions as numbers, and the choice of partitions for a starting job.
#![tactic(auto)]

ghost use Rattle.std.specs.Prelude.{◌≡◌, min, ◌*◌};
ghost use Rattle.table.specs.Limits.{most_partitions};
ghost use Rattle.sets.specs.Sets.{partitions_in, below, without};
ghost use Rattle.sets.specs.TaskSets.{has_task, task_bit};
ghost use Rattle.sets.specs.Choice.{choice};
ghost use Rattle.sets.specs.Code.Less.{less, leaves};

use table::{Partitions, Table};

// Task k is in the set.
pub fn has_task(x: u32, k: usize) -> bool
    ensures { result ≡ has_task x k }
{
    if k < 1 || Table::MOST < k {
        return false;
    }
    (x >> (k - 1)) % 2 == 1
}

// The set of task k alone.
pub fn task_bit(k: usize) -> u32
    ensures { result ≡ task_bit k }
{
    if k < 1 || Table::MOST < k {
        return 0;
    }
    1u32 << (k - 1)
}

// How many partitions the set has.
pub fn size(x: u64) -> Partitions
    ensures { result ≡ partitions_in x }
{
    Partitions(x.count_ones())
}

// The set of the partitions below p.
pub fn below(p: Partitions) -> u64
    ensures { result ≡ below (min p.0 most_partitions) }
{
    if p.0 < Partitions::MOST {
        return (1u64 << p.0) - 1;
    }
    u64::MAX
}

// The members of x that are not in y.
pub fn without(x: u64, y: u64) -> u64
    ensures { result ≡ without x y }
{
    x & !y
}

// The set without its lowest member.
fn less(x: u64) -> u64
    ensures { result ≡ less x }
{
    if x == 0 {
        return 0;
    }
    x & (x - 1)
}

// What is left of the set without its n lowest members.
fn less_by(x: u64, n: u32) -> u64
    ensures { result ≡ leaves x n }
{
    let mut rest = x;
    for _ in 0..n {
        rest = less(rest);
    }
    rest
}

// The same of four times as many, four at a time and until none is left: a turn for each was slower.
fn less_by_fours(x: u64, fours: u32) -> u64
    ensures { result ≡ leaves x (4 * fours) }
{
    let mut rest = x;
    for _ in 0..fours {
        if rest == 0 {
            return 0;
        }
        rest = less(less(less(less(rest))));
    }
    rest
}

// The partitions that a starting job of A = a gets, out of the idle ones.
pub fn choose(idle: u64, a: Partitions) -> u64
    ensures { result ≡ choice idle a.0 }
{
    let rest = less_by_fours(idle, a.0 / 4);
    idle - less_by(rest, a.0 % 4)
}
