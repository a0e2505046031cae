// Whole files, for the programs: into a buffer that the caller lends. A file that is longer fills the buffer.
#![tactic(auto)]

ghost use Rattle.std.specs.Prelude.{ℕ, ◌≤◌, ◌≡◌, List, length, Option};
ghost use Rattle.std.specs.Option.{IfSome, option_copied};
ghost use Rattle.table.specs.Refused.{no_refusal};
ghost use Rattle.writers.specs.Written.{Wrote};
ghost use Rattle.files.specs.Got.{Whole};

use std::fs;
use std::io::Read;
use std::rt::Files;
use texts::UnitTexts;
use writers::Written;

// One byte more than the longest text that a program takes.
pub const ROOM: usize = texts::LONGEST + 1;

// How many bytes came, if all could be read.
pub fn read_all<R: Read>(reader: &mut R, buf: &mut [u8]) -> Option<usize>
    ensures { IfSome result (λ count. Whole count buf.new) }
{
    let mut at: usize = 0;
    // No range and no slice to go over: each turn goes on by as much as one read brings.
    while at < buf.len() {
        match reader.read(&mut buf[at..]) {
            Ok(0) => break,
            Ok(count) => at += count,
            Err(_) => return None,
        }
    }
    Some(at)
}

// The text of a file of the working folder: what came of it into the buffer. Its name stays bytes: a `&str` would ask
// more of callers.
pub fn read_file<'a, R: Files>(rt: &R, path: &[u8], buf: &'a mut [u8]) -> Option<&'a [u8]>
    ensures { IfSome (option_copied result) (λ text. length text ≤ length buf.old) }
{
    let name = std::str::from_utf8(path).ok()?;
    let mut file = fs::open(rt, name).ok()?;
    let count = read_all(&mut file, buf)?;
    Some(&buf[..count])
}

// The two texts of a table. Arrays are lent at their length: the prover would count out one that a function itself
// makes.
pub fn read_table<'a, R: Files>(
    rt: &R,
    platform: &'a mut [u8; ROOM],
    tasks: &'a mut [u8; ROOM],
) -> UnitTexts<'a>
    ensures { IfSome (option_copied result.platform) (λ text. length text ≤ length platform.old)
        × IfSome (option_copied result.tasks) (λ text. length text ≤ length tasks.old) }
{
    UnitTexts {
        platform: read_file(rt, b"platform.csv", platform),
        tasks: read_file(rt, b"tasks.csv", tasks),
    }
}

// What a program writes of the two texts of a table, never longer than `MOST` bytes.
pub trait Listing<const MOST: usize> {
    ghost text: { Option (List ℕ) → Option (List ℕ) → List ℕ };

    fn write(unit: UnitTexts, out: &mut [u8]) -> Written
        ensures { Wrote (text (option_copied unit.entry.platform) (option_copied unit.entry.tasks))
            out.old result out.new };

    ghost fits: { (platform tasks : Option (List ℕ)) → length (text platform tasks) ≤ MOST };
}

// What the files give, and how long it is: never refused, since the buffer is as long as the listing can be. The texts
// lie in fixed memory: no heap.
pub fn put_listing<const MOST: usize, L: Listing<MOST>, R: Files>(
    rt: &R,
    out: &mut [u8; MOST],
) -> Written
    ensures { (result.refused ≡ no_refusal) × Whole result.length out.new }
{
    let mut platform = [0u8; ROOM];
    let mut tasks = [0u8; ROOM];
    let unit = read_table(rt, &mut platform, &mut tasks);
    L::write(unit, out)
}
