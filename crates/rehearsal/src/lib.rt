// What a rehearsal answers.
#![tactic(auto)]

use table::{Refusal, Table};

// As C gets it, which has no `Option`: the tick at which a job is late and the lowest such task, 0 and 0 where none is,
// and how many jobs each task started before; or the refusal, and all else 0.
#[repr(C)]
#[derive(Clone, Copy)]
pub struct Rehearsal {
    pub refused: Refusal,
    pub tick: u32,
    pub task: usize,
    pub started: [u32; Table::MOST],
}
