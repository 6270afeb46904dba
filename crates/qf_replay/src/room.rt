ghost use Rattle.std.specs.Prelude.{◌≡◌, length, IfOk};

use qf_base::NoMemory;
use qf_ir::{Cell, Program};
use std::alloc::Global;
use std::marker::Model;

/// Room for the cells of one row, which is used again for row after row: it is made once, and no call that it is lent to
/// takes memory for cells. Contracts see how many cells it has room for.
#[derive(Drop)]
pub struct Room {
    pub(crate) cells: Vec<Cell>,
    pub(crate) fresh: Vec<Cell>,
}

impl Model for Room {
    ghost use Rattle.std.specs.Prelude.{◌≡◌, ℕ, length};

    ghost Value = { ℕ };

    ghost view = { λ r. length r.cells.items };

    ghost invariant = { λ r. length r.fresh.items ≡ length r.cells.items };
}

impl Room {
    /// Room for the rows of a program's table.
    pub fn new(alloc: Global, program: &Program) -> Result<Room, NoMemory>
        ensures { IfOk result (λ room. room ≡ length program.now.columns) }
    {
        let width = program.columns().len() as usize;
        Ok(Room {
            cells: vec![in alloc; Cell::Int(0); width]?,
            fresh: vec![in alloc; Cell::Int(0); width]?,
        })
    }
}
