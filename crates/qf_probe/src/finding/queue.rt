use super::column::Column;
use qf_base::NoMemory;
use std::alloc::Global;
use std::collections::VecDeque;

/// Numbers of inequalities that are to be looked at, each once, the first one first.
#[derive(Drop)]
pub struct Queue {
    rows: VecDeque<u32>,
    is_waiting: Column<bool>,
}

impl Queue {
    pub fn new(alloc: Global, count: u64) -> Result<Queue, NoMemory> {
        Ok(Queue {
            rows: VecDeque::new(alloc),
            is_waiting: Column::new(alloc, (count as usize).saturating_add(1), false)?,
        })
    }

    pub fn add(&mut self, row: u32) -> Result<(), NoMemory> {
        if !self.is_waiting.get(row as usize) {
            self.rows.push_back(row)?;
            self.is_waiting.put(row as usize, true);
        }
        Ok(())
    }

    pub fn next(&mut self) -> Option<u32> {
        let row = self.rows.pop_front()?;
        self.is_waiting.put(row as usize, false);
        Some(row)
    }

    pub fn clear(&mut self) {
        for row in self.rows.iter() {
            self.is_waiting.put(*row as usize, false);
        }
        self.rows.clear();
    }
}
