use qf_base::NoMemory;
use std::alloc::Global;

/// Values by place, from 0. A place that is not there reads as `rest`, and nothing is put there.
#[derive(Drop)]
pub struct Column<T> {
    items: Vec<T>,
    rest: T,
}

impl<T: Copy + Drop> Column<T> {
    /// So many places, each with this value.
    pub fn new(alloc: Global, len: usize, rest: T) -> Result<Column<T>, NoMemory> {
        let mut items = Vec::new(alloc);
        items.resize(len, rest)?;
        Ok(Column { items, rest })
    }

    pub fn get(&self, place: usize) -> T {
        if place < self.items.len() {
            self.items[place]
        } else {
            self.rest
        }
    }

    pub fn put(&mut self, place: usize, value: T) {
        if place < self.items.len() {
            self.items[place] = value;
        }
    }
}
