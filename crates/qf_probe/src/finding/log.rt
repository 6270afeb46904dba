use super::column::Column;
use qf_base::{Bound, Intervals, NoMemory};
use std::alloc::Global;

/// A bound that was taken: by an inequality, or as the case of a selector where `row` is 0. Numbers count from 1.
#[derive(Clone, Copy)]
pub struct Entry {
    pub row: u32,
    pub var: u32,
    pub bound: Bound,
    /// whether a conclusion needs it
    pub is_needed: bool,
    // the end before, and the number of the entry that gave it
    former: i64,
    before: usize,
}

/// Bounds of variables, which count from 1, and the entries by which they came about. An end of an interval has a number:
/// twice its variable's for the lower one, and one more for the upper one.
#[derive(Drop)]
pub struct Log {
    ends: Column<i64>,
    // the number of the entry that gave each end, from 1; 0 where it stood from the start
    givers: Column<usize>,
    entries: Vec<Entry>,
}

pub fn low_end(var: u32) -> usize {
    2 * var as usize
}

pub fn high_end(var: u32) -> usize {
    2 * var as usize + 1
}

/// A number above those of the ends of so many variables.
pub fn end_count(vars: u32) -> usize {
    2 * vars as usize + 2
}

/// The end that a bound of a variable gives, and its value.
pub fn end_of(var: u32, bound: Bound) -> (usize, i64) {
    match bound {
        Bound::Low(least) => (low_end(var), least),
        Bound::High(most) => (high_end(var), most),
    }
}

/// The end that the greatest value of a factor times a variable reads.
pub fn read_end(factor: i64, var: u32) -> usize {
    if factor < 0 {
        low_end(var)
    } else {
        high_end(var)
    }
}

impl Log {
    pub fn new(alloc: Global, bounds: &Intervals) -> Result<Log, NoMemory> {
        let count = end_count(bounds.len());
        let mut ends = Column::new(alloc, count, 0)?;
        for place in 0..bounds.len() {
            let (low, high) = bounds.get(place);
            ends.put(low_end(place + 1), low);
            ends.put(high_end(place + 1), high);
        }
        Ok(Log {
            ends,
            givers: Column::new(alloc, count, 0)?,
            entries: Vec::new(alloc),
        })
    }

    pub fn len(&self) -> usize {
        self.entries.len()
    }

    pub fn end(&self, end: usize) -> i64 {
        self.ends.get(end)
    }

    pub fn interval(&self, var: u32) -> (i64, i64) {
        (self.ends.get(low_end(var)), self.ends.get(high_end(var)))
    }

    pub fn take(&mut self, row: u32, var: u32, bound: Bound) -> Result<(), NoMemory> {
        let (end, value) = end_of(var, bound);
        self.entries.push(Entry {
            row,
            var,
            bound,
            is_needed: false,
            former: self.ends.get(end),
            before: self.givers.get(end),
        })?;
        self.ends.put(end, value);
        self.givers.put(end, self.entries.len());
        Ok(())
    }

    /// Notes that a conclusion needs what gave an end.
    pub fn need(&mut self, end: usize) {
        let giver = self.givers.get(end);
        if 0 < giver && giver <= self.entries.len() {
            let entry = &mut self.entries[giver - 1];
            entry.is_needed = true;
        }
    }

    /// Undoes the last entry.
    pub fn undo(&mut self) -> Option<Entry> {
        let entry = self.entries.pop()?;
        let (end, _) = end_of(entry.var, entry.bound);
        self.ends.put(end, entry.former);
        self.givers.put(end, entry.before);
        Some(entry)
    }
}
