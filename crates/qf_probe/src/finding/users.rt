ghost use Rattle.std.specs.Prelude.{◌<◌, ◌^◌, length};

use super::column::Column;
use super::log::{end_count, read_end};
use qf_base::NoMemory;
use qf_lin::{Inequality, System};
use std::alloc::Global;

/// Which inequalities read an end of an interval, as chains of links, each with its inequality and the number of the next
/// link. Links count from 1, and a chain goes down.
#[derive(Drop)]
pub struct Users {
    first: Column<usize>,
    links: Vec<(u32, usize)>,
}

impl Users {
    pub fn new(alloc: Global, system: &System) -> Result<Users, NoMemory>
        requires few { length system.now.inequalities < 2 ^ 32 }
    {
        let mut users = Users {
            first: Column::new(alloc, end_count(system.vars), 0)?,
            links: Vec::new(alloc),
        };
        let rows = system.inequalities.as_slice();
        for place in (0..rows.len()).rev() {
            users.add(place as u32 + 1, &rows[place])?;
        }
        Ok(users)
    }

    fn add(&mut self, number: u32, row: &Inequality) -> Result<(), NoMemory> {
        let terms = row.terms.as_slice();
        for term in terms {
            let end = read_end(term.0, term.1);
            self.links.push((number, self.first.get(end)))?;
            self.first.put(end, self.links.len());
        }
        Ok(())
    }

    /// The first link of an end's chain, 0 where there is none.
    pub fn first(&self, end: usize) -> usize {
        self.first.get(end)
    }

    /// The inequality of a link, and the next link, whose number is smaller; 0 where there is none.
    pub fn link(&self, number: usize) -> (u32, usize) {
        if number == 0 || self.links.len() < number {
            return (0, 0);
        }
        let (row, next) = self.links[number - 1];
        (row, next.min(number - 1))
    }
}
