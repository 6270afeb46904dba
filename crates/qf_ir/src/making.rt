// How a program is made of a log's statements: their columns and texts are renumbered, and then the first fault is
// looked for.

pub(crate) mod faults;
pub(crate) mod numbering;
pub(crate) mod parts;
pub(crate) mod renumber;
pub(crate) mod tally;
pub(crate) mod types;
