//! Tables read from CSV, and final rows written as CSV.
#![tactic(auto)]

mod cells;
mod fault;
mod header;
mod laws;
mod print;
mod reading;

pub use fault::TableFault;
pub use laws::tables_say_their_records;
pub use print::print_table;
pub use reading::read_table;
