//! What a log makes of a table, row by row. UPDATE, DELETE and INSERT are those of SQL (ISO/IEC 9075-2): all new values of
//! an UPDATE are computed from the row before it, and without WHERE every row is taken.
#![tactic(auto)]

mod births;
mod goals;
mod insert;
mod lives;
mod room;
mod row;
mod table;
mod value;

pub use births::Births;
pub use lives::outcome;
pub use room::Room;
pub use table::replay;
