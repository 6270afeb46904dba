//! How large numbers can become: one interval for each column, statement by statement.
#![tactic(auto)]

mod columns;
mod conditions;
mod intervals;
mod items;
mod laws;
mod starts;
mod statements;
mod sums;

pub use columns::{ColumnWidths, WideFault, widths};
pub use laws::{lives_lie_in_widths, texts_are_narrow};
