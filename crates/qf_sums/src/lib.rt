//! Rows that meet their goals exactly where what single statements add to them comes to a sum: how they are read from their
//! circuits, whether they can still come to it over a box, and how many boxes one of them makes by itself.
#![tactic(auto)]

mod amounts;
mod closed;
mod cover;
mod forms;
mod mask;
mod policy;
mod reading;
mod slots;
mod toggles;
mod units;

pub use amounts::Amounts;
pub use closed::Closings;
pub use cover::{Cover, Limit};
pub use forms::Form;
pub use mask::first_numbers;
pub use policy::{Policy, picked, raising};
pub use reading::{Reading, number_of};
pub use slots::{Slots, Span, span_at, value_at};
pub use toggles::{Toggle, Toggles};
pub use units::Unit;
