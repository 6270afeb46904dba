//! What every other crate stands on: lists, texts, names, points, boxes, statuses, refusals and desks.
#![tactic(auto)]

mod desk;
mod entries;
mod file_desk;
mod list;
mod memory;
mod memory_desk;
mod names;
mod params;
mod point;
mod read_log;
mod refusal;
mod status;
pub mod streams;
mod sure_desk;
mod text;

pub use desk::{Desk, DeskFault};
pub use entries::have_distinct_names;
pub use file_desk::FileDesk;
pub use list::List;
pub use memory::NoMemory;
pub use memory_desk::MemoryDesk;
pub use names::{Bound, RowName};
pub use params::ParamSet;
pub use point::{Intervals, PBox, Point};
pub use refusal::{Kind, Refusal, refusal_line};
pub use sqlite_items::Boxed;
pub use status::Status;
pub use sure_desk::SureDesk;
pub use text::{Name, Text};
