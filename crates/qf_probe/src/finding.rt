//! Looks for refutations: bounds are taken until nothing more follows, and where they don't cross, the cases of a selector are
//! tried, the last open one first. What comes out is only a suggestion: it is applied once more before anyone is told of it.
//! So nothing here has a contract, and numbers wrap where a system that can't be used would make them too large.

mod cases;
mod column;
mod finder;
mod log;
mod queue;
mod users;

pub use cases::{Keep, find};
