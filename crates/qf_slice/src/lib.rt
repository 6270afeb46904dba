//! Which constants of a log can matter to what is asked, and the box that has to be searched (X. Wang, A. Meliou, E. Wu,
//! "QFix: Diagnosing Errors through Query Histories", SIGMOD 2017).
#![tactic(auto)]

mod laws;
mod marks;
mod root;

pub use laws::{
    least_repair_is_in_the_root_box, no_repair_outside_the_root_box, root_box_is_one,
    slice_is_the_root_box, slicing_loses_no_repair,
};
pub use marks::{needed, needed_list};
pub use root::{open_count, root_box};
