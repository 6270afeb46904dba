//! What certificates speak of, made from a problem: its root box, its needed parameters, and the system and the hulls of
//! each row.
#![tactic(auto)]

mod laws;
mod made;
mod row;

pub use laws::{
    bounds_keep_fit, boxes_halve, boxes_hold, instances_are_faithful, instances_are_one,
    instances_exist, leanness_is_one, marks_make_instances, root_boxes_span,
    rows_are_of_the_instance, valid_certificates_are_true, valid_regions_are_true,
    witnesses_leave_open,
};
pub use made::Made;
pub use row::{RowSystem, has_row, is_marked, row_system};
