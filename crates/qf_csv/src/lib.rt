//! Records of CSV files, read and written, and the numerals in their fields.
#![tactic(auto)]

mod numerals;
mod reading;
mod writing;

pub use numerals::{count, is_plain, numeral_within};
pub use reading::{field, read_first_records, read_records, without_marks};
pub use writing::RecordWriter;
