//! The meaning of a log: tables, the statements of a log as typed trees over columns and numbered constants, and what
//! they make of the table's rows.
#![tactic(auto)]

mod ast;
mod cell;
mod column_set;
mod copy;
mod fault;
mod laws;
mod making;
mod program;
mod table;
mod terms;
mod texts;

pub use ast::{Atom, Cond, Expr, Op, Statement, Term};
pub use cell::{Ask, Cell, Goal, Outcome};
pub use column_set::ColumnSet;
pub use fault::IrFault;
pub use laws::{agreeing_points_end_alike, codes_mean_texts};
pub use program::Program;
pub use table::{Column, ColumnKind, Table};
pub use terms::Terms;
pub use texts::Texts;
