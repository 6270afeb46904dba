use crate::Answer;
use qf_base::{Bound, RowName};

/// A line of a certificate's text: the head, the answer, a node of the tree, a step of the refutation that stands under
/// a `Refuted` line, or the end. Parameters, inequalities, variables and rows are numbered from 1.
#[derive(Drop)]
pub enum Line {
    Head,
    Answer(Answer),
    Split {
        param: u32,
        cut: i64,
        row: RowName,
    },
    Refuted {
        row: RowName,
    },
    Tight {
        inequality: u32,
        var: u32,
        bound: Bound,
    },
    Empty,
    Case {
        var: u32,
    },
    Dear,
    Open,
    End,
}
