use qf_base::List;
use qf_circuit::Circuit;

/// The circuit of a row, with the numbers of the definitions that the row's columns have at the end, in the order of the
/// columns, and the number of the truth that the row lives at the end. Numbers of definitions count from 1. A text counts
/// by its code.
#[derive(Drop)]
pub struct Coded {
    pub circuit: Circuit,
    pub columns: List<u32>,
    pub live: u32,
}
