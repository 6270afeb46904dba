use qf_base::List;

/// A whole number, or a text by its code: its place in the list of texts.
#[derive(Clone, Copy, PartialEq, Eq)]
pub enum Cell {
    Int(i64),
    Text(u32),
}

/// What becomes of a row: it is gone, or there with one cell for each column.
#[derive(Drop)]
pub enum Outcome {
    Gone,
    There(List<Cell>),
}

/// What a complaint asks of a row: to be absent, or to be there with these cells, each under the place of its column, from
/// 0. Columns that are not listed keep their cells.
#[derive(Drop)]
pub enum Ask {
    Absent,
    Present(List<(u32, Cell)>),
}

/// What a row has to become: gone, or there with these cells, one for each column, of which those without a value are
/// free.
#[derive(Drop)]
pub enum Goal {
    Gone,
    There(List<Option<Cell>>),
}
