// How a row starts.

ghost use Rattle.std.specs.Prelude.{◌≡◌, ◌^◌, ◌<◌, ◌++◌, ◌+◌, [], length, map, slice_index_or, IfOk, OnOk};
ghost use Rattle.qf_encode.specs.Coding.{begun, start_coding, insert_coding, made_item, made_items, numbers_from};
ghost use Rattle.qf_encode.specs.RowsMade.{coded_now};
ghost use Rattle.qf_ir.specs.Replay as spec;
ghost use Rattle.qf_ir.specs.Value as value;

use crate::maker::Maker;
use crate::row::RowMaker;
use qf_base::{List, NoMemory};
use qf_circuit::Def;
use qf_ir::{Cell, Expr};
use std::alloc::Global;

fn number_of(cell: Cell) -> i64
    ensures { result ≡ value.number_of cell }
{
    match cell {
        Cell::Int(number) => number,
        Cell::Text(code) => i64::from(code),
    }
}

fn place_of(columns: &[u32], column: u32) -> usize
    ensures { result ≡ spec.place_of columns.now column }
{
    if columns.is_empty() {
        column as usize
    } else {
        place_from(columns, column)
    }
}

fn place_from(columns: &[u32], column: u32) -> usize
    ensures { result ≡ spec.place_from columns.now column }
{
    for (i, c) in columns.iter().enumerate() {
        if *c == column {
            return i;
        }
    }
    columns.len()
}

impl Maker {
    // The definition of an item of INSERT, and of 0 where there is none.
    fn item(&mut self, tuple: &[Expr], place: usize) -> Result<u32, NoMemory>
        requires few { length (made_item self.old (slice_index_or tuple.now place (Expr.Word 0))).0 < 2 ^ 32 }
        ensures made { OnOk result (self.new ≡ (made_item self.old (slice_index_or tuple.now place (Expr.Word 0))).0) }
        ensures number { IfOk result (λ number. number ≡ (made_item self.old (slice_index_or tuple.now place (Expr.Word 0))).1) }
    {
        match tuple.get(place) {
            Some(Expr::Sum(terms)) => match terms.as_slice().first() {
                Some(term) => self.atom(&[], term.atom),
                None => self.push(Def::Const(0)),
            },
            Some(Expr::Word(code)) => self.push(Def::Const(i64::from(*code))),
            None => self.push(Def::Const(0)),
        }
    }

    // The definitions of all columns of a row that INSERT makes.
    fn items(&mut self, width: u32, columns: &[u32], tuple: &[Expr]) -> Result<List<u32>, NoMemory>
        requires few { length (made_items columns.now tuple.now self.old 0 width).0 < 2 ^ 32 }
        ensures made { OnOk result (self.new ≡ (made_items columns.now tuple.now self.old 0 width).0) }
        ensures numbers { IfOk result (λ numbers. numbers ≡ (made_items columns.now tuple.now self.old 0 width).1) }
    {
        let mut numbers = List::new(self.alloc());
        for column in 0..width {
            let number = self.item(tuple, place_of(columns, column))?;
            numbers.push(number)?;
        }
        Ok(numbers)
    }

    // The definitions of a row of the table.
    fn cells(&mut self, cells: &[Cell]) -> Result<List<u32>, NoMemory>
        requires few { length self.old + length cells.now < 2 ^ 32 }
        ensures made { OnOk result (self.new ≡ self.old ++ map (λ cell. Def.Const (value.number_of cell)) cells.now) }
        ensures numbers { IfOk result (λ numbers. numbers ≡ numbers_from (length self.old + 1) cells.now) }
    {
        let mut numbers = List::new(self.alloc());
        for cell in cells {
            let number = self.push(Def::Const(number_of(*cell)))?;
            numbers.push(number)?;
        }
        Ok(numbers)
    }
}

impl RowMaker {
    /// A row of the table.
    pub fn start(alloc: Global, cells: &[Cell]) -> Result<RowMaker, NoMemory>
        requires few { length cells.now + 1 < 2 ^ 32 }
        ensures { IfOk result (λ row. coded_now row ≡ start_coding cells.now) }
    {
        let mut maker = Maker::new(alloc);
        let columns = maker.cells(cells)?;
        RowMaker::begin(maker, columns)
    }

    /// A row that INSERT makes.
    pub fn insert(
        alloc: Global,
        width: u32,
        columns: &[u32],
        tuple: &[Expr],
    ) -> Result<RowMaker, NoMemory>
        requires few { length (insert_coding width columns.now tuple.now).circuit < 2 ^ 32 }
        ensures { IfOk result (λ row. coded_now row ≡ insert_coding width columns.now tuple.now) }
    {
        let mut maker = Maker::new(alloc);
        let columns = maker.items(width, columns, tuple)?;
        RowMaker::begin(maker, columns)
    }

    fn begin(maker: Maker, columns: List<u32>) -> Result<RowMaker, NoMemory>
        requires few { length maker + 1 < 2 ^ 32 }
        ensures { IfOk result (λ row. coded_now row ≡ begun (maker, columns)) }
    {
        let mut maker = maker;
        let live = maker.push(Def::Const(1))?;
        let news = Vec::new(maker.alloc());
        Ok(RowMaker {
            maker,
            columns,
            live,
            news,
        })
    }
}
