// The definitions of one row, statement by statement.

ghost use Rattle.std.specs.Prelude.{◌≡◌, ◌+◌, ◌^◌, ◌<◌, [], length, IfOk, OnOk, ◌++◌};
ghost use Rattle.qf_encode.specs.Coding.{made_values, made_choices, with_columns, coded_after, coded, start_coding, insert_coding, made_item, made_items};
ghost use Rattle.qf_encode.specs.Lives.{SetsIn, StatementIn, StatementsIn};
ghost use Rattle.qf_encode.specs.Making.{StatementTurns, StatementsTurn, FilterTurns};
ghost use Rattle.qf_encode.specs.RowsMade.{coded_now};

use crate::maker::{Maker, number_at};
use qf_base::{List, NoMemory};
use qf_circuit::Def;
use qf_ir::{Cond, Expr, Statement};

/// A row whose definitions are being made: those so far, and the numbers of those of its columns and of whether it lives.
#[derive(Drop)]
pub struct RowMaker {
    pub maker: Maker,
    pub columns: List<u32>,
    pub live: u32,
    // the numbers of what the columns of one statement are set to
    pub news: Vec<u32>,
}

impl RowMaker {
    fn values(&mut self, sets: &[(u32, Expr)]) -> Result<(), NoMemory>
        requires few { length (made_values self.old.columns self.old.maker sets.now).0 < 2 ^ 32 }
        ensures made { OnOk result (self.new.maker ≡ (made_values self.old.columns self.old.maker sets.now).0) }
        ensures news { OnOk result (self.new.news.items ≡ self.old.news.items ++ (made_values self.old.columns self.old.maker sets.now).1) }
        ensures count { OnOk result (length self.new.news.items ≡ length self.old.news.items + length sets.now) }
        ensures columns { self.new.columns ≡ self.old.columns }
        ensures live { self.new.live ≡ self.old.live }
    {
        for set in sets {
            let number = self.maker.value(self.columns.as_slice(), &set.1)?;
            self.news.push(number)?;
        }
        Ok(())
    }

    // Puts choices between the new values and the old ones in the place of the new ones.
    fn choices(&mut self, test: u32, sets: &[(u32, Expr)]) -> Result<(), NoMemory>
        requires same { length self.old.news.items ≡ length sets.now }
        requires few { length (made_choices self.old.columns test self.old.maker sets.now self.old.news.items).0 < 2 ^ 32 }
        ensures made { OnOk result (self.new.maker ≡ (made_choices self.old.columns test self.old.maker sets.now self.old.news.items).0) }
        ensures news { OnOk result (self.new.news.items ≡ (made_choices self.old.columns test self.old.maker sets.now self.old.news.items).1) }
        ensures count { length self.new.news.items ≡ length sets.now }
        ensures columns { self.new.columns ≡ self.old.columns }
        ensures live { self.new.live ≡ self.old.live }
    {
        for (place, set) in sets.iter().enumerate() {
            let old = number_at(self.columns.as_slice(), set.0);
            let choice = Def::Choose(test, self.news[place], old);
            self.news[place] = self.maker.push(choice)?;
        }
        Ok(())
    }

    fn update(&mut self, sets: &[(u32, Expr)], filter: &Option<Cond>) -> Result<(), NoMemory>
        requires sets { SetsIn (length self.old.columns) sets.now }
        requires turns { FilterTurns filter.now }
        requires few { length (coded_after (Statement.Update sets.now filter.now) (coded_now self.old)).circuit < 2 ^ 32 }
        ensures { OnOk result (coded_now self.new ≡ coded_after (Statement.Update sets.now filter.now) (coded_now self.old)) }
    {
        self.news.clear();
        match filter {
            None => self.values(sets)?,
            Some(condition) => {
                let test = self.maker.condition(self.columns.as_slice(), condition)?;
                self.values(sets)?;
                self.choices(test, sets)?;
            }
        }
        put_columns(&mut self.columns, sets, self.news.as_slice());
        Ok(())
    }

    fn delete(&mut self, filter: &Option<Cond>) -> Result<(), NoMemory>
        requires turns { FilterTurns filter.now }
        requires few { length (coded_after (Statement.Delete filter.now) (coded_now self.old)).circuit < 2 ^ 32 }
        ensures { OnOk result (coded_now self.new ≡ coded_after (Statement.Delete filter.now) (coded_now self.old)) }
    {
        match filter {
            None => self.live = self.maker.push(Def::Const(0))?,
            Some(condition) => {
                let test = self.maker.condition(self.columns.as_slice(), condition)?;
                let kept = self.maker.push(Def::Not(test))?;
                let mut parts = List::new(self.maker.alloc());
                parts.push(self.live)?;
                parts.push(kept)?;
                self.live = self.maker.push(Def::All(parts))?;
            }
        }
        Ok(())
    }

    fn step(&mut self, statement: &Statement) -> Result<(), NoMemory>
        requires within { StatementIn (length self.old.columns) statement.now }
        requires turns { StatementTurns statement.now }
        requires few { length (coded_after statement.now (coded_now self.old)).circuit < 2 ^ 32 }
        ensures { OnOk result (coded_now self.new ≡ coded_after statement.now (coded_now self.old)) }
    {
        match statement {
            Statement::Update { sets, filter } => self.update(sets.as_slice(), filter),
            Statement::Delete { filter } => self.delete(filter),
            Statement::Insert { .. } => Ok(()),
        }
    }

    /// Takes the row through the statements.
    pub fn follow(&mut self, statements: &[Statement]) -> Result<(), NoMemory>
        requires within { StatementsIn (length self.old.columns) statements.now }
        requires turn { StatementsTurn statements.now }
        requires few { length (coded statements.now (coded_now self.old)).circuit < 2 ^ 32 }
        ensures { OnOk result (coded_now self.new ≡ coded statements.now (coded_now self.old)) }
    {
        for statement in statements {
            self.step(statement)?;
        }
        Ok(())
    }
}

fn put_columns(columns: &mut List<u32>, sets: &[(u32, Expr)], news: &[u32])
    requires same { length news.now ≡ length sets.now }
    requires within { SetsIn (length columns.old) sets.now }
    ensures { columns.new ≡ with_columns columns.old sets.now news.now }
{
    for (place, set) in sets.iter().enumerate() {
        columns.set(u64::from(set.0), news[place]);
    }
}
