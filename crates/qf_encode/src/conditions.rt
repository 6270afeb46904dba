// The definitions of conditions.

ghost use Rattle.std.specs.Prelude.{◌≡◌, ◌++◌, ◌^◌, ◌<◌, ◌≤◌, length, unsigned_abs, IfOk, OnOk};
ghost use Rattle.qf_encode.specs.Coding.{made_sign, made_order, made_compare, made_equal, made_equals, made_cond};
ghost use Rattle.qf_encode.specs.Making.{ExprTurns, ExprsTurn, CondTurns, PartsTurn, made_parts};

use crate::maker::Maker;
use qf_base::{List, NoMemory};
use qf_circuit::Def;
use qf_ir::{Cond, Expr, Op};

impl Maker {
    // left - right + more >= 0
    fn sign(
        &mut self,
        columns: &[u32],
        left: &Expr,
        right: &Expr,
        more: i64,
    ) -> Result<u32, NoMemory>
        requires turns { ExprTurns right.now }
        requires more { unsigned_abs more ≤ 1 }
        requires few { length (made_sign columns.now self.old left.now right.now more).0 < 2 ^ 32 }
        ensures made { OnOk result (self.new ≡ (made_sign columns.now self.old left.now right.now more).0) }
        ensures number { IfOk result (λ number. number ≡ (made_sign columns.now self.old left.now right.now more).1) }
    {
        let difference = self.difference(columns, left, right, more)?;
        self.push(Def::AtLeastZero(difference))
    }

    // first >= second and third >= fourth
    fn order(
        &mut self,
        columns: &[u32],
        first: &Expr,
        second: &Expr,
        third: &Expr,
        fourth: &Expr,
    ) -> Result<u32, NoMemory>
        requires second { ExprTurns second.now }
        requires fourth { ExprTurns fourth.now }
        requires few { length (made_order columns.now self.old first.now second.now third.now fourth.now).0 < 2 ^ 32 }
        ensures made { OnOk result (self.new ≡ (made_order columns.now self.old first.now second.now third.now fourth.now).0) }
        ensures number { IfOk result (λ number. number ≡ (made_order columns.now self.old first.now second.now third.now fourth.now).1) }
    {
        let one = self.sign(columns, first, second, 0)?;
        let two = self.sign(columns, third, fourth, 0)?;
        let mut parts = List::new(self.alloc());
        parts.push(one)?;
        parts.push(two)?;
        self.push(Def::All(parts))
    }

    fn equal(&mut self, columns: &[u32], left: &Expr, right: &Expr) -> Result<u32, NoMemory>
        requires left { ExprTurns left.now }
        requires right { ExprTurns right.now }
        requires few { length (made_equal columns.now self.old left.now right.now).0 < 2 ^ 32 }
        ensures made { OnOk result (self.new ≡ (made_equal columns.now self.old left.now right.now).0) }
        ensures number { IfOk result (λ number. number ≡ (made_equal columns.now self.old left.now right.now).1) }
    {
        self.order(columns, left, right, right, left)
    }

    fn compare(
        &mut self,
        columns: &[u32],
        op: Op,
        left: &Expr,
        right: &Expr,
    ) -> Result<u32, NoMemory>
        requires left { ExprTurns left.now }
        requires right { ExprTurns right.now }
        requires few { length (made_compare columns.now self.old op left.now right.now).0 < 2 ^ 32 }
        ensures made { OnOk result (self.new ≡ (made_compare columns.now self.old op left.now right.now).0) }
        ensures number { IfOk result (λ number. number ≡ (made_compare columns.now self.old op left.now right.now).1) }
    {
        match op {
            Op::Eq => self.equal(columns, left, right),
            Op::Ne => {
                let equal = self.equal(columns, left, right)?;
                self.push(Def::Not(equal))
            }
            Op::Lt => self.sign(columns, right, left, -1),
            Op::Le => self.sign(columns, right, left, 0),
            Op::Gt => self.sign(columns, left, right, -1),
            Op::Ge => self.sign(columns, left, right, 0),
        }
    }

    // The equalities of x with each item, whose numbers are added to the list.
    fn equals(
        &mut self,
        columns: &[u32],
        x: &Expr,
        items: &[Expr],
        numbers: &mut List<u32>,
    ) -> Result<(), NoMemory>
        requires x { ExprTurns x.now }
        requires items { ExprsTurn items.now }
        requires few { length (made_equals columns.now self.old x.now items.now).0 < 2 ^ 32 }
        ensures made { OnOk result (self.new ≡ (made_equals columns.now self.old x.now items.now).0) }
        ensures numbers { OnOk result (numbers.new ≡ numbers.old ++ (made_equals columns.now self.old x.now items.now).1) }
    {
        for item in items {
            let number = self.equal(columns, x, item)?;
            numbers.push(number)?;
        }
        Ok(())
    }

    // The definition of whether a condition holds.
    #[cycle(make_condition)]
    pub fn condition(&mut self, columns: &[u32], condition: &Cond) -> Result<u32, NoMemory>
        requires turns { CondTurns condition.now }
        requires few { length (made_cond columns.now self.old condition.now).0 < 2 ^ 32 }
        ensures made { OnOk result (self.new ≡ (made_cond columns.now self.old condition.now).0) }
        ensures number { IfOk result (λ number. number ≡ (made_cond columns.now self.old condition.now).1) }
    {
        match condition {
            Cond::Compare(op, left, right) => self.compare(columns, *op, left, right),
            Cond::Between(x, low, high) => self.order(columns, x, low, high, x),
            Cond::Within(x, items) => {
                let mut numbers = List::new(self.alloc());
                self.equals(columns, x, items.as_slice(), &mut numbers)?;
                self.push(Def::Any(numbers))
            }
            Cond::All(parts) => {
                let mut numbers = List::new(self.alloc());
                self.parts(columns, parts.as_slice(), &mut numbers)?;
                self.push(Def::All(numbers))
            }
            Cond::Any(parts) => {
                let mut numbers = List::new(self.alloc());
                self.parts(columns, parts.as_slice(), &mut numbers)?;
                self.push(Def::Any(numbers))
            }
            Cond::Not(part) => {
                let number = self.condition(columns, part.get())?;
                self.push(Def::Not(number))
            }
        }
    }

    #[cycle(make_condition)]
    fn parts(
        &mut self,
        columns: &[u32],
        parts: &[Cond],
        numbers: &mut List<u32>,
    ) -> Result<(), NoMemory>
        requires turn { PartsTurn parts.now }
        requires few { length (made_parts columns.now self.old parts.now).0 < 2 ^ 32 }
        ensures made { OnOk result (self.new ≡ (made_parts columns.now self.old parts.now).0) }
        ensures numbers { OnOk result (numbers.new ≡ numbers.old ++ (made_parts columns.now self.old parts.now).1) }
    {
        for part in parts {
            let number = self.condition(columns, part)?;
            numbers.push(number)?;
        }
        Ok(())
    }
}
