// The definitions of sums, differences and new values.

ghost use Rattle.std.specs.Prelude.{◌≡◌, ◌++◌, ◌^◌, ◌<◌, ◌≤◌, length, map, unsigned_abs, IfOk, OnOk, pos, ◌+ℤ◌, ◌-ℤ◌};
ghost use Rattle.qf_encode.specs.Coding.{with_terms, addend, opposite, terms_in, constant_in, made_sum, made_value, made_difference};
ghost use Rattle.qf_encode.specs.Making.{HasOpposite, TermsTurn, ExprTurns};

use crate::maker::Maker;
use qf_base::{List, NoMemory};
use qf_circuit::Def;
use qf_ir::{Expr, Term};

fn terms_in(expr: &Expr) -> &[Term]
    ensures { result.now ≡ terms_in expr.now }
{
    match expr {
        Expr::Sum(terms) => terms.as_slice(),
        Expr::Word(_) => &[],
    }
}

fn code_in(expr: &Expr) -> u32
    ensures { pos result ≡ constant_in expr.now }
{
    match expr {
        Expr::Sum(_) => 0,
        Expr::Word(code) => *code,
    }
}

fn constant_of(left: &Expr, right: &Expr, more: i64) -> i64
    requires { unsigned_abs more ≤ 1 }
    ensures { result ≡ (constant_in left.now -ℤ constant_in right.now) +ℤ more }
{
    i64::from(code_in(left)) - i64::from(code_in(right)) + more
}

// A term's factor with a number.
fn addend(term: Term, number: u32) -> (i64, u32)
    ensures { result ≡ (term.factor, number) }
{
    (term.factor, number)
}

// The opposite of a term's factor with a number.
fn opposite(term: Term, number: u32) -> (i64, u32)
    requires { HasOpposite term }
    ensures { result ≡ ((opposite term).factor, number) }
{
    (-term.factor, number)
}

impl Maker {
    fn add_terms(
        &mut self,
        columns: &[u32],
        terms: &[Term],
        sum: &mut List<(i64, u32)>,
    ) -> Result<(), NoMemory>
        requires few { length (with_terms self.old terms.now) < 2 ^ 32 }
        ensures made { OnOk result (self.new ≡ with_terms self.old terms.now) }
        ensures sum { OnOk result (sum.new ≡ sum.old ++ map (addend self.new columns.now) terms.now) }
    {
        for term in terms {
            let number = self.atom(columns, term.atom)?;
            sum.push(addend(*term, number))?;
        }
        Ok(())
    }

    fn subtract_terms(
        &mut self,
        columns: &[u32],
        terms: &[Term],
        sum: &mut List<(i64, u32)>,
    ) -> Result<(), NoMemory>
        requires turn { TermsTurn terms.now }
        requires few { length (with_terms self.old (map opposite terms.now)) < 2 ^ 32 }
        ensures made { OnOk result (self.new ≡ with_terms self.old (map opposite terms.now)) }
        ensures sum { OnOk result (sum.new ≡ sum.old ++ map (addend self.new columns.now) (map opposite terms.now)) }
    {
        for term in terms {
            let number = self.atom(columns, term.atom)?;
            sum.push(opposite(*term, number))?;
        }
        Ok(())
    }

    fn sum(&mut self, columns: &[u32], terms: &[Term]) -> Result<u32, NoMemory>
        requires few { length (made_sum columns.now self.old terms.now (pos 0)).0 < 2 ^ 32 }
        ensures made { OnOk result (self.new ≡ (made_sum columns.now self.old terms.now (pos 0)).0) }
        ensures number { IfOk result (λ number. number ≡ (made_sum columns.now self.old terms.now (pos 0)).1) }
    {
        let mut sum = List::new(self.alloc());
        self.add_terms(columns, terms, &mut sum)?;
        self.push(Def::Linear(sum, 0))
    }

    // The definition of what a column is set to.
    pub fn value(&mut self, columns: &[u32], expr: &Expr) -> Result<u32, NoMemory>
        requires few { length (made_value columns.now self.old expr.now).0 < 2 ^ 32 }
        ensures made { OnOk result (self.new ≡ (made_value columns.now self.old expr.now).0) }
        ensures number { IfOk result (λ number. number ≡ (made_value columns.now self.old expr.now).1) }
    {
        match expr {
            Expr::Sum(terms) => self.sum(columns, terms.as_slice()),
            Expr::Word(code) => self.push(Def::Const(i64::from(*code))),
        }
    }

    // The definition of left - right + more.
    pub fn difference(
        &mut self,
        columns: &[u32],
        left: &Expr,
        right: &Expr,
        more: i64,
    ) -> Result<u32, NoMemory>
        requires turns { ExprTurns right.now }
        requires more { unsigned_abs more ≤ 1 }
        requires few { length (made_difference columns.now self.old left.now right.now more).0 < 2 ^ 32 }
        ensures made { OnOk result (self.new ≡ (made_difference columns.now self.old left.now right.now more).0) }
        ensures number { IfOk result (λ number. number ≡ (made_difference columns.now self.old left.now right.now more).1) }
    {
        let mut sum = List::new(self.alloc());
        self.add_terms(columns, terms_in(left), &mut sum)?;
        self.subtract_terms(columns, terms_in(right), &mut sum)?;
        self.push(Def::Linear(sum, constant_of(left, right, more)))
    }
}
