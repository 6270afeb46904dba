ghost use Rattle.std.specs.Prelude.{◌≡◌, ℕ, [], ◌∷◌, ◌++◌, ◌<◌, ◌≤◌, ◌^◌, length, map, unsigned_abs, pos, ◌-ℤ◌, IfOk, OnOk, All};
ghost use Rattle.std.specs.Int.{int_min};
ghost use Rattle.qf_base.specs.Values.{interval_of_var};
ghost use Rattle.qf_circuit.specs.Circuits.{def_size};
ghost use Rattle.qf_rows.specs.Encoding.{inequality, negated, linear_rows, at_least_zero_rows, all_rows, any_rows, not_rows, chosen_rows, other_rows, choose_rows, rows_of_def, below_rows, above_rows};
ghost use Rattle.qf_rows.specs.Limits.{EndsFit, FactorsFit, SumFits};
ghost use Rattle.qf_rows.specs.Sums.{TermsFit};

use crate::sums::merged;
use indexmap::IndexMap;
use qf_base::{Intervals, List, NoMemory};
use qf_circuit::Def;
use qf_lin::Inequality;
use std::alloc::Global;

// Each term with the opposite factor.
fn opposites(alloc: Global, terms: &[(i64, u32)]) -> Result<List<(i64, u32)>, NoMemory>
    requires { All (λ t. unsigned_abs t.0 ≤ 2 ^ 58) terms.now }
    ensures { IfOk result (λ opposite. opposite ≡ map negated terms.now) }
{
    let mut opposite = List::new(alloc);
    for term in terms {
        opposite.push((-term.0, term.1))?;
    }
    Ok(opposite)
}

// Adds each variable with the factor.
fn push_vars(terms: &mut List<(i64, u32)>, factor: i64, vars: &[u32]) -> Result<(), NoMemory>
    ensures { OnOk result (terms.new ≡ terms.old ++ map (λ x. (factor, x)) vars.now) }
{
    for var in vars {
        terms.push((factor, *var))?;
    }
    Ok(())
}

// The least of 0 and the difference.
fn below_zero(left: i64, right: i64) -> i64
    requires left { unsigned_abs left ≤ 2 ^ 58 }
    requires right { unsigned_abs right ≤ 2 ^ 58 }
    ensures value { result ≡ int_min (pos 0) (left -ℤ right) }
    ensures size { unsigned_abs result ≤ 2 ^ 59 }
{
    (left - right).min(0)
}

// The interval of number `var`, and the one of 0 alone where there is none.
fn interval_of_var(hull: &Intervals, var: u32) -> (i64, i64)
    requires { All EndsFit hull.now }
    ensures value { result ≡ interval_of_var hull.now var }
    ensures fits { EndsFit result }
{
    match hull.as_slice().get(var.saturating_sub(1) as usize) {
        Some(interval) => *interval,
        None => (0, 0),
    }
}

// The inequalities made so far, and a map for the sum at work, which is lent to each in turn.
#[derive(Drop)]
pub(crate) struct Rows {
    alloc: Global,
    pub(crate) rows: List<Inequality>,
    sums: IndexMap<u32, i128>,
}

impl Rows {
    pub(crate) fn new(alloc: Global) -> Rows
        ensures { result.rows ≡ [] }
    {
        Rows {
            alloc,
            rows: List::new(alloc),
            sums: IndexMap::new(alloc),
        }
    }

    pub(crate) fn into_list(self) -> List<Inequality>
        ensures { result ≡ self.rows }
    {
        let Rows {
            alloc: _,
            rows,
            sums: _,
        } = self;
        rows
    }

    // The sum of the terms is at least `least`.
    fn push(&mut self, terms: &[(i64, u32)], least: i64) -> Result<(), NoMemory>
        requires fits { TermsFit terms.now }
        ensures { OnOk result (self.new.rows ≡ self.old.rows ++ inequality terms.now least ∷ []) }
    {
        let terms = merged(self.alloc, &mut self.sums, terms)?;
        self.rows.push(Inequality { terms, least })
    }

    fn push_linear(&mut self, terms: &[(i64, u32)], constant: i64, var: u32) -> Result<(), NoMemory>
        requires fits { FactorsFit terms.now constant }
        ensures { OnOk result (self.new.rows ≡ self.old.rows ++ linear_rows terms.now constant var) }
    {
        let mut first = List::from_slice(self.alloc, terms)?;
        first.push((-1, var))?;
        let mut second = opposites(self.alloc, terms)?;
        second.push((1, var))?;
        self.push(first.as_slice(), -constant)?;
        self.push(second.as_slice(), constant)
    }

    fn push_at_least_zero(
        &mut self,
        interval: (i64, i64),
        part: u32,
        var: u32,
    ) -> Result<(), NoMemory>
        requires fits { EndsFit interval }
        ensures { OnOk result (self.new.rows ≡ self.old.rows ++ at_least_zero_rows interval part var) }
    {
        let (low, high) = interval;
        self.push(&[(1, part), (low, var)], low)?;
        self.push(&[(-1, part), (high + 1, var)], 1)
    }

    // That the variable is at most each part.
    fn push_below(&mut self, parts: &[u32], var: u32) -> Result<(), NoMemory>
        ensures { OnOk result (self.new.rows ≡ self.old.rows ++ below_rows parts.now var) }
    {
        for part in parts {
            self.push(&[(1, *part), (-1, var)], 0)?;
        }
        Ok(())
    }

    // That the variable is at least each part.
    fn push_above(&mut self, parts: &[u32], var: u32) -> Result<(), NoMemory>
        ensures { OnOk result (self.new.rows ≡ self.old.rows ++ above_rows parts.now var) }
    {
        for part in parts {
            self.push(&[(1, var), (-1, *part)], 0)?;
        }
        Ok(())
    }

    fn push_all(&mut self, parts: &[u32], var: u32) -> Result<(), NoMemory>
        requires few { length parts.now < 2 ^ 29 }
        ensures { OnOk result (self.new.rows ≡ self.old.rows ++ all_rows parts.now var) }
    {
        self.push_below(parts, var)?;
        let mut terms = List::new(self.alloc);
        terms.push((1, var))?;
        push_vars(&mut terms, -1, parts)?;
        self.push(terms.as_slice(), 1 - parts.len() as i64)
    }

    fn push_any(&mut self, parts: &[u32], var: u32) -> Result<(), NoMemory>
        requires few { length parts.now < 2 ^ 29 }
        ensures { OnOk result (self.new.rows ≡ self.old.rows ++ any_rows parts.now var) }
    {
        self.push_above(parts, var)?;
        let mut terms = List::new(self.alloc);
        push_vars(&mut terms, 1, parts)?;
        terms.push((-1, var))?;
        self.push(terms.as_slice(), 0)
    }

    fn push_not(&mut self, part: u32, var: u32) -> Result<(), NoMemory>
        ensures { OnOk result (self.new.rows ≡ self.old.rows ++ not_rows part var) }
    {
        self.push(&[(1, var), (1, part)], 1)?;
        self.push(&[(-1, var), (-1, part)], -1)
    }

    // That the variable is the part where the test is true.
    fn push_chosen(
        &mut self,
        value: (i64, i64),
        chosen: (i64, i64),
        test: u32,
        part: u32,
        var: u32,
    ) -> Result<(), NoMemory>
        requires value { EndsFit value }
        requires chosen { EndsFit chosen }
        ensures { OnOk result (self.new.rows ≡ self.old.rows ++ chosen_rows value chosen test part var) }
    {
        let under = below_zero(value.0, chosen.1);
        let over = below_zero(chosen.0, value.1);
        self.push(&[(1, var), (-1, part), (under, test)], under)?;
        self.push(&[(1, part), (-1, var), (over, test)], over)
    }

    // That the variable is the part where the test is false.
    fn push_other(
        &mut self,
        value: (i64, i64),
        other: (i64, i64),
        test: u32,
        part: u32,
        var: u32,
    ) -> Result<(), NoMemory>
        requires value { EndsFit value }
        requires other { EndsFit other }
        ensures { OnOk result (self.new.rows ≡ self.old.rows ++ other_rows value other test part var) }
    {
        let under = below_zero(value.0, other.1);
        let over = below_zero(other.0, value.1);
        self.push(&[(1, var), (-1, part), (-under, test)], 0)?;
        self.push(&[(1, part), (-1, var), (-over, test)], 0)
    }

    fn push_choose(
        &mut self,
        hull: &Intervals,
        test: u32,
        left: u32,
        right: u32,
        var: u32,
    ) -> Result<(), NoMemory>
        requires ends { All EndsFit hull.now }
        ensures { OnOk result (self.new.rows ≡ self.old.rows ++ choose_rows (interval_of_var hull.now var) (interval_of_var hull.now left) (interval_of_var hull.now right) test left right var) }
    {
        let value = interval_of_var(hull, var);
        self.push_chosen(value, interval_of_var(hull, left), test, left, var)?;
        self.push_other(value, interval_of_var(hull, right), test, right, var)
    }

    // The inequalities of the definition with number `var`.
    pub(crate) fn push_def(&mut self, hull: &Intervals, var: u32, def: &Def) -> Result<(), NoMemory>
        requires ends { All EndsFit hull.now }
        requires sums { SumFits def.now }
        requires few { def_size def.now < 2 ^ 29 }
        ensures { OnOk result (self.new.rows ≡ self.old.rows ++ rows_of_def hull.now var def.now) }
    {
        match def {
            Def::Param(_) => Ok(()),
            Def::Const(_) => Ok(()),
            Def::Linear(terms, constant) => self.push_linear(terms.as_slice(), *constant, var),
            Def::AtLeastZero(part) => self.push_at_least_zero(
                interval_of_var(hull, *part),
                *part,
                var,
            ),
            Def::All(parts) => self.push_all(parts.as_slice(), var),
            Def::Any(parts) => self.push_any(parts.as_slice(), var),
            Def::Not(part) => self.push_not(*part, var),
            Def::Choose(test, left, right) => self.push_choose(hull, *test, *left, *right, var),
        }
    }
}
