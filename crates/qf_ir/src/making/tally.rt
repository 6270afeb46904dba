ghost use Rattle.std.specs.Prelude.{◌≡◌, ◌≤◌, length, map, if◌then◌else◌};
ghost use Rattle.std.specs.List.{list_all, flat_map, range_with_len};
ghost use Rattle.qf_ir.specs.Checked as spec;
ghost use Rattle.qf_ir.specs.Parts.{params_in, param_of, tests_of, exprs_in, comparisons_in, where_of};
ghost use Rattle.qf_ir.specs.Tallies.{nothing_yet, with_expr, with_exprs, with_types, with_names, with_comparisons, with_test, with_tests, with_set, with_sets, with_tuple, with_tuples, tally_of};

use crate::ast::{Atom, Cond, Expr, Statement, Term};
use crate::making::types::{set_agrees, test_agrees, tuple_agrees};
use crate::table::ColumnKind;
use qf_base::List;

/// What one walk finds of a statement: whether its names are columns of the table, whether its types agree, whether a
/// sum is too long, and how many parameters and comparisons it has. Counts stop at the greatest number.
#[derive(Clone, Copy)]
pub(crate) struct Tally {
    pub(crate) known: bool,
    pub(crate) agrees: bool,
    pub(crate) long: bool,
    pub(crate) params: u64,
    pub(crate) comparisons: u64,
}

fn is_known(width: usize, atom: Atom) -> bool
    ensures { result ≡ spec.is_known width atom }
{
    match atom {
        Atom::Column(column) => (column as usize) < width,
        Atom::Param(_) => true,
    }
}

fn are_known(width: usize, terms: &[Term]) -> bool
    ensures { result ≡ list_all (λ t. spec.is_known width t.atom) terms.now }
{
    for term in terms {
        if !is_known(width, term.atom) {
            return false;
        }
    }
    true
}

fn is_param(atom: Atom) -> bool
    ensures { length (param_of atom) ≡ (if result then 1 else 0) }
{
    match atom {
        Atom::Column(_) => false,
        Atom::Param(_) => true,
    }
}

fn param_count(terms: &[Term]) -> u64
    ensures { result ≡ length (flat_map (λ t. param_of t.atom) terms.now) }
{
    let mut count = 0;
    for term in terms {
        if is_param(term.atom) {
            count += 1;
        }
    }
    count
}

/// Whether all columns of a list are columns of the table.
fn are_columns(width: usize, columns: &[u32]) -> bool
    ensures { result ≡ list_all (spec.is_column width) columns.now }
{
    for column in columns {
        if *column as usize >= width {
            return false;
        }
    }
    true
}

fn comparisons_in(test: &Cond) -> u64
    ensures { result ≡ comparisons_in test.now }
{
    match test {
        Cond::Compare(_, _, _) => 1,
        Cond::Between(_, _, _) => 2,
        Cond::Within(_, items) => items.len(),
        Cond::All(_) => 0,
        Cond::Any(_) => 0,
        Cond::Not(_) => 0,
    }
}

impl Tally {
    fn new() -> Tally
        ensures { result ≡ nothing_yet }
    {
        Tally {
            known: true,
            agrees: true,
            long: false,
            params: 0,
            comparisons: 0,
        }
    }

    fn add_terms(&mut self, width: usize, terms: &[Term])
        ensures { self.new ≡ with_expr width self.old (Expr.Sum terms.now) }
    {
        self.known = self.known && are_known(width, terms);
        self.long = self.long || terms.len() > 64;
        self.params = self.params.saturating_add(param_count(terms));
    }

    fn add_expr(&mut self, width: usize, expr: &Expr)
        ensures { self.new ≡ with_expr width self.old expr.now }
    {
        match expr {
            Expr::Sum(terms) => self.add_terms(width, terms.as_slice()),
            Expr::Word(_) => self.add_terms(width, &[]),
        }
    }

    fn add_exprs(&mut self, width: usize, exprs: &[Expr])
        ensures { self.new ≡ with_exprs width self.old exprs.now }
    {
        for expr in exprs {
            self.add_expr(width, expr);
        }
    }

    fn add_types(&mut self, agree: bool)
        ensures { self.new ≡ with_types self.old agree }
    {
        self.agrees = self.agrees && agree;
    }

    fn add_names(&mut self, known: bool)
        ensures { self.new ≡ with_names self.old known }
    {
        self.known = self.known && known;
    }

    fn add_comparisons(&mut self, count: u64)
        ensures { self.new ≡ with_comparisons self.old count }
    {
        self.comparisons = self.comparisons.saturating_add(count);
    }

    fn add_test(&mut self, kinds: &[ColumnKind], test: &Cond)
        ensures { self.new ≡ with_test kinds.now self.old test.now }
    {
        self.add_types(test_agrees(kinds, test));
        self.add_comparisons(comparisons_in(test));
        self.add_sides(kinds.len(), test);
    }

    fn add_sides(&mut self, width: usize, test: &Cond)
        ensures { self.new ≡ with_exprs width self.old (exprs_in test.now) }
    {
        match test {
            Cond::Compare(_, left, right) => {
                self.add_expr(width, left);
                self.add_expr(width, right);
            }
            Cond::Between(x, lo, hi) => {
                self.add_expr(width, x);
                self.add_expr(width, lo);
                self.add_expr(width, hi);
            }
            Cond::Within(x, items) => {
                self.add_expr(width, x);
                self.add_exprs(width, items.as_slice());
            }
            Cond::All(_) => {}
            Cond::Any(_) => {}
            Cond::Not(_) => {}
        }
    }

    #[cycle(tally)]
    fn add_cond(&mut self, kinds: &[ColumnKind], cond: &Cond)
        ensures { self.new ≡ with_tests kinds.now self.old (tests_of cond.now) }
    {
        match cond {
            Cond::Compare(_, _, _) => self.add_test(kinds, cond),
            Cond::Between(_, _, _) => self.add_test(kinds, cond),
            Cond::Within(_, _) => self.add_test(kinds, cond),
            Cond::All(parts) => self.add_conds(kinds, parts.as_slice()),
            Cond::Any(parts) => self.add_conds(kinds, parts.as_slice()),
            Cond::Not(part) => self.add_cond(kinds, part.get()),
        }
    }

    #[cycle(tally)]
    fn add_conds(&mut self, kinds: &[ColumnKind], conds: &[Cond])
        ensures { self.new ≡ with_tests kinds.now self.old (flat_map tests_of conds.now) }
    {
        for cond in conds {
            self.add_cond(kinds, cond);
        }
    }

    fn add_filter(&mut self, kinds: &[ColumnKind], filter: &Option<Cond>)
        ensures { self.new ≡ with_tests kinds.now self.old (flat_map tests_of (where_of filter.now)) }
    {
        match filter {
            None => {}
            Some(cond) => self.add_cond(kinds, cond),
        }
    }

    fn add_set(&mut self, kinds: &[ColumnKind], column: u32, expr: &Expr)
        ensures { self.new ≡ with_set kinds.now self.old (column, expr.now) }
    {
        self.add_names((column as usize) < kinds.len());
        self.add_types(set_agrees(kinds, column, expr));
        self.add_expr(kinds.len(), expr);
    }

    fn add_sets(&mut self, kinds: &[ColumnKind], sets: &[(u32, Expr)])
        ensures { self.new ≡ with_sets kinds.now self.old sets.now }
    {
        for set in sets {
            self.add_set(kinds, set.0, &set.1);
        }
    }

    fn add_tuple(&mut self, kinds: &[ColumnKind], columns: &[u32], tuple: &[Expr])
        ensures { self.new ≡ with_tuple kinds.now columns.now self.old tuple.now }
    {
        self.add_types(tuple_agrees(kinds, columns, tuple));
        self.add_exprs(kinds.len(), tuple);
    }

    fn add_tuples(&mut self, kinds: &[ColumnKind], columns: &[u32], tuples: &[List<Expr>])
        ensures { self.new ≡ with_tuples kinds.now columns.now self.old tuples.now }
    {
        for tuple in tuples {
            self.add_tuple(kinds, columns, tuple.as_slice());
        }
    }

    /// The tally of a statement over the table's kinds of columns; `all` has the numbers of all columns in order.
    pub(crate) fn of(kinds: &[ColumnKind], all: &[u32], statement: &Statement) -> Tally
        requires { all.now ≡ range_with_len 0 (length kinds.now) }
        ensures { result ≡ tally_of kinds.now statement.now }
    {
        let mut tally = Tally::new();
        match statement {
            Statement::Update { sets, filter } => {
                tally.add_sets(kinds, sets.as_slice());
                tally.add_filter(kinds, filter);
            }
            Statement::Delete { filter } => tally.add_filter(kinds, filter),
            Statement::Insert { columns, tuples } => {
                let columns = columns.as_slice();
                tally.add_names(are_columns(kinds.len(), columns));
                let columns = listed(kinds.len(), all, columns);
                tally.add_tuples(kinds, columns, tuples.as_slice());
            }
        }
        tally
    }
}

/// The columns of an INSERT: its list, or all in order where it has none.
pub(crate) fn listed<'a>(width: usize, all: &'a [u32], columns: &'a [u32]) -> &'a [u32]
    requires { all.now ≡ range_with_len 0 width }
    ensures { result.now ≡ spec.listed width columns.now }
{
    if columns.is_empty() { all } else { columns }
}
