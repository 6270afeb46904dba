// What a statement makes of the widths.

ghost use Rattle.std.specs.Prelude.{◌≡◌, IsTrue, IfOk, length, slice_set};
ghost use Rattle.std.specs.List.{list_all};
ghost use Rattle.qf_ir.specs.Width as spec;
ghost use Rattle.qf_ir.specs.Width.{is_narrow};
ghost use Rattle.qf_width.specs.Sets.{set_intervals, put_in};

use crate::conditions::is_cond_narrow;
use crate::intervals::{Interval, are_narrow, joined};
use crate::items::{are_items_narrow, join_items};
use crate::sums::{expr_interval, interval_at};
use qf_base::{Intervals, List, NoMemory};
use qf_ir::{Cond, Expr, Statement};

fn is_filter_narrow(filter: &Option<Cond>, widths: &[Interval], domains: &[Interval]) -> bool
    ensures { result ≡ list_all is_narrow (spec.where_steps filter.now widths.now domains.now) }
{
    match filter {
        None => true,
        Some(cond) => is_cond_narrow(cond, widths, domains),
    }
}

fn stored(filter: &Option<Cond>, old: Interval, new: Interval) -> Interval
    ensures { result ≡ spec.stored filter.now old new }
{
    match filter {
        None => new,
        Some(_) => joined(old, new),
    }
}

fn set_width(widths: &mut Intervals, column: u32, interval: Interval)
    ensures { widths.new ≡ slice_set widths.old column interval }
{
    if column < widths.len() {
        widths.set(column, interval.0, interval.1);
    }
}

// Works out what each set column can become, from the widths before, and says whether all numbers stay within the limit.
fn work_out(
    sets: &[(u32, Expr)],
    filter: &Option<Cond>,
    before: &[Interval],
    domains: &[Interval],
    fresh: &mut Vec<Interval>,
) -> Result<bool, NoMemory>
    ensures narrow { IfOk result (λ narrow. narrow ≡ list_all is_narrow (spec.sets_steps sets.now before.now domains.now)) }
    ensures fresh { IfOk result (λ narrow. IsTrue narrow → fresh.new.items ≡ set_intervals sets.now filter.now before.now domains.now) }
{
    fresh.clear();
    for set in sets {
        let Some(new) = expr_interval(&set.1, before, domains) else {
            return Ok(false);
        };
        let old = interval_at(before, set.0 as usize);
        fresh.push(stored(filter, old, new))?;
    }
    Ok(true)
}

// Puts the intervals, one for each set, in their columns.
fn put(sets: &[(u32, Expr)], fresh: &[Interval], widths: &mut Intervals)
    requires { length fresh.now ≡ length sets.now }
    ensures widths { widths.new ≡ put_in sets.now fresh.now widths.old }
    ensures len { length widths.new ≡ length widths.old }
{
    for (i, set) in sets.iter().enumerate() {
        set_width(widths, set.0, fresh[i]);
    }
}

// Takes the widths over an UPDATE.
fn update(
    sets: &[(u32, Expr)],
    filter: &Option<Cond>,
    domains: &[Interval],
    widths: &mut Intervals,
    fresh: &mut Vec<Interval>,
) -> Result<bool, NoMemory>
    ensures narrow { IfOk result (λ narrow. narrow ≡ list_all is_narrow (spec.steps_of (Statement.Update sets.now filter.now) domains.now widths.old)) }
    ensures widths { IfOk result (λ narrow. IsTrue narrow → widths.new ≡ spec.widths_after (Statement.Update sets.now filter.now) domains.now widths.old) }
    ensures len { length widths.new ≡ length widths.old }
{
    if !is_filter_narrow(filter, widths.as_slice(), domains) {
        return Ok(false);
    }
    if !work_out(sets, filter, widths.as_slice(), domains, fresh)? {
        return Ok(false);
    }
    put(sets, fresh.as_slice(), widths);
    Ok(are_narrow(widths.as_slice()))
}

// Takes the widths over an INSERT.
fn insert(
    columns: &[u32],
    tuples: &[List<Expr>],
    domains: &[Interval],
    widths: &mut Intervals,
) -> bool
    ensures narrow { result ≡ list_all is_narrow (spec.steps_of (Statement.Insert columns.now tuples.now) domains.now widths.old) }
    ensures widths { IsTrue result → widths.new ≡ spec.widths_after (Statement.Insert columns.now tuples.now) domains.now widths.old }
    ensures len { length widths.new ≡ length widths.old }
{
    for tuple in tuples {
        if !are_items_narrow(tuple.as_slice(), domains) {
            return false;
        }
        join_items(columns, tuple.as_slice(), widths, domains);
    }
    are_narrow(widths.as_slice())
}

// Takes the widths over a statement, and says whether all numbers in it stay within the limit. `fresh` is room that is
// used again.
pub fn advance(
    statement: &Statement,
    domains: &[Interval],
    widths: &mut Intervals,
    fresh: &mut Vec<Interval>,
) -> Result<bool, NoMemory>
    ensures narrow { IfOk result (λ narrow. narrow ≡ list_all is_narrow (spec.steps_of statement.now domains.now widths.old)) }
    ensures widths { IfOk result (λ narrow. IsTrue narrow → widths.new ≡ spec.widths_after statement.now domains.now widths.old) }
    ensures len { length widths.new ≡ length widths.old }
{
    match statement {
        Statement::Update { sets, filter } => {
            update(sets.as_slice(), filter, domains, widths, fresh)
        }
        Statement::Delete { filter } => Ok(is_filter_narrow(filter, widths.as_slice(), domains)),
        Statement::Insert { columns, tuples } => {
            Ok(insert(columns.as_slice(), tuples.as_slice(), domains, widths))
        }
    }
}
