ghost use Rattle.std.specs.Prelude.{◌≡◌, ◌≢◌, ◌^◌, pos, ◌*ℤ◌, ◌<◌, ◌≤◌, ◌<ℤ◌, ◌↔◌, length, List as Items, ℤ, IfSome, IsTrue, unsigned_abs};
ghost use Rattle.qf_base.specs.Values.{IsWithin};
ghost use Rattle.qf_lin.specs.Inequalities.{Holds, with_bound, IsSmall, IsProper, NamesVars, better_bound, bound_by, tight_bound, rounded_down, greatest, greatest_term, largest_size, greatest_of_others, factor_of};

use crate::Inequality;
use qf_base::{Bound, Intervals};

// The greatest value of a term.
fn greatest_term(term: &(i64, u32), bounds: &Intervals) -> i64
    requires var_exists { (0 < term.now.1) × (term.now.1 ≤ length bounds.now) }
    requires small { largest_size bounds.now term.now ≤ 2 ^ 58 }
    ensures { result ≡ greatest_term bounds.now term.now }
{
    let factor = term.0;
    let (low, high) = bounds.get(term.1 - 1);
    if factor < 0 {
        factor * low
    } else {
        factor * high
    }
}

// The greatest value of the terms of variables other than `var`.
fn greatest_besides(row: &Inequality, bounds: &Intervals, var: u32) -> i64
    requires small { IsSmall row.now bounds.now }
    requires named { NamesVars row.now.terms (length bounds.now) }
    ensures value { result ≡ greatest_of_others row.now.terms bounds.now var }
    ensures size { unsigned_abs result ≤ 2 ^ 58 }
{
    let mut rest: i64 = 0;
    let terms = row.terms.as_slice();
    for term in terms {
        if term.1 != var {
            rest += greatest_term(term, bounds);
        }
    }
    rest
}

/// The factor of `var`, 0 where it is not in the row. Takes no memory.
pub fn factor_in(row: &Inequality, var: u32) -> i64
    requires proper { IsProper row.now.terms }
    ensures { result ≡ factor_of row.now.terms var }
{
    let terms = row.terms.as_slice();
    for term in terms {
        if term.1 == var {
            return term.0;
        }
    }
    0
}

// A quotient by a positive number, rounded down.
fn rounded_down(number: i64, by: i128) -> i64
    requires positive { pos 0 <ℤ by }
    requires small { unsigned_abs number ≤ 2 ^ 59 }
    ensures value { result ≡ rounded_down number by }
    ensures size { unsigned_abs result ≤ 2 ^ 59 }
{
    i128::from(number).div_euclid(by) as i64
}

// What `factor * x + rest >= least` says of x. The factor alone may be as small as `i64::MIN`, hence the wide type.
fn bound_by(factor: i64, rest: i64, least: i64) -> Bound
    requires rest_small { unsigned_abs rest ≤ 2 ^ 58 }
    requires least_small { unsigned_abs least ≤ 2 ^ 58 }
    requires nonzero { factor ≢ pos 0 }
    ensures { result ≡ bound_by factor rest least }
{
    if factor < 0 {
        Bound::High(rounded_down(rest - least, -i128::from(factor)))
    } else {
        Bound::Low(-rounded_down(rest - least, i128::from(factor)))
    }
}

/// The bound that the row gives for `var` under the bounds of its other variables, be it better than the present one or
/// not: a lower bound, rounded up, where the factor of `var` is above 0, and else an upper bound, rounded down. `bounds` has
/// the interval of variable `v`, from 1, at place `v - 1`. Takes no memory.
pub fn tight_bound(row: &Inequality, bounds: &Intervals, var: u32) -> Bound
    requires small { IsSmall row.now bounds.now }
    requires named { NamesVars row.now.terms (length bounds.now) }
    requires proper { IsProper row.now.terms }
    requires in_row { factor_of row.now.terms var ≢ pos 0 }
    ensures { result ≡ tight_bound row.now bounds.now var }
{
    bound_by(
        factor_in(row, var),
        greatest_besides(row, bounds, var),
        row.least,
    )
}

// The bound that the row gives for `var`, where it is better than the present one.
fn better_bound(row: &Inequality, bounds: &Intervals, var: u32) -> Option<Bound>
    requires small { IsSmall row.now bounds.now }
    requires named { NamesVars row.now.terms (length bounds.now) }
    requires proper { IsProper row.now.terms }
    requires in_row { factor_of row.now.terms var ≢ pos 0 }
    requires var_exists { (0 < var) × (var ≤ length bounds.now) }
    ensures { result ≡ better_bound row.now bounds.now var }
{
    let bound = tight_bound(row, bounds, var);
    let (low, high) = bounds.get(var - 1);
    let better = match bound {
        Bound::Low(least) => low < least,
        Bound::High(most) => most < high,
    };
    if better { Some(bound) } else { None }
}

/// The bound that the row gives for `var` under the bounds of its other variables, where it is better than the present one;
/// `None` where it is no better. No values within the bounds that satisfy the row are lost by taking it. `bounds` has the
/// interval of variable `v`, from 1, at place `v - 1`. Takes no memory.
pub fn tighten(row: &Inequality, bounds: &Intervals, var: u32) -> Option<Bound>
    requires small { IsSmall row.now bounds.now }
    requires named { NamesVars row.now.terms (length bounds.now) }
    requires proper { IsProper row.now.terms }
    requires in_row { factor_of row.now.terms var ≢ pos 0 }
    requires var_exists { (0 < var) × (var ≤ length bounds.now) }
    ensures value { result ≡ better_bound row.now bounds.now var }
    ensures keeps { (values : Items ℤ) → Holds row.now values → IsWithin values bounds.now → IfSome result (λ bound. IsWithin values (with_bound bounds.now var bound)) }
{
    better_bound(row, bounds, var)
}

/// Whether the greatest value of the row's sum within the bounds is too small, so that no values within them satisfy it.
/// Takes no memory.
pub fn violated(row: &Inequality, bounds: &Intervals) -> bool
    requires small { IsSmall row.now bounds.now }
    requires named { NamesVars row.now.terms (length bounds.now) }
    ensures { IsTrue result ↔ (greatest row.now.terms bounds.now <ℤ row.now.least) }
{
    let mut sum: i64 = 0;
    let terms = row.terms.as_slice();
    for term in terms {
        sum += greatest_term(term, bounds);
    }
    sum < row.least
}
