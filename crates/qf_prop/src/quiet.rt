// Whether an inequality gives no bound that is better than the present ones: seen in one pass over its terms, where taking
// its bounds takes a pass for each of them.

ghost use Rattle.std.specs.Prelude.{◌≡◌, ◌<◌, ◌≤◌, ◌^◌, ◌-ℤ◌, false, length, IsTrue, unsigned_abs};
ghost use Rattle.qf_lin.specs.Inequalities.{IsSmall, IsProper, NamesVars, greatest, greatest_term, largest_size, is_empty, row_swept};
ghost use Rattle.qf_prop.specs.Sweeps.{least_term};

use qf_base::Intervals;
use qf_lin::Inequality;

// The least and the greatest value of a term.
fn ends(term: &(i64, u32), bounds: &Intervals) -> (i64, i64)
    requires var_exists { (0 < term.now.1) × (term.now.1 ≤ length bounds.now) }
    requires small { largest_size bounds.now term.now ≤ 2 ^ 58 }
    ensures least { result.0 ≡ least_term bounds.now term.now }
    ensures greatest { result.1 ≡ greatest_term bounds.now term.now }
    ensures least_size { unsigned_abs result.0 ≤ 2 ^ 58 }
    ensures greatest_small { unsigned_abs result.1 ≤ 2 ^ 58 }
    ensures greatest_size { unsigned_abs result.1 ≤ largest_size bounds.now term.now }
{
    let factor = term.0;
    let (low, high) = bounds.get(term.1 - 1);
    if factor < 0 {
        (factor * high, factor * low)
    } else {
        (factor * low, factor * high)
    }
}

// By how much the greatest value of the row's sum is above what the row asks for.
fn slack(row: &Inequality, bounds: &Intervals) -> i64
    requires small { IsSmall row.now bounds.now }
    requires named { NamesVars row.now.terms (length bounds.now) }
    ensures value { result ≡ greatest row.now.terms bounds.now -ℤ row.now.least }
    ensures size { unsigned_abs result ≤ 2 ^ 59 }
{
    let mut sum: i64 = 0;
    let terms = row.terms.as_slice();
    for term in terms {
        let (_, greatest) = ends(term, bounds);
        sum += greatest;
    }
    sum - row.least
}

/// Whether the row gives no better bound for any of its variables: even where one variable has the value that helps least,
/// the others can give what the row asks for.
pub fn is_quiet(row: &Inequality, bounds: &Intervals) -> bool
    requires small { IsSmall row.now bounds.now }
    requires named { NamesVars row.now.terms (length bounds.now) }
    requires proper { IsProper row.now.terms }
    requires nonempty { is_empty bounds.now ≡ false }
    ensures { IsTrue result → row_swept bounds.now row.now ≡ bounds.now }
{
    let slack = slack(row, bounds);
    let terms = row.terms.as_slice();
    for term in terms {
        let (least, greatest) = ends(term, bounds);
        if greatest - least > slack {
            return false;
        }
    }
    true
}
