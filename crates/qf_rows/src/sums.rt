ghost use Rattle.std.specs.Prelude.{◌≡◌, [], ◌^◌, ◌≤◌, ◌+ℤ◌, filter, fold, unsigned_abs, IfOk, OnOk, All};
ghost use Rattle.qf_rows.specs.Encoding.{with_term, merged};
ghost use Rattle.qf_rows.specs.Sums.{terms_of, factor_at, has_factor, TermsFit};

use indexmap::IndexMap;
use qf_base::{List, NoMemory};
use std::alloc::Global;

// The factor of a variable, 0 where it has none yet.
fn factor_at(sums: &IndexMap<u32, i128>, var: u32) -> i128
    ensures { result ≡ factor_at sums.now.entries var }
{
    match sums.get(&var) {
        Some(factor) => *factor,
        None => 0,
    }
}

fn sum(so_far: i128, factor: i64) -> i128
    requires small { unsigned_abs so_far ≤ 2 ^ 126 }
    ensures { result ≡ so_far +ℤ factor }
{
    so_far + i128::from(factor)
}

fn narrowed(factor: i128) -> i64
    requires small { unsigned_abs factor ≤ 2 ^ 60 }
    ensures { result ≡ factor }
{
    factor as i64
}

// Adds a factor to the one of its variable; a variable that is new goes last.
fn add_term(sums: &mut IndexMap<u32, i128>, term: &(i64, u32)) -> Result<(), NoMemory>
    requires small { All (λ u. unsigned_abs u.0 ≤ 2 ^ 126) (terms_of sums.old.entries) }
    ensures { OnOk result (terms_of sums.new.entries ≡ with_term (terms_of sums.old.entries) term.now) }
{
    let factor = sum(factor_at(sums, term.1), term.0);
    sums.insert(term.1, factor)?;
    Ok(())
}

// Adds up the terms, those of equal variables at their first place.
fn add_terms(sums: &mut IndexMap<u32, i128>, terms: &[(i64, u32)]) -> Result<(), NoMemory>
    requires empty { sums.old.entries ≡ [] }
    requires fits { TermsFit terms.now }
    ensures { OnOk result (terms_of sums.new.entries ≡ fold with_term [] terms.now) }
{
    for term in terms {
        add_term(sums, term)?;
    }
    Ok(())
}

// The terms whose factor is not 0.
fn kept_terms(alloc: Global, sums: &IndexMap<u32, i128>) -> Result<List<(i64, u32)>, NoMemory>
    requires fits { All (λ t. unsigned_abs t.0 ≤ 2 ^ 60) (filter has_factor (terms_of sums.now.entries)) }
    ensures { IfOk result (λ terms. terms ≡ filter has_factor (terms_of sums.now.entries)) }
{
    let mut terms = List::new(alloc);
    for (var, factor) in sums {
        if *factor != 0 {
            terms.push((narrowed(*factor), *var))?;
        }
    }
    Ok(terms)
}

// The terms with those of equal variables added up at their first place, without factors 0. The map is lent for the
// work; what it held is dropped.
pub(crate) fn merged(
    alloc: Global,
    sums: &mut IndexMap<u32, i128>,
    terms: &[(i64, u32)],
) -> Result<List<(i64, u32)>, NoMemory>
    requires fits { TermsFit terms.now }
    ensures { IfOk result (λ merged_terms. merged_terms ≡ merged terms.now) }
{
    sums.clear();
    add_terms(sums, terms)?;
    kept_terms(alloc, sums)
}
