// The columns and parameters that expressions and conditions name.

ghost use Rattle.std.specs.Prelude.{◌≡◌, ◌++◌, map, OnOk};
ghost use Rattle.std.specs.List.{flat_map};
ghost use Rattle.qf_ir.specs.declared.ast.Term.{Term as Addend};
ghost use Rattle.qf_impact.specs.Atoms.{expr_atoms, cond_atoms, where_atoms};

use qf_base::NoMemory;
use qf_ir::{Atom, Cond, Expr, Term};

fn gather_terms(terms: &[Term], atoms: &mut Vec<Atom>) -> Result<(), NoMemory>
    ensures { OnOk result (atoms.new.items ≡ atoms.old.items ++ map (λ (t : Addend). t.atom) terms.now) }
{
    for term in terms {
        atoms.push(term.atom)?;
    }
    Ok(())
}

// Adds the atoms of an expression.
pub fn gather_expr(expr: &Expr, atoms: &mut Vec<Atom>) -> Result<(), NoMemory>
    ensures { OnOk result (atoms.new.items ≡ atoms.old.items ++ expr_atoms expr.now) }
{
    match expr {
        Expr::Sum(terms) => gather_terms(terms.as_slice(), atoms),
        Expr::Word(_) => Ok(()),
    }
}

fn gather_exprs(exprs: &[Expr], atoms: &mut Vec<Atom>) -> Result<(), NoMemory>
    ensures { OnOk result (atoms.new.items ≡ atoms.old.items ++ flat_map expr_atoms exprs.now) }
{
    for expr in exprs {
        gather_expr(expr, atoms)?;
    }
    Ok(())
}

fn gather_pair(left: &Expr, right: &Expr, atoms: &mut Vec<Atom>) -> Result<(), NoMemory>
    ensures { OnOk result (atoms.new.items ≡ atoms.old.items ++ (expr_atoms left.now ++ expr_atoms right.now)) }
{
    gather_expr(left, atoms)?;
    gather_expr(right, atoms)
}

#[cycle(gather_cond)]
fn gather_cond(cond: &Cond, atoms: &mut Vec<Atom>) -> Result<(), NoMemory>
    ensures { OnOk result (atoms.new.items ≡ atoms.old.items ++ cond_atoms cond.now) }
{
    match cond {
        Cond::Compare(_, left, right) => gather_pair(left, right, atoms),
        Cond::Between(x, lo, hi) => {
            gather_expr(x, atoms)?;
            gather_pair(lo, hi, atoms)
        }
        Cond::Within(x, items) => {
            gather_expr(x, atoms)?;
            gather_exprs(items.as_slice(), atoms)
        }
        Cond::All(parts) => gather_parts(parts.as_slice(), atoms),
        Cond::Any(parts) => gather_parts(parts.as_slice(), atoms),
        Cond::Not(part) => gather_cond(part.get(), atoms),
    }
}

#[cycle(gather_cond)]
fn gather_parts(parts: &[Cond], atoms: &mut Vec<Atom>) -> Result<(), NoMemory>
    ensures { OnOk result (atoms.new.items ≡ atoms.old.items ++ flat_map cond_atoms parts.now) }
{
    for part in parts {
        gather_cond(part, atoms)?;
    }
    Ok(())
}

// Adds the atoms of WHERE.
pub fn gather_filter(filter: &Option<Cond>, atoms: &mut Vec<Atom>) -> Result<(), NoMemory>
    ensures { OnOk result (atoms.new.items ≡ atoms.old.items ++ where_atoms filter.now) }
{
    match filter {
        None => Ok(()),
        Some(cond) => gather_cond(cond, atoms),
    }
}
