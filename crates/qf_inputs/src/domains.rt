ghost use Rattle.std.specs.Prelude.{◌≡◌, ◌<◌, ◌^◌, length, IfOk};
ghost use Rattle.qf_ir.specs.Plan.{Belongs};
ghost use Rattle.qf_inputs.specs.Inputs as spec;
ghost use Rattle.qf_inputs.specs.Inputs.{widths_in};

use crate::refusal::refused;
use qf_base::{List, NoMemory, Refusal};
use qf_forms::read_domains;
use qf_ir::{Program, Table};
use qf_point::Domains;
use qf_width::{ColumnWidths, widths};
use std::alloc::Global;

/// The domains in these bytes of parameters with these old constants.
pub(crate) fn domains_in(
    alloc: Global,
    olds: &List<i64>,
    bytes: &[u8],
) -> Result<Result<Domains, Refusal>, NoMemory>
    requires olds { length olds.now < 2 ^ 32 }
    requires bytes { length bytes.now < 2 ^ 30 }
    ensures { IfOk result (λ domains. domains ≡ spec.domains_in olds.now bytes.now) }
{
    let rows = match read_domains(alloc, bytes, olds.len() as u32) {
        Ok(rows) => rows,
        Err(fault) => return Ok(Err(refused(fault.refusal())?)),
    };
    match Domains::new(alloc, olds, &rows) {
        Ok(domains) => Ok(Ok(domains)),
        Err(fault) => Ok(Err(refused(fault.refusal())?)),
    }
}

/// How large the numbers of a program can become within these domains, or the refusal of the first statement in which they
/// may leave the limit.
pub fn widths_within(
    alloc: Global,
    program: &Program,
    table: &Table,
    domains: &Domains,
) -> Result<Result<ColumnWidths, Refusal>, NoMemory>
    requires { Belongs program.now table.now }
    ensures { IfOk result (λ widths. widths ≡ widths_in program.now table.now domains.now.region) }
{
    match widths(alloc, program, table, domains) {
        Ok(widths) => Ok(Ok(widths)),
        Err(fault) => Ok(Err(refused(fault.refusal())?)),
    }
}
