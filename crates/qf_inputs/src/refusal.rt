ghost use Rattle.std.specs.Prelude.{◌≡◌, IfOk, Some};
ghost use Rattle.qf_inputs.specs.Refusals.{told};

use qf_base::{NoMemory, Refusal};

/// The refusal of a fault, which want of memory alone has not.
pub(crate) fn refused(refusal: Option<Refusal>) -> Result<Refusal, NoMemory>
    ensures told { IfOk result (λ r. r ≡ told refusal) }
    ensures there { IfOk result (λ r. refusal ≡ Some r) }
{
    refusal.ok_or(NoMemory)
}
