ghost use Rattle.std.specs.Prelude.{◌≡◌, ◌<◌, ◌^◌, length, IfOk};
ghost use Rattle.qf_inputs.specs.Known.{AreOf, IsSearchable};
ghost use Rattle.qf_inputs.specs.Opened.{IsOpened, IsQuestion, inputs_in};

use crate::inputs::{Inputs, read_inputs};
use qf_base::{Kind, NoMemory, PBox, Refusal};
use qf_goal::Problem;
use qf_log::Log;
use qf_slice::{open_count, root_box};
use std::alloc::Global;

/// A problem, the log of which its program was made, and the box that has to be searched for a repair.
#[derive(Drop)]
pub struct Opened {
    pub problem: Problem,
    pub log: Log,
    pub root: PBox,
}

const MOST_OPEN: u32 = 64;

// The problem with its root box, unless too many parameters are open in it. Inputs that are refused are let go by one call.
fn with_root(alloc: Global, inputs: Inputs) -> Result<Result<Opened, Refusal>, NoMemory>
    ensures opened { IfOk result (IsOpened inputs) }
    ensures inputs { IfOk result (λ opened. IfOk opened (λ o. inputs_in o ≡ inputs)) }
    ensures searchable { IfOk result (λ opened. IfOk opened IsSearchable) }
{
    let root = match root_box(alloc, &inputs.problem) {
        Ok(root) => root,
        Err(memory) => {
            drop(inputs);
            return Err(memory);
        }
    };
    let count = open_count(&root);
    if count > MOST_OPEN {
        drop(inputs);
        return Ok(Err(Refusal::at(Kind::TooManyFree, u64::from(count))));
    }
    let Inputs { problem, log } = inputs;
    Ok(Ok(Opened { problem, log, root }))
}

/// What a table, its log, complaints and domains ask: their problem and the box that has to be searched, or their first
/// refusal, the last of which is that of more than 64 open parameters.
pub fn read_question(
    alloc: Global,
    initial: &[u8],
    log: &[u8],
    complaints: &[u8],
    domains: &[u8],
) -> Result<Result<Opened, Refusal>, NoMemory>
    requires initial { length initial.now < 2 ^ 30 }
    requires log { length log.now < 2 ^ 30 }
    requires complaints { length complaints.now < 2 ^ 30 }
    requires domains { length domains.now < 2 ^ 30 }
    ensures question { IfOk result (IsQuestion initial.now log.now complaints.now domains.now) }
    ensures read { IfOk result (λ opened. IfOk opened (λ o. AreOf log.now (inputs_in o))) }
    ensures searchable { IfOk result (λ opened. IfOk opened IsSearchable) }
{
    match read_inputs(alloc, initial, log, complaints, domains)? {
        Ok(inputs) => with_root(alloc, inputs),
        Err(refusal) => Ok(Err(refusal)),
    }
}
