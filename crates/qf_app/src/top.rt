ghost use Rattle.qf_app.specs.Complete.{RunIsComplete};
ghost use Rattle.qf_app.specs.Promise.{RunPromise};

use crate::command::command_of;
use crate::work::work;
use qf_base::{Desk, List, Status, Text};
use std::alloc::Global;

/// Does what the words ask for, the words after the program's name.
///
/// `diagnose INITIAL LOG COMPLAINTS DOMAINS BUDGET CERT` says the log with the constants of the least repair (`Done`), or
/// `none` where no constants of the domains repair (`Nothing`). `check INITIAL LOG COMPLAINTS DOMAINS CERT` says that the
/// certificate is accepted, and what it shows (`Done`): that a repair of this cost is the least, that there is none, or that
/// none costs less than this; or at which line it is rejected (`Rejected`). `replay INITIAL LOG` says the final table as CSV,
/// and `params INITIAL LOG` the parameters of the log. Each says why the files are refused where they are (`Refused`).
pub fn run<D: Desk>(alloc: Global, words: &List<Text>, desk: &mut D) -> Status
    ensures promise { RunPromise words.now (D.state desk.old) (D.state desk.new) result }
    ensures complete { RunIsComplete words.now (D.state desk.old) (D.state desk.new) result }
{
    match command_of(words) {
        None => Status::Usage,
        Some(command) => work(alloc, &command, desk),
    }
}
