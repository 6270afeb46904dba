// What a search stands on, and what it keeps beside the board.

ghost use Rattle.std.specs.Prelude.{◌≡◌, IfOk};
ghost use Rattle.qf_search.specs.Grounding.{AreGrounds, IsReady};

use qf_base::{List, NoMemory, PBox, Point};
use qf_goal::Problem;
use qf_guide::Guide;
use qf_instance::Made;
use qf_moves::Finds;
use qf_replay::{Births, Room};
use qf_slice::{needed_list, root_box};
use std::alloc::Global;

/// The problem, its root box, marks of the needed parameters, of which that of parameter k, from 1, stands at place k - 1,
/// and where the rows that the log inserts are born.
#[derive(Drop)]
pub struct Grounds<'a> {
    pub alloc: Global,
    pub problem: &'a Problem,
    pub root: PBox,
    pub marks: List<bool>,
    pub births: Births,
}

/// The systems of the rows that came up so far, room for a row that is replayed, the guide, and points at which complained
/// rows met their goals.
#[derive(Drop)]
pub struct Tools {
    pub made: Made,
    pub replay: Room,
    pub guide: Guide,
    pub finds: Finds,
}

/// The tools, and room for a point.
#[derive(Drop)]
pub struct Store {
    pub tools: Tools,
    pub point: Point,
}

/// The grounds of a search.
pub fn make_grounds(alloc: Global, problem: &Problem) -> Result<Grounds<'_>, NoMemory>
    ensures grounds { IfOk result AreGrounds }
    ensures problem { IfOk result (λ g. g.problem.now ≡ problem.now) }
{
    let program = problem.program();
    let root = root_box(alloc, problem)?;
    let marks = needed_list(alloc, program, problem.seeds())?;
    let births = Births::new(alloc, program)?;
    Ok(Grounds {
        alloc,
        problem,
        root,
        marks,
        births,
    })
}

impl Grounds<'_> {
    /// No systems yet.
    pub fn store(&self) -> Result<Store, NoMemory>
        requires { AreGrounds self.now }
        ensures { IfOk result (IsReady self.now) }
    {
        let program = self.problem.program();
        let replay = Room::new(self.alloc, program)?;
        let point = Point::new(self.alloc, program.olds())?;
        let finds = Finds::new(self.alloc, self.problem.complained_rows().len())?;
        let guide = Guide::new(self.alloc, self.problem, &self.root)?;
        Ok(Store {
            tools: Tools {
                made: Made::new(self.alloc),
                replay,
                guide,
                finds,
            },
            point,
        })
    }
}
