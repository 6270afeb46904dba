ghost use Rattle.std.specs.Prelude.{◌≡◌, ◌&&◌, true, IfOk, IsTrue};
ghost use Rattle.qf_base.specs.Values.{is_in};
ghost use Rattle.qf_point.specs.Points as points;
ghost use Rattle.qf_goal.specs.Case.{mends};
ghost use Rattle.qf_goal.specs.SoundCase.{IsSoundCase};
ghost use Rattle.qf_slice.specs.RootBox.{IsRootBox};
ghost use Rattle.qf_tree.specs.Lines.{HasSpelling};
ghost use Rattle.qf_tree.specs.Certificates as spec;
ghost use Rattle.qf_tree.specs.Certificates.{Instance};
ghost use Rattle.qf_encode.specs.Lives.{BoxIn};
ghost use Rattle.qf_instance.specs.Instances.{IsInstance};
ghost use Rattle.qf_check.specs.Grounding.{instance};
ghost use Rattle.qf_check.specs.Walking.{as_list, ends_right, Begins};
ghost use Rattle.qf_check.specs.Judging.{IsAnswered, IsJudged, Holds, HoldsIn, LiesInRootBox, verdict_of};

use crate::boxes::Boxes;
use crate::grounds::Grounds;
use crate::verdict::{CheckFault, Verdict};
use crate::walk::Walk;
use qf_base::{NoMemory, PBox, Point};
use qf_goal::Problem;
use qf_instance::Made;
use qf_point::cost;
use qf_slice::{needed_list, root_box};
use qf_tree::{Answer, Cert};
use std::alloc::Global;

// Whether the point lies in the domains and repairs.
fn is_repair(alloc: Global, problem: &Problem, point: &Point) -> Result<bool, NoMemory>
    ensures { IfOk result (λ right. right ≡ (is_in problem.now.domains.region point.now && mends problem.now point.now)) }
{
    if !problem.domains().holds(point) {
        return Ok(false);
    }
    problem.repairs(alloc, point)
}

impl Grounds<'_> {
    fn answer_is_right(&self) -> Result<bool, NoMemory>
        ensures { IfOk result (λ right. right ≡ spec.answer_is_right (instance self.now) self.now.answer.now) }
    {
        match self.answer {
            Answer::Repair(point) => is_repair(self.alloc, self.problem, point),
            Answer::Nothing => Ok(true),
            Answer::Budget => Ok(true),
            Answer::Best(point) => is_repair(self.alloc, self.problem, point),
        }
    }

    fn stated_cost(&self, point: &Point) -> u128
        requires { IsTrue (is_in self.now.problem.now.domains.region point.now) }
        ensures { result ≡ points.cost (instance self.now).olds point.now }
    {
        let _region = self.problem.domains().region();
        cost(self.problem.program().olds(), point)
    }

    // The cost of the stated point, under `best`.
    fn stated_least(&self) -> Option<u128>
        requires { spec.answer_is_right (instance self.now) self.now.answer.now ≡ true }
        ensures { as_list result ≡ spec.stated_costs (instance self.now) self.now.answer.now }
    {
        match self.answer {
            Answer::Best(point) => Some(self.stated_cost(point)),
            _ => None,
        }
    }

    // Whether the answer suits whether a box is open.
    fn end_is_right(&self, any_open: bool) -> bool
        ensures { result ≡ ends_right self.now.answer.now any_open }
    {
        match self.answer {
            Answer::Repair(_) | Answer::Nothing => true,
            Answer::Budget | Answer::Best(_) => any_open,
        }
    }

    // The verdict of a valid certificate.
    fn verdict(&self, least: Option<u128>) -> Verdict
        requires { spec.answer_is_right (instance self.now) self.now.answer.now ≡ true }
        ensures { result ≡ verdict_of (instance self.now) self.now.answer.now (spec.least_of (as_list least)) }
    {
        match self.answer {
            Answer::Repair(point) => Verdict::Repair(self.stated_cost(point)),
            Answer::Nothing => Verdict::Nothing,
            Answer::Budget | Answer::Best(_) => Verdict::Budget(least.unwrap_or(0)),
        }
    }

    // The walk that begins at a box.
    fn begin(&self, region: &PBox) -> Result<Walk, NoMemory>
        requires stated { spec.answer_is_right (instance self.now) self.now.answer.now ≡ true }
        requires root { IsRootBox self.now.problem.now self.now.root }
        requires inside { BoxIn region.now self.now.root }
        ensures { IfOk result (Begins self.now region.now) }
    {
        Ok(Walk {
            boxes: Boxes::new(self.alloc, region)?,
            made: Made::new(self.alloc),
            room: Point::new(self.alloc, self.problem.program().olds())?,
            line: 3,
            least: self.stated_least(),
            any_open: false,
        })
    }

    fn judge(&self, cert: &Cert, region: &PBox) -> Result<Verdict, CheckFault>
        requires root { IsRootBox self.now.problem.now self.now.root }
        requires answer { self.now.answer.now ≡ cert.now.answer }
        requires inside { BoxIn region.now self.now.root }
        requires spelled { HasSpelling cert.now }
        ensures { IsJudged (instance self.now) region.now cert.now result }
    {
        if !self.answer_is_right()? {
            return Err(CheckFault::Rejected(2));
        }
        let mut walk = self.begin(region)?;
        walk.run(self, cert.tree.nodes.as_slice())?;
        if !self.end_is_right(walk.any_open) {
            return Err(CheckFault::Rejected(walk.line));
        }
        Ok(self.verdict(walk.least))
    }
}

fn make_grounds<'a>(
    alloc: Global,
    problem: &'a Problem,
    cert: &'a Cert,
) -> Result<Grounds<'a>, NoMemory>
    ensures root { IfOk result (λ g. IsRootBox problem.now g.root) }
    ensures is { IfOk result (λ g. IsInstance problem.now (instance g)) }
    ensures answer { IfOk result (λ g. g.answer.now ≡ cert.now.answer) }
    ensures problem { IfOk result (λ g. g.problem.now ≡ problem.now) }
    ensures sound { IsSoundCase problem.now }
{
    let program = problem.program();
    let root = root_box(alloc, problem)?;
    let marks = needed_list(alloc, program, problem.seeds())?;
    Ok(Grounds {
        alloc,
        problem,
        answer: &cert.answer,
        root,
        marks,
    })
}

/// Checks a certificate for a problem, in one walk over its lines. The certificate is accepted exactly where each line keeps
/// its rule, and then the verdict holds of the problem, whoever wrote the certificate: the stated point is replayed, each
/// bound of a refutation is computed anew, and each box follows from its split. It is rejected at the first line that breaks
/// its rule. The only other answer is want of memory. A certificate that was read from a text has a spelling.
pub fn check(alloc: Global, problem: &Problem, cert: &Cert) -> Result<Verdict, CheckFault>
    requires spelled { HasSpelling cert.now }
    ensures judged { IsAnswered result → (inst : Instance) × IsInstance problem.now inst × IsJudged inst inst.root cert.now result }
    ensures holds { IfOk result (Holds problem.now) }
{
    let grounds = make_grounds(alloc, problem, cert)?;
    grounds.judge(cert, &grounds.root)
}

/// The same for the part of a problem in a box. The box has one interval for each parameter, none of them empty and each in
/// the root box's; it is the box of the top node, and the verdict speaks of the repairs in it. A stated point may lie outside
/// of it, within the domains. The system of a row is still made over the root box.
pub fn check_in(
    alloc: Global,
    problem: &Problem,
    region: &PBox,
    cert: &Cert,
) -> Result<Verdict, CheckFault>
    requires spelled { HasSpelling cert.now }
    requires inside { LiesInRootBox problem.now region.now }
    ensures judged { IsAnswered result → (inst : Instance) × IsInstance problem.now inst × IsJudged inst region.now cert.now result }
    ensures holds { IfOk result (HoldsIn problem.now region.now) }
{
    let grounds = make_grounds(alloc, problem, cert)?;
    grounds.judge(cert, region)
}
