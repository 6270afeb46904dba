// What becomes of a box whose cheapest point does not repair: it is refuted or cut.

ghost use Rattle.std.specs.Prelude.{◌≡◌, length, Some, IfOk, OnOk, IfSome, IfNone};
ghost use Rattle.qf_base.specs.Values.{IsWithin};
ghost use Rattle.qf_point.specs.Points.{cheapest};
ghost use Rattle.qf_ir.specs.Plan.{RowExists};
ghost use Rattle.qf_goal.specs.Case.{first_failing};
ghost use Rattle.qf_encode.specs.Lives.{BoxIn};
ghost use Rattle.qf_search.specs.Grounding.{AreGrounds, AreTools, IsReady};
ghost use Rattle.qf_search.specs.Deciding.{IsRefuting, IsDecided, IsLeftOpen};

use crate::cutting::{cut_of, cuts};
use crate::grounds::{Grounds, Store, Tools};
use crate::refuting::swept;
use qf_base::{Intervals, List, NoMemory, PBox, Point, RowName};
use qf_instance::RowSystem;
use qf_lin::Step;
use qf_moves::Sight;
use qf_point::cheapest;

/// What is to become of a box: steps refute it for a row, or it is cut at a parameter, from 1.
#[derive(Drop)]
pub enum Decision {
    Refute { row: RowName, steps: List<Step> },
    Cut { param: u32, cut: i64 },
}

impl Grounds<'_> {
    /// A row at a box.
    pub fn sight<'s>(
        &'s self,
        own: &'s RowSystem,
        region: &'s PBox,
        hull: &'s Intervals,
    ) -> Sight<'s> {
        Sight {
            coded: &own.coded,
            hull,
            region,
            olds: self.problem.program().olds(),
        }
    }

    /// Makes the point the cheapest of a box.
    pub fn go_to(&self, region: &PBox, point: &mut Point)
        requires grounds { AreGrounds self.now }
        requires inside { BoxIn region.now self.now.root }
        requires room { length point.old ≡ length self.now.root }
        ensures point { point.new ≡ cheapest self.now.problem.now.plan.olds region.now }
        ensures inside { IsWithin point.new region.now }
        ensures room { length point.new ≡ length self.now.root }
    {
        cheapest(self.problem.program().olds(), region, point);
    }

    // Steps that refute a box at whose cheapest point this row is the first that misses its goal.
    fn refutation(
        &self,
        tools: &mut Tools,
        region: &PBox,
        point: &Point,
        row: RowName,
    ) -> Result<Option<(RowName, List<Step>)>, NoMemory>
        requires grounds { AreGrounds self.now }
        requires inside { BoxIn region.now self.now.root }
        requires tools { AreTools self.now tools.old }
        requires point { point.now ≡ cheapest self.now.problem.now.plan.olds region.now }
        requires within { IsWithin point.now region.now }
        requires failing { first_failing self.now.problem.now point.now ≡ Some row }
        ensures tools { OnOk result (AreTools self.now tools.new) }
        ensures refutes { IfOk result (λ found. IfSome found (λ f. IsRefuting self.now.problem.now region.now point.now f.0 f.1)) }
        ensures none { IfOk result (λ found. IfNone found (IsLeftOpen self.now.problem.now region.now row)) }
    {
        if let Some(steps) = self.goal_refutation(&mut tools.made, region, row)? {
            return Ok(Some((row, steps)));
        }
        let found = self.suggested_refutation(tools, region, point, row)?;
        if found.is_some() {
            return Ok(found);
        }
        self.complained_refutation(tools, region, point)
    }

    // Where a box may be cut, for a row that misses its goal at the box's cheapest point: where the guide says, or else where
    // the row's own moves say.
    fn suggested_cut(
        &self,
        tools: &mut Tools,
        region: &PBox,
        row: RowName,
    ) -> Result<Option<(u32, i64)>, NoMemory>
        requires grounds { AreGrounds self.now }
        requires inside { BoxIn region.now self.now.root }
        requires exists { RowExists self.now.problem.now.plan row }
        requires tools { AreTools self.now tools.old }
        ensures { OnOk result (AreTools self.now tools.new) }
    {
        let told = tools.guide.cut(self.alloc, self.problem, region, row)?;
        if told.is_some() {
            return Ok(told);
        }
        tools.made.make(self.alloc, self.problem, &self.root, row)?;
        let own = tools.made.get(row);
        let hull = own.hull(self.alloc, region)?;
        let swept = swept(self.alloc, &own.system, &hull)?;
        Ok(self.sight(own, region, &hull).cut(&swept))
    }

    // A cut of a box that is left open for a row that misses its goal at the box's cheapest point: the suggested one where
    // that may be. On a box of one point the hull is exact, so no row that misses its goal there leaves it open.
    fn cut(&self, region: &PBox, row: RowName, suggested: Option<(u32, i64)>) -> Decision
        requires grounds { AreGrounds self.now }
        requires inside { BoxIn region.now self.now.root }
        requires failing { first_failing self.now.problem.now (cheapest self.now.problem.now.plan.olds region.now) ≡ Some row }
        requires left { IsLeftOpen self.now.problem.now region.now row }
        ensures { IsDecided self.now.problem.now region.now (cheapest self.now.problem.now.plan.olds region.now) result }
    {
        if let Some((param, cut)) = suggested
            && cuts(region, param, cut)
        {
            return Decision::Cut { param, cut };
        }
        let olds = self.problem.program().olds();
        match cut_of(olds.as_slice(), region, &self.root) {
            Some((param, cut)) => Decision::Cut { param, cut },
            None => unreachable!(),
        }
    }

    /// What is to become of a box at whose cheapest point this row is the first that misses its goal. It is refuted where
    /// steps are found that refute it for a row which misses its goal there: at least where the hull of the box violates an
    /// inequality of this row's goal, and where a row that a complaint is about closes the box. Else it is cut.
    pub fn decide(
        &self,
        store: &mut Store,
        region: &PBox,
        row: RowName,
    ) -> Result<Decision, NoMemory>
        requires grounds { AreGrounds self.now }
        requires inside { BoxIn region.now self.now.root }
        requires ready { IsReady self.now store.old }
        requires failing { first_failing self.now.problem.now (cheapest self.now.problem.now.plan.olds region.now) ≡ Some row }
        ensures decided { IfOk result (IsDecided self.now.problem.now region.now (cheapest self.now.problem.now.plan.olds region.now)) }
        ensures ready { OnOk result (IsReady self.now store.new) }
    {
        self.go_to(region, &mut store.point);
        match self.refutation(&mut store.tools, region, &store.point, row)? {
            Some((row, steps)) => Ok(Decision::Refute { row, steps }),
            None => {
                let suggested = self.suggested_cut(&mut store.tools, region, row)?;
                Ok(self.cut(region, row, suggested))
            }
        }
    }
}
