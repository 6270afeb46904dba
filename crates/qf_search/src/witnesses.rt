// Rows that leave a box open, and rows that refute it.

ghost use Rattle.std.specs.Prelude.{◌≡◌, ◌<◌, true, length, IfOk, OnOk, IfSome, IfNone};
ghost use Rattle.qf_base.specs.Values.{IsIn, IsWithin};
ghost use Rattle.qf_ir.specs.Plan.{RowExists};
ghost use Rattle.qf_goal.specs.Case.{misses};
ghost use Rattle.qf_encode.specs.Lives.{BoxIn};
ghost use Rattle.qf_search.specs.Exploring.{IsNotClosable};
ghost use Rattle.qf_search.specs.Grounding.{AreGrounds, AreTools, IsOpenRow};
ghost use Rattle.qf_search.specs.Deciding.{IsRefuting};

use crate::grounds::{Grounds, Tools};
use qf_base::{List, NoMemory, PBox, Point, RowName};
use qf_instance::has_row;
use qf_lin::Step;
use qf_replay::Room;

// Whether a value lies in an interval.
fn is_between(value: i64, interval: (i64, i64)) -> bool
    ensures { result ≡ true → IsIn value interval }
{
    interval.0 <= value && value <= interval.1
}

// Whether a point lies in a box.
fn lies_in(region: &PBox, point: &Point) -> bool
    ensures { result ≡ true → IsWithin point.now region.now }
{
    if point.len() != u64::from(region.len()) {
        return false;
    }
    for place in 0..region.len() {
        if !is_between(point.get(place), region.get(place)) {
            return false;
        }
    }
    true
}

impl Grounds<'_> {
    // Whether a row misses its goal at a point.
    fn misses(&self, replay: &mut Room, row: RowName, point: &Point) -> bool
        requires grounds { AreGrounds self.now }
        requires exists { RowExists self.now.problem.now.plan row }
        requires point { IsWithin point.now self.now.root }
        requires room { replay.old ≡ length self.now.problem.now.plan.columns }
        ensures misses { result ≡ misses self.now.problem.now point.now row }
        ensures room { replay.new ≡ replay.old }
    {
        let problem = self.problem;
        let goal = problem.goal(row);
        !replay.meets(
            problem.program(),
            problem.table(),
            &self.births,
            row,
            point,
            goal,
        )
    }

    // Whether a row meets its goal at a point of a box, so that the row leaves the box open.
    fn is_witness(&self, replay: &mut Room, region: &PBox, row: RowName, point: &Point) -> bool
        requires grounds { AreGrounds self.now }
        requires inside { BoxIn region.now self.now.root }
        requires exists { RowExists self.now.problem.now.plan row }
        requires room { replay.old ≡ length self.now.problem.now.plan.columns }
        ensures open { result ≡ true → IsOpenRow self.now region.now row }
        ensures room { replay.new ≡ replay.old }
    {
        lies_in(region, point) && !self.misses(replay, row, point)
    }

    // Whether the point that is kept for a complained row shows that the row leaves a box open.
    fn is_kept_open(&self, tools: &mut Tools, region: &PBox, place: usize, row: RowName) -> bool
        requires grounds { AreGrounds self.now }
        requires inside { BoxIn region.now self.now.root }
        requires exists { RowExists self.now.problem.now.plan row }
        requires tools { AreTools self.now tools.old }
        ensures open { result ≡ true → IsOpenRow self.now region.now row }
        ensures tools { AreTools self.now tools.new }
    {
        match tools.finds.get(place) {
            Some(point) => self.is_witness(&mut tools.replay, region, row, point),
            None => false,
        }
    }

    // Looks for a point of a box at which a complained row meets its goal.
    fn seek(
        &self,
        tools: &mut Tools,
        region: &PBox,
        place: usize,
        row: RowName,
    ) -> Result<(), NoMemory>
        requires grounds { AreGrounds self.now }
        requires inside { BoxIn region.now self.now.root }
        requires exists { RowExists self.now.problem.now.plan row }
        requires tools { AreTools self.now tools.old }
        ensures { OnOk result (AreTools self.now tools.new) }
    {
        tools.made.make(self.alloc, self.problem, &self.root, row)?;
        let own = tools.made.get(row);
        let hull = own.hull(self.alloc, region)?;
        let sight = self.sight(own, region, &hull);
        tools.finds.seek(self.alloc, place, &sight, &own.system)
    }

    // Steps that refute a box for the complained row at this place, at least where the row closes the box. A point of the
    // box at which the row meets its goal shows that it does not: the box's cheapest point, one that was kept, or one that is
    // looked for now.
    fn complained_row(
        &self,
        tools: &mut Tools,
        region: &PBox,
        point: &Point,
        place: usize,
        row: RowName,
    ) -> Result<Option<List<Step>>, NoMemory>
        requires grounds { AreGrounds self.now }
        requires inside { BoxIn region.now self.now.root }
        requires exists { RowExists self.now.problem.now.plan row }
        requires tools { AreTools self.now tools.old }
        requires point { IsWithin point.now region.now }
        ensures tools { OnOk result (AreTools self.now tools.new) }
        ensures refutes { IfOk result (λ found. IfSome found (IsRefuting self.now.problem.now region.now point.now row)) }
        ensures none { IfOk result (λ found. IfNone found (IsOpenRow self.now region.now row)) }
    {
        if !self.misses(&mut tools.replay, row, point)
            || self.is_kept_open(tools, region, place, row)
        {
            return Ok(None);
        }
        self.seek(tools, region, place, row)?;
        if self.is_kept_open(tools, region, place, row) {
            return Ok(None);
        }
        self.closing_refutation(&mut tools.made, region, row, tools.guide.limit())
    }

    /// Steps that refute a box for a row that a complaint is about, at least where such a row closes the box.
    pub fn complained_refutation(
        &self,
        tools: &mut Tools,
        region: &PBox,
        point: &Point,
    ) -> Result<Option<(RowName, List<Step>)>, NoMemory>
        requires grounds { AreGrounds self.now }
        requires inside { BoxIn region.now self.now.root }
        requires tools { AreTools self.now tools.old }
        requires point { IsWithin point.now region.now }
        ensures tools { OnOk result (AreTools self.now tools.new) }
        ensures refutes { IfOk result (λ found. IfSome found (λ f. IsRefuting self.now.problem.now region.now point.now f.0 f.1)) }
        ensures none { IfOk result (λ found. IfNone found (IsNotClosable self.now.problem.now region.now)) }
    {
        let rows = self.problem.complained_rows();
        for place in 0..rows.len() {
            let row = *rows.at(place);
            if let Some(steps) = self.complained_row(tools, region, point, place as usize, row)? {
                return Ok(Some((row, steps)));
            }
        }
        Ok(None)
    }

    // Steps that refute a box for a row that was suggested, which may be any name. Only a row that misses its goal at the
    // box's cheapest point is tried.
    fn suggested_row(
        &self,
        tools: &mut Tools,
        region: &PBox,
        point: &Point,
        row: RowName,
    ) -> Result<Option<List<Step>>, NoMemory>
        requires grounds { AreGrounds self.now }
        requires inside { BoxIn region.now self.now.root }
        requires tools { AreTools self.now tools.old }
        requires point { IsWithin point.now region.now }
        ensures tools { OnOk result (AreTools self.now tools.new) }
        ensures refutes { IfOk result (λ found. IfSome found (IsRefuting self.now.problem.now region.now point.now row)) }
    {
        if !has_row(self.problem, row) || !self.misses(&mut tools.replay, row, point) {
            return Ok(None);
        }
        self.row_refutation(&mut tools.made, region, row, tools.guide.limit())
    }

    /// Steps that refute a box for one of the rows that the guide suggests, where this row is the first that misses its goal
    /// at the box's cheapest point.
    pub fn suggested_refutation(
        &self,
        tools: &mut Tools,
        region: &PBox,
        point: &Point,
        row: RowName,
    ) -> Result<Option<(RowName, List<Step>)>, NoMemory>
        requires grounds { AreGrounds self.now }
        requires inside { BoxIn region.now self.now.root }
        requires tools { AreTools self.now tools.old }
        requires point { IsWithin point.now region.now }
        ensures tools { OnOk result (AreTools self.now tools.new) }
        ensures refutes { IfOk result (λ found. IfSome found (λ f. IsRefuting self.now.problem.now region.now point.now f.0 f.1)) }
    {
        let rows = tools.guide.rows(self.alloc, self.problem, region, row)?;
        for row in rows.as_slice() {
            if let Some(steps) = self.suggested_row(tools, region, point, *row)? {
                return Ok(Some((*row, steps)));
            }
        }
        Ok(None)
    }
}
