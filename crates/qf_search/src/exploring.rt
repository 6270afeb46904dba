ghost use Rattle.std.specs.Prelude.{◌≡◌, ◌≢◌, ◌↔◌, ◌<◌, ℕ, Some, true, false, length, IfOk, OnOk, OnErr, IfSome, IfNone};
ghost use Rattle.qf_point.specs.Points.{cheapest};
ghost use Rattle.qf_goal.specs.Case.{Mends, first_failing};
ghost use Rattle.qf_encode.specs.Lives.{BoxIn};
ghost use Rattle.qf_board.specs.Boards.{HoldsNone, CanHappen, GiveBack, after, has_ended};
ghost use Rattle.qf_board.specs.Sound.{IsSound};
ghost use Rattle.qf_search.specs.Standing.{StandsFor};
ghost use Rattle.qf_search.specs.Exploring.{Explores, has_wanted, IsIdle, IsLeft, IsSpent};
ghost use Rattle.qf_search.specs.Grounding.{AreGrounds, IsReady};
ghost use Rattle.qf_search.specs.Deciding.{event_of, HoldsBox, IsTaken, IsTreated, IsOver, IsWorked};

use crate::deciding::Decision;
use crate::grounds::{Grounds, Store, make_grounds};
use qf_base::{NoMemory, PBox, Point, RowName};
use qf_board::Board;
use qf_goal::Problem;
use std::alloc::Global;

/// How the run of one explorer on a board ends.
#[derive(Clone, Copy, Debug, PartialEq, Eq)]
pub enum Explored {
    /// Nobody holds a box, and no open box has a key better than the best found.
    Ended,
    /// No open box has a key better than the best found, and another explorer holds a box.
    Idle,
    /// As many nodes were added as were allowed, and a box is open whose key is better than the best found.
    Spent,
}

// What was decided of a held box happens. For want of memory the box stays held.
fn carry_out(board: &mut Board, who: u32, row: RowName, decision: Decision) -> Result<(), NoMemory>
    requires { CanHappen board.old (event_of who row decision) }
    ensures ok { OnOk result (board.new ≡ after board.old (event_of who row decision)) }
    ensures err { OnErr result (board.new ≡ board.old) }
{
    match decision {
        Decision::Refute {
            row: refuted,
            steps,
        } => board.refute(who, refuted, steps),
        Decision::Cut { param, cut } => board.cut(who, param, cut, row),
    }
}

// How a run ends on a board where no open box has a key better than the best found.
fn rest(board: &Board) -> Explored
    requires sound { IsSound board.now }
    requires wanted { has_wanted board.now ≡ false }
    ensures ended { (result ≡ Explored.Ended) ↔ (has_ended board.now ≡ true) }
    ensures idle { (who : ℕ) → HoldsNone board.now who → ((result ≡ Explored.Idle) ↔ IsIdle who board.now) }
    ensures spent { result ≢ Explored.Spent }
{
    if board.finish() {
        Explored::Ended
    } else {
        Explored::Idle
    }
}

impl Grounds<'_> {
    // The first row that misses its goal at the cheapest point of a box.
    fn failing(&self, room: &mut Point, region: &PBox) -> Result<Option<RowName>, NoMemory>
        requires grounds { AreGrounds self.now }
        requires inside { BoxIn region.now self.now.root }
        requires room { length room.old ≡ length self.now.root }
        ensures first { IfOk result (λ row. row ≡ first_failing self.now.problem.now (cheapest self.now.problem.now.plan.olds region.now)) }
        ensures none { IfOk result (λ row. IfNone row (Mends self.now.problem.now (cheapest self.now.problem.now.plan.olds region.now))) }
        ensures room { length room.new ≡ length self.now.root }
    {
        self.go_to(region, room);
        self.problem.first_failing(self.alloc, room)
    }

    // Takes the open box with the best key, and tells the first row that misses its goal at the box's cheapest point. None
    // comes where there is no such box, or where that point repairs, which is then found. For want of memory the explorer
    // holds none.
    fn take_next(
        &self,
        store: &mut Store,
        board: &mut Board,
        who: u32,
    ) -> Result<Option<(PBox, RowName)>, NoMemory>
        requires grounds { AreGrounds self.now }
        requires ready { IsReady self.now store.old }
        requires stands { StandsFor self.now.problem.now board.old }
        requires who { who < board.old.explorers }
        requires free { HoldsNone board.old who }
        ensures taken { IfOk result (λ next. IfSome next (λ n. IsTaken self.now.problem.now who board.old board.new n.0 n.1)) }
        ensures inside { IfOk result (λ next. IfSome next (λ n. BoxIn n.0 self.now.root)) }
        ensures over { IfOk result (λ next. IfNone next (IsOver self.now.problem.now who board.old board.new)) }
        ensures err { OnErr result (Explores self.now.problem.now who 0 board.old board.new) }
        ensures ready { IsReady self.now store.new }
    {
        let Some(region) = board.take(who)? else {
            return Ok(None);
        };
        match self.failing(&mut store.point, &region) {
            Ok(Some(row)) => Ok(Some((region, row))),
            Ok(None) => {
                board.found(who);
                Ok(None)
            }
            Err(fault) => {
                board.give_back(who);
                Err(fault)
            }
        }
    }

    // Refutes or cuts a held box at whose cheapest point the row is the first that misses its goal.
    fn treat(
        &self,
        store: &mut Store,
        board: &mut Board,
        who: u32,
        region: &PBox,
        row: RowName,
    ) -> Result<(), NoMemory>
        requires grounds { AreGrounds self.now }
        requires inside { BoxIn region.now self.now.root }
        requires ready { IsReady self.now store.old }
        requires failing { first_failing self.now.problem.now (cheapest self.now.problem.now.plan.olds region.now) ≡ Some row }
        requires held { HoldsBox board.old who region.now }
        ensures ok { OnOk result (IsTreated self.now.problem.now who region.now row board.old board.new) }
        ensures err { OnErr result (board.new ≡ board.old) }
        ensures ready { OnOk result (IsReady self.now store.new) }
    {
        let decision = self.decide(store, region, row)?;
        carry_out(board, who, row, decision)
    }

    // The same, but for want of memory the box is given back.
    fn settle(
        &self,
        store: &mut Store,
        board: &mut Board,
        who: u32,
        region: &PBox,
        row: RowName,
    ) -> Result<(), NoMemory>
        requires grounds { AreGrounds self.now }
        requires inside { BoxIn region.now self.now.root }
        requires ready { IsReady self.now store.old }
        requires failing { first_failing self.now.problem.now (cheapest self.now.problem.now.plan.olds region.now) ≡ Some row }
        requires held { HoldsBox board.old who region.now }
        ensures ok { OnOk result (IsTreated self.now.problem.now who region.now row board.old board.new) }
        ensures err { OnErr result (board.new ≡ after board.old (GiveBack who)) }
        ensures ready { OnOk result (IsReady self.now store.new) }
    {
        match self.treat(store, board, who, region, row) {
            Ok(()) => Ok(()),
            Err(fault) => {
                board.give_back(who);
                Err(fault)
            }
        }
    }

    // Takes a box and refutes or cuts it. False comes where no box is left to work on.
    fn work(&self, store: &mut Store, board: &mut Board, who: u32) -> Result<bool, NoMemory>
        requires grounds { AreGrounds self.now }
        requires ready { IsReady self.now store.old }
        requires stands { StandsFor self.now.problem.now board.old }
        requires who { who < board.old.explorers }
        requires free { HoldsNone board.old who }
        ensures worked { IfOk result (λ goes_on. goes_on ≡ true → IsWorked self.now.problem.now who board.old board.new) }
        ensures over { IfOk result (λ goes_on. goes_on ≡ false → IsOver self.now.problem.now who board.old board.new) }
        ensures err { OnErr result (Explores self.now.problem.now who 0 board.old board.new) }
        ensures ready { OnOk result (IsReady self.now store.new) }
    {
        let Some((region, row)) = self.take_next(store, board, who)? else {
            return Ok(false);
        };
        self.settle(store, board, who, &region, row)?;
        Ok(true)
    }

    // Looks whether a box is left to work on, and adds no node.
    fn look(&self, store: &mut Store, board: &mut Board, who: u32) -> Result<Explored, NoMemory>
        requires grounds { AreGrounds self.now }
        requires ready { IsReady self.now store.old }
        requires stands { StandsFor self.now.problem.now board.old }
        requires who { who < board.old.explorers }
        requires free { HoldsNone board.old who }
        ensures run { Explores self.now.problem.now who 0 board.old board.new }
        ensures ended { IfOk result (λ r. (r ≡ Explored.Ended) ↔ (has_ended board.new ≡ true)) }
        ensures idle { IfOk result (λ r. (r ≡ Explored.Idle) ↔ IsIdle who board.new) }
        ensures spent { IfOk result (λ r. r ≡ Explored.Spent → IsLeft self.now.problem.now board.new) }
    {
        let Some(_next) = self.take_next(store, board, who)? else {
            return Ok(rest(board));
        };
        board.give_back(who);
        Ok(Explored::Spent)
    }

    /// Works until no box is left to work on or so many nodes are added.
    pub fn run(
        &self,
        store: &mut Store,
        board: &mut Board,
        who: u32,
        most: u32,
    ) -> Result<Explored, NoMemory>
        requires grounds { AreGrounds self.now }
        requires ready { IsReady self.now store.old }
        requires stands { StandsFor self.now.problem.now board.old }
        requires who { who < board.old.explorers }
        requires free { HoldsNone board.old who }
        ensures explores { Explores self.now.problem.now who most board.old board.new }
        ensures ended { IfOk result (λ r. (r ≡ Explored.Ended) ↔ (has_ended board.new ≡ true)) }
        ensures idle { IfOk result (λ r. (r ≡ Explored.Idle) ↔ IsIdle who board.new) }
        ensures spent { IfOk result (λ r. r ≡ Explored.Spent → IsSpent self.now.problem.now most board.old board.new) }
    {
        for _turn in 0..most {
            if !self.work(store, board, who)? {
                return Ok(rest(board));
            }
        }
        self.look(store, board, who)
    }
}

/// The work of one explorer on a board that it is lent. It takes the open box with the best key and tests the box's cheapest
/// point. Where that point repairs, it is found, and no open box is left that could hold a better one. Else the box is
/// refuted, where steps are found that refute it for a row which misses its goal at that point; or it is cut, for the first
/// such row, and only where no row that a complaint is about closes it. Which rows are tried first and where a box is cut is
/// suggested by heuristics, and tested: without a suggestion the box is cut at the parameter that is widest as a part of its
/// domain, and beside the cheapest value. So it goes on until `most` nodes are added.
///
/// The board was opened with the problem's old constants over a box in the problem's root box, and stands after events of
/// any explorers that each had what they need for this problem. The explorer is one of the board's and holds no box, and it
/// holds none afterwards. After want of memory the board stands after such events of this explorer too.
pub fn explore(
    alloc: Global,
    problem: &Problem,
    board: &mut Board,
    who: u32,
    most: u32,
) -> Result<Explored, NoMemory>
    requires stands { StandsFor problem.now board.old }
    requires who { who < board.old.explorers }
    requires free { HoldsNone board.old who }
    ensures explores { Explores problem.now who most board.old board.new }
    ensures stands { StandsFor problem.now board.new }
    ensures ended { IfOk result (λ r. (r ≡ Explored.Ended) ↔ (has_ended board.new ≡ true)) }
    ensures idle { IfOk result (λ r. (r ≡ Explored.Idle) ↔ IsIdle who board.new) }
    ensures spent { IfOk result (λ r. r ≡ Explored.Spent → IsSpent problem.now most board.old board.new) }
{
    let grounds = make_grounds(alloc, problem)?;
    let mut store = grounds.store()?;
    grounds.run(&mut store, board, who, most)
}
