ghost use Rattle.std.specs.Prelude.{◌≡◌, ◌≢◌, ◌<◌, length, IfOk, OnOk, OnErr, IfSome};
ghost use Rattle.std.specs.Option.{option_copied};
ghost use Rattle.qf_base.specs.Values.{Bounds};
ghost use Rattle.qf_point.specs.Points.{cheapest, cost, HasNoEmpty};
ghost use Rattle.qf_point.specs.Domains.{HasSmallEnds};
ghost use Rattle.qf_goal.specs.SoundCase.{IsSoundCase};
ghost use Rattle.qf_slice.specs.RootBox.{IsRootBox};
ghost use Rattle.qf_board.specs.Boards.{start, best_box, HoldsNone, has_ended};
ghost use Rattle.qf_board.specs.Sound.{IsSound};
ghost use Rattle.qf_search.specs.Standing.{StandsFor};
ghost use Rattle.qf_search.specs.Exploring.{IsLeft};
ghost use Rattle.qf_search.specs.Grounding.{AreGrounds};
ghost use Rattle.qf_search.specs.Searched.{HasGround, HasRun};
ghost use Rattle.qf_search.specs.Solving.{IsInRootBox, IsSolved};

use crate::exploring::Explored;
use crate::grounds::{Grounds, make_grounds};
use qf_base::{List, NoMemory, PBox, Point};
use qf_board::Board;
use qf_goal::Problem;
use qf_point::{cheapest, cost};
use qf_slice::root_box;
use qf_tree::Tree;
use std::alloc::Global;

/// What a search over a region answers, with its tree.
#[derive(Drop)]
pub enum Found {
    /// The best of the region's repairs.
    Repair(Point, Tree),
    /// The region has no repair.
    Nothing(Tree),
    /// The budget was used up. No repair of the region costs less than the number says.
    Budget(Tree, u128),
}

// That the problem is sound, and that the ends of its domains are within 2^50 in size.
fn note_ends(problem: &Problem)
    ensures sound { IsSoundCase problem.now }
    ensures ends { HasSmallEnds problem.now.domains.region }
{
    let _program = problem.program();
    let _region = problem.domains().region();
}

// The region as a board's one open box, with one explorer.
fn board_over(grounds: &Grounds<'_>, region: &PBox) -> Result<Board, NoMemory>
    requires { HasGround grounds.now.problem.now region.now }
    ensures { IfOk result (λ board. board ≡ start region.now grounds.now.problem.now.plan.olds 1) }
{
    let root = region.copy(grounds.alloc)?;
    let olds = List::from_slice(grounds.alloc, grounds.problem.program().olds().as_slice())?;
    Board::open(grounds.alloc, root, olds, 1)
}

// The explorer's run on that board.
fn run_alone(
    grounds: &Grounds<'_>,
    region: &PBox,
    budget: u32,
    board: &mut Board,
) -> Result<Explored, NoMemory>
    requires grounds { AreGrounds grounds.now }
    requires ground { HasGround grounds.now.problem.now region.now }
    requires board { board.old ≡ start region.now grounds.now.problem.now.plan.olds 1 }
    ensures { IfOk result (HasRun grounds.now.problem.now region.now budget board.new) }
{
    let mut store = grounds.store()?;
    grounds.run(&mut store, board, 0, budget)
}

// The best point found, as a point of its own.
fn best_copy(alloc: Global, board: &Board) -> Result<Option<Point>, NoMemory>
    ensures { IfOk result (λ best. best ≡ board.now.best) }
{
    match board.best() {
        Some(point) => Ok(Some(point.copy(alloc)?)),
        None => Ok(None),
    }
}

// The answer of a run that has ended.
fn ended_answer(
    alloc: Global,
    problem: &Problem,
    region: &PBox,
    budget: u32,
    board: Board,
) -> Result<Found, NoMemory>
    requires ground { HasGround problem.now region.now }
    requires run { HasRun problem.now region.now budget board Explored.Ended }
    ensures { IfOk result (IsSolved problem.now region.now budget) }
{
    match best_copy(alloc, &board) {
        Ok(Some(point)) => match board.into_tree() {
            Ok(tree) => Ok(Found::Repair(point, tree)),
            Err(fault) => {
                drop(point);
                Err(fault)
            }
        },
        Ok(None) => Ok(Found::Nothing(board.into_tree()?)),
        Err(fault) => {
            drop(board);
            Err(fault)
        }
    }
}

// The cost of the cheapest point of the open box with the best key.
fn least_left(alloc: Global, problem: &Problem, board: &mut Board) -> Result<u128, NoMemory>
    requires olds { board.old.prices ≡ problem.now.plan.olds }
    requires sound { IsSound board.old }
    requires one { 0 < board.old.explorers }
    requires free { HoldsNone board.old 0 }
    requires left { IsLeft problem.now board.old }
    ensures least { IfOk result (λ least. (left : IsLeft problem.now board.old) → least ≡ cost problem.now.plan.olds (cheapest problem.now.plan.olds left.box)) }
    ensures same { board.new ≡ board.old }
{
    let Some(region) = board.take(0)? else {
        unreachable!()
    };
    board.give_back(0);
    let olds = problem.program().olds();
    let mut point = Point::new(alloc, olds)?;
    cheapest(olds, &region, &mut point);
    Ok(cost(olds, &point))
}

// The answer of a run that used the budget up.
fn spent_answer(
    alloc: Global,
    problem: &Problem,
    region: &PBox,
    budget: u32,
    board: Board,
) -> Result<Found, NoMemory>
    requires ground { HasGround problem.now region.now }
    requires run { HasRun problem.now region.now budget board Explored.Spent }
    ensures { IfOk result (IsSolved problem.now region.now budget) }
{
    let mut board = board;
    match least_left(alloc, problem, &mut board) {
        Ok(least) => Ok(Found::Budget(board.into_tree()?, least)),
        Err(fault) => {
            drop(board);
            Err(fault)
        }
    }
}

// The answer of a run.
fn answer_of(
    alloc: Global,
    problem: &Problem,
    region: &PBox,
    budget: u32,
    board: Board,
    explored: Explored,
) -> Result<Found, NoMemory>
    requires ground { HasGround problem.now region.now }
    requires run { HasRun problem.now region.now budget board explored }
    ensures { IfOk result (IsSolved problem.now region.now budget) }
{
    match explored {
        Explored::Ended => ended_answer(alloc, problem, region, budget, board),
        Explored::Spent => spent_answer(alloc, problem, region, budget, board),
        Explored::Idle => unreachable!(),
    }
}

// A search on grounds that were made.
fn solve_on(grounds: &Grounds<'_>, region: &PBox, budget: u32) -> Result<Found, NoMemory>
    requires grounds { AreGrounds grounds.now }
    requires ground { HasGround grounds.now.problem.now region.now }
    ensures { IfOk result (IsSolved grounds.now.problem.now region.now budget) }
{
    let mut board = board_over(grounds, region)?;
    match run_alone(grounds, region, budget, &mut board) {
        Ok(explored) => answer_of(
            grounds.alloc,
            grounds.problem,
            region,
            budget,
            board,
            explored,
        ),
        Err(fault) => {
            drop(board);
            Err(fault)
        }
    }
}

/// The best of the repairs in a region: the one that costs least, and of those that cost the same the one whose list of
/// values is the least. The region has one interval for each parameter, none of them empty, and lies in the problem's root
/// box. One explorer works on a board of its own, best key first, and splits or refutes at most `budget` boxes. It can't be
/// short of them where the budget is at least twice the number of the region's points less one. The tree certifies the
/// answer; over the root box it is that of a certificate.
pub fn solve(
    alloc: Global,
    problem: &Problem,
    region: &PBox,
    budget: u32,
) -> Result<Found, NoMemory>
    requires inside { IsInRootBox problem.now region.now }
    ensures { IfOk result (IsSolved problem.now region.now budget) }
{
    note_ends(problem);
    let grounds = make_grounds(alloc, problem)?;
    solve_on(&grounds, region, budget)
}

/// The least repair of the problem, found by at most `budget` split or refuted boxes: `solve` over the problem's root box.
pub fn diagnose(alloc: Global, problem: &Problem, budget: u32) -> Result<Found, NoMemory>
    ensures { IfOk result (λ found. (root : Bounds) → IsRootBox problem.now root → IsSolved problem.now root budget found) }
{
    note_ends(problem);
    let root = root_box(alloc, problem)?;
    let found = solve(alloc, problem, &root, budget)?;
    Ok(found)
}
