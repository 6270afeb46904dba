ghost use Rattle.qf_search.specs.Laws.{BoardsKeepRepairs, EndedBoardsAnswer, EndedBoardsHaveTheLeastRepair, EndedBoardsAreAlike};

/// On a board that stands for a problem, after any events of any number of explorers, no refuted leaf holds a repair, the
/// best found repairs, and each repair of the board's box lies in an open or held leaf. Like the other laws it holds of the
/// definitions, and the call does nothing.
pub fn boards_keep_repairs()
    ensures { BoardsKeepRepairs }
{}

/// Where such a board has ended, its best found is the best of the repairs of its box, or nothing where there are none; over
/// the root box it is the least repair.
pub fn ended_boards_have_the_least_repair()
    ensures answer { EndedBoardsAnswer }
    ensures least { EndedBoardsHaveTheLeastRepair }
{}

/// Two such boards over one box that have ended have the same best found, whoever explored them and in whatever order.
pub fn ended_boards_are_alike()
    ensures { EndedBoardsAreAlike }
{}
