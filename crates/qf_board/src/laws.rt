ghost use Rattle.qf_board.specs.Laws.{BoardsKeepTheirLeaves, OthersKeepTheirs, BoardsLoseNoRepair, EndedBoardsAnswer, EndedBoardsAgree};

/// After any list of events of any number of explorers, each with what it needs, each point of the root box lies in the
/// box of exactly one leaf and no other point lies in any, and no explorer holds two boxes.
pub fn boards_keep_their_leaves()
    ensures { BoardsKeepTheirLeaves }
{}

/// What one explorer does leaves the box that another one holds.
pub fn others_keep_their_boxes()
    ensures { OthersKeepTheirs }
{}

/// Where steps that refute a box leave no repair in it, no refuted leaf holds a repair after any list of events, the best
/// found repairs, and each repair of the root box lies in an open or held box.
pub fn boards_lose_no_repair()
    ensures { BoardsLoseNoRepair }
{}

/// A board that has ended has found the least repair of its root box, or nothing where there is none; so any two lists of
/// events after which it has ended leave the same best found.
pub fn ended_boards_have_one_answer()
    ensures answer { EndedBoardsAnswer }
    ensures same { EndedBoardsAgree }
{}
