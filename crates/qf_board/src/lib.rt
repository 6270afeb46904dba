//! Boards: a tree of boxes that explorers take, split and refute, and the best point found.
#![tactic(auto)]

mod board;
mod keys;
mod laws;
mod nodes;
mod parts;
mod tree;

pub use board::Board;
pub use laws::{
    boards_keep_their_leaves, boards_lose_no_repair, ended_boards_have_one_answer,
    others_keep_their_boxes,
};
