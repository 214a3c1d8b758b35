//! One writer's turn: what it asks for, what it drops, and whom it answers.
//! Nothing here knows of lines, of handles or of the mount's names.
#![tactic(auto)]

mod asks;
mod drops;
mod turn;

pub use turn::take_turn;
