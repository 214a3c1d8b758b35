//! What stands at a path, by what a line has learned from its own questions and by the names that the mount keeps
//! itself: a walk from the left over the prefixes of the path, each of which has to be a directory.
//! Nothing here takes memory: the keys that are asked about are fronts of the path's own text.
#![tactic(auto)]

mod decision;
mod fact;
mod prefix;
mod theorems;
mod walk;

pub use decision::Decision;
pub use theorems::entries_go_by_what_hides;
pub use walk::decide;
