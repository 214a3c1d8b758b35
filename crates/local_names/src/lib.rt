//! The names that a mount keeps itself until the bucket has them, with the directories that they imply, so that no
//! look-up scans them all. It knows nothing of requests or of the bucket.
#![tactic(auto)]

mod above;
mod children;
mod locals;
mod nodes;

pub use locals::Locals;
