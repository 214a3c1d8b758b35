//! The lines of a script with how far each has come, so that no step scans them all.
//! It knows nothing of jobs, of the bucket or of the record.
#![tactic(auto)]

mod lines;
mod places;
mod prepare;

pub use lines::Lines;
