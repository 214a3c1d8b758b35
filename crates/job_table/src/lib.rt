//! The jobs that are ready or out: which may be taken, what they call, and whose turn asked for them; and the journal,
//! in which a job's ask, its take or its drop, and its end are recorded. Room for all three is made when a job is asked.
//! Neither calls a bucket. Jobs whose answer came, or that were dropped, leave no trace but the count and what is
//! recorded.
#![tactic(auto)]

mod jobs;
mod journal;
mod purpose;
mod ready;

pub use jobs::{Asker, Asking, Jobs};
pub use journal::Journal;
pub use purpose::Purpose;
