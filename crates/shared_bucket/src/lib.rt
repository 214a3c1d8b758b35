//! A bucket that threads share: a store behind a lock, for each store that is honest and alone.
//! Nothing here knows how the store keeps its objects.
#![tactic(auto)]

mod kept;
mod pass;
mod shared;

pub use kept::Kept;
pub use pass::{BucketName, Pass};
pub use shared::SharedBucket;
