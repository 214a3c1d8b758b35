//! What every bucket promises to the mount, whether it tells its history or not: a store to one caller, and a bucket to threads.
//! The clauses hold for honest and dishonest buckets alike, save those on what a bucket tells.
#![tactic(auto)]

mod bucket;
mod store;

pub use bucket::Bucket;
pub use store::Store;
