//! Stores around any store, for tests: one whose listed calls fail, and one whose bucket others change meanwhile.
//! Each is a store itself, so what is proved over every store holds over these too.
#![tactic(auto)]

mod change;
mod faulty;
mod meddled;

pub use faulty::{Faulty, When};
pub use meddled::Meddled;
