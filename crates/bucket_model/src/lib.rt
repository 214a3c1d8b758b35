//! What a bucket is: its calls and answers, its history, and the definitions of both.
//! Contracts above cite these; no store and nothing of the mount stands here.
#![tactic(auto)]

mod answer;
mod call;
mod history;
mod page;

pub use answer::{Answer, AnswerKind, Brief};
pub use call::Call;
pub use history::{HEntry, Logged, Name, Object, add_entry};
pub use page::{Page, PageItem, pages_are_of_the_keys};
