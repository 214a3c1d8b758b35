use mp_rules::{Entry, QuestionRef};
use mp_types::Errno;

/// What a walk over a path comes to. Keys are fronts of the path's own text.
#[derive(Debug, Drop)]
pub enum Decision<'a> {
    /// This has to be asked.
    Ask(QuestionRef<'a>),
    /// This stands at the path.
    Is(Entry),
    /// The path can't be walked.
    Refused(Errno),
}
