use mp_rules::Question;

/// What a call is for, as far as its asker needs it when the answer comes.
#[derive(Debug, Drop)]
pub enum Purpose {
    /// The question that the call asks.
    Question(Question),
    /// An upload is created.
    Create,
    /// A part is uploaded.
    Part,
    /// An upload becomes an object.
    Complete,
    /// An upload is given up.
    Abort,
    /// Any other call.
    Other,
}
