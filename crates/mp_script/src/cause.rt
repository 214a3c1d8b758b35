/// What is wrong with a line of a script. The first thing that is wrong gives the cause.
#[derive(Clone, Copy, Debug, PartialEq, Eq)]
pub enum ScriptCause {
    /// The first word isn't a number from 0 to 999.
    Actor,
    /// The second word is no verb of this actor.
    Verb,
    /// A word is empty or missing, or there is one too many.
    Words,
    /// A handle's name isn't a number from 0 to 65,535.
    Handle,
    /// An offset or a count isn't a number below 2^63.
    Number,
    /// A word has a `%` without two hexadecimal digits behind it, or a byte that doesn't stand for itself.
    Escape,
    /// A key or a path isn't UTF-8.
    Utf8,
    /// A key is empty or has more than 1,024 bytes.
    Key,
    /// Data has none of its three forms.
    Data,
}

/// What there is too much of in a script.
#[derive(Clone, Copy, Debug, PartialEq, Eq)]
pub enum What {
    /// More than 67,108,864 bytes.
    Bytes,
    /// More than 65,536 lines, those without a request too.
    Lines,
    /// Reads that ask for more than 268,435,456 bytes together.
    Reads,
    /// Data of more than 268,435,456 bytes together.
    Data,
}
