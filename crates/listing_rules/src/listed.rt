/// What a listing shows under a name.
#[derive(Clone, Copy, Debug, PartialEq, Eq)]
pub enum Listed {
    /// A directory of the bucket or of the mount's own.
    Dir,
    /// An object of so many bytes.
    Remote { size: u64 },
    /// A file that is being written, of so many bytes so far.
    Writing { size: u64 },
}
