use mp_types::Items;

/// In which order a driven run goes on where several events may come.
#[derive(Drop)]
pub enum Schedule {
    /// Always the first choice.
    Oldest,
    /// The next number of the list modulo the count of choices, and 0 after its end.
    List(Items<u32>),
}
