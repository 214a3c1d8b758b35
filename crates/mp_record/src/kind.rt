/// What an item of a record tells.
#[derive(Clone, Copy, Debug)]
pub enum Kind {
    Event,
    Drop,
    Ask,
    Reply,
}

/// The kinds in the order in which the text of a step has them.
pub const KINDS: [Kind; 4] = [Kind::Event, Kind::Drop, Kind::Ask, Kind::Reply];
