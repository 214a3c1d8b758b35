ghost use Rattle.std.specs.Prelude.{◌<◌, length};

use memchr::{memchr, memmem};

/// A text in two parts.
#[derive(Clone, Copy)]
pub struct Parted<'a> {
    pub before: &'a [u8],
    pub after: &'a [u8],
}

/// What stands before the first separator, and what stands behind it; the whole where there is none.
pub fn cut(text: &[u8], separator: u8) -> Parted<'_> {
    match memchr(separator, text) {
        Some(at) => {
            let (before, rest) = text.split_at(at);
            Parted {
                before,
                after: &rest[1..],
            }
        }
        None => Parted {
            before: text,
            after: &[],
        },
    }
}

/// The first row with all its lines, and the rows behind it.
pub fn first_row(table: &[u8]) -> Parted<'_>
    requires { 0 < length table.now }
    ensures { length result.after.now < length table.now }
{
    match memmem::find(table, b"\n= ") {
        Some(at) => {
            let (before, after) = table.split_at(at + 1);
            Parted { before, after }
        }
        None => Parted {
            before: table,
            after: &[],
        },
    }
}
