//! The base types that every crate above shares: texts, keys, ETags, paths, a script's data, errors.
//! Each is seen by contracts as plain values: a text as its bytes, a list as a list.
//! Nothing here knows of buckets, requests or records.
#![tactic(auto)]

mod errno;
mod etag;
mod items;
mod key;
mod octets;
mod options;
mod path;
mod plain;
mod shared;
mod text;

pub use errno::Errno;
pub use etag::{ETag, ETagFault};
pub use items::Items;
pub use key::{Key, KeyFault};
pub use octets::Data;
pub use options::{MAX_HANDLES, Opts};
pub use path::{FilePath, PathFault, below_root, is_name};
pub use plain::is_plain;
pub use shared::Shared;
pub use text::{Text, behind};

/// Any bytes, seen by contracts as their list.
pub type Octets = Items<u8>;
