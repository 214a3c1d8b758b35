ghost use Rattle.std.specs.Prelude.{◌≡◌};
ghost use Rattle.mp_rules.specs.Entry.{kind_of};

use mp_types::{ETag, Text};

/// What the mount itself keeps under a name, until the bucket has it.
#[derive(Clone, Copy, Debug, PartialEq, Eq)]
pub enum Local {
    None,
    Dir,
    /// A file that is being written, with how many bytes it has.
    File { size: u64 },
}

/// What stands at a name. Of a file, remote means that it is an object.
#[derive(Clone, Copy, Debug, PartialEq, Eq)]
pub enum Kind {
    RemoteDir,
    LocalDir,
    LocalFile,
    RemoteFile,
    Nothing,
}

/// What a walk finds at a path.
#[derive(Debug, Drop, PartialEq, Eq)]
pub enum Entry {
    /// Some key lies below it.
    RemoteDir,
    /// It was made here, or a name of the mount's own lies below it.
    LocalDir,
    /// A file that is being written, with how many bytes it has.
    LocalFile { size: u64 },
    /// An object of this ETag and this many bytes, with no key below it.
    File { etag: ETag, size: u64 },
    Nothing,
}

/// One name in a listing, and what stands there.
#[derive(Debug, Drop, PartialEq, Eq)]
pub enum DirEntry {
    /// A directory of the bucket or of the mount's own.
    Dir { name: Text },
    /// An object, with its size in bytes.
    Remote { size: u64, name: Text },
    /// A file that is being written, with how many bytes it has.
    Writing { size: u64, name: Text },
}

/// What stands at a name, by whether some key lies below it, what is kept under it, and the size of the object with
/// its key. A remote directory hides all else, and what is local hides the object, as Mountpoint says.
pub fn entry_of(probe: bool, local: Local, head: Option<u64>) -> Kind
    ensures { result ≡ kind_of probe local head }
{
    if probe {
        return Kind::RemoteDir;
    }
    match local {
        Local::Dir => Kind::LocalDir,
        Local::File { .. } => Kind::LocalFile,
        Local::None => match head {
            Some(_) => Kind::RemoteFile,
            None => Kind::Nothing,
        },
    }
}
