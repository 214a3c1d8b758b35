ghost use Rattle.std.specs.Prelude.{◌≡◌};
ghost use Rattle.mp_types.specs.Options.{AreWithin, default_options};

/// At most this many handles are live at once.
pub const MAX_HANDLES: usize = 4_096;

/// What a mount is told at its start.
#[derive(Clone, Copy, Debug, PartialEq, Eq)]
pub struct Opts {
    /// How many bytes each part of an upload has, but the last: 1 to 1,073,741,824. The default is 8 MiB, as
    /// Mountpoint's.
    pub part: u64,
    /// How many items each page of a listing has at most: 1 to 1,000. The default is 1,000, the most that Amazon S3 gives.
    pub page: u32,
    /// Whether `unlink` may delete objects. Mountpoint's default is that it may not.
    pub allow_delete: bool,
    /// Whether an object may be overwritten, by an open that truncates. Mountpoint's default is that it may not.
    pub allow_overwrite: bool,
}

impl Default for Opts {
    fn default() -> Opts
        ensures is { result ≡ default_options }
        ensures within { AreWithin result }
    {
        Opts {
            part: 8_388_608,
            page: 1_000,
            allow_delete: false,
            allow_overwrite: false,
        }
    }
}
