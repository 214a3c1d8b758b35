ghost use Rattle.std.specs.Prelude.{◌≡◌};
ghost use Rattle.mp_types.specs.Errno.{number_of};

/// The Linux errors that a request can be answered with.
#[derive(Clone, Copy, Debug, PartialEq, Eq)]
pub enum Errno {
    Eperm,
    Enoent,
    Eio,
    Ebadf,
    Enomem,
    Eexist,
    Enotdir,
    Eisdir,
    Einval,
    Emfile,
    Efbig,
    Enametoolong,
    Enotempty,
    Eoverflow,
    Estale,
}

impl Errno {
    /// The number that Linux gives the error.
    pub fn number(self) -> u8
        ensures { result ≡ number_of self }
    {
        match self {
            Errno::Eperm => 1,
            Errno::Enoent => 2,
            Errno::Eio => 5,
            Errno::Ebadf => 9,
            Errno::Enomem => 12,
            Errno::Eexist => 17,
            Errno::Enotdir => 20,
            Errno::Eisdir => 21,
            Errno::Einval => 22,
            Errno::Emfile => 24,
            Errno::Efbig => 27,
            Errno::Enametoolong => 36,
            Errno::Enotempty => 39,
            Errno::Eoverflow => 75,
            Errno::Estale => 116,
        }
    }
}
