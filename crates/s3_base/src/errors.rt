/// An error number of a file operation, as in POSIX `errno.h`.
#[derive(Clone, Copy, Debug, PartialEq, Eq)]
pub struct Errno(pub u16);

/// The errors that operations are refused with. `specs/Errors.antt` has the same numbers under the same names.
impl Errno {
    /// Operation not permitted.
    pub const EPERM: Errno = Errno(1);

    /// No such file or directory.
    pub const ENOENT: Errno = Errno(2);

    /// Argument list too long.
    pub const E2BIG: Errno = Errno(7);

    /// Bad file descriptor.
    pub const EBADF: Errno = Errno(9);

    /// File exists.
    pub const EEXIST: Errno = Errno(17);

    /// Not a directory.
    pub const ENOTDIR: Errno = Errno(20);

    /// Is a directory.
    pub const EISDIR: Errno = Errno(21);

    /// Invalid argument.
    pub const EINVAL: Errno = Errno(22);

    /// File too large.
    pub const EFBIG: Errno = Errno(27);

    /// No space left on device.
    pub const ENOSPC: Errno = Errno(28);

    /// File name too long.
    pub const ENAMETOOLONG: Errno = Errno(36);

    /// Function not implemented.
    pub const ENOSYS: Errno = Errno(38);

    /// Directory not empty.
    pub const ENOTEMPTY: Errno = Errno(39);

    /// No data available.
    pub const ENODATA: Errno = Errno(61);
}

/// A source, a sink or another device could not do what it was asked.
#[derive(Clone, Copy, Debug, PartialEq, Eq)]
pub struct Failed;
