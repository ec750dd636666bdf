//! The numbers of errors, as `include/uapi/asm-generic/errno-base.h` and
//! `errno.h` give them.

ghost use Rattle.std.specs.Prelude.{◌≡◌};
ghost use Rattle.portal_model.specs.Errno.{eacces, ebadf, eexist, efbig, einval, eio, eisdir, emfile, enametoolong, enoent, enomem, enospc, enosys, enotdir, eperm, eproto, exdev};

/// Operation not permitted.
pub const EPERM: u32 = 1;
/// No such file or directory.
pub const ENOENT: u32 = 2;
/// I/O error.
pub const EIO: u32 = 5;
/// Bad file number.
pub const EBADF: u32 = 9;
/// Out of memory.
pub const ENOMEM: u32 = 12;
/// Permission denied.
pub const EACCES: u32 = 13;
/// File exists.
pub const EEXIST: u32 = 17;
/// Cross-device link.
pub const EXDEV: u32 = 18;
/// Not a directory.
pub const ENOTDIR: u32 = 20;
/// Is a directory.
pub const EISDIR: u32 = 21;
/// Invalid argument.
pub const EINVAL: u32 = 22;
/// Too many open files.
pub const EMFILE: u32 = 24;
/// File too large.
pub const EFBIG: u32 = 27;
/// No space left on device.
pub const ENOSPC: u32 = 28;
/// File name too long.
pub const ENAMETOOLONG: u32 = 36;
/// Function not implemented.
pub const ENOSYS: u32 = 38;
/// Protocol error.
pub const EPROTO: u32 = 71;

/// Each is the number that the headers give.
///
/// It does nothing; its contract is the law.
pub fn errnos_are_told()
    ensures is_eperm { EPERM ≡ eperm }
    ensures is_enoent { ENOENT ≡ enoent }
    ensures is_eio { EIO ≡ eio }
    ensures is_ebadf { EBADF ≡ ebadf }
    ensures is_enomem { ENOMEM ≡ enomem }
    ensures is_eacces { EACCES ≡ eacces }
    ensures is_eexist { EEXIST ≡ eexist }
    ensures is_exdev { EXDEV ≡ exdev }
    ensures is_enotdir { ENOTDIR ≡ enotdir }
    ensures is_eisdir { EISDIR ≡ eisdir }
    ensures is_einval { EINVAL ≡ einval }
    ensures is_emfile { EMFILE ≡ emfile }
    ensures is_efbig { EFBIG ≡ efbig }
    ensures is_enospc { ENOSPC ≡ enospc }
    ensures is_enametoolong { ENAMETOOLONG ≡ enametoolong }
    ensures is_enosys { ENOSYS ≡ enosys }
    ensures is_eproto { EPROTO ≡ eproto }
{}
