//! The opcodes of requests.

ghost use Rattle.std.specs.Prelude.{◌≡◌};
ghost use Rattle.fuse_wire.specs.Opcodes.{opcode_of};

/// An opcode of `enum fuse_opcode`, as far as requests with it are told apart.
#[derive(Clone, Copy, PartialEq, Eq)]
pub enum Opcode {
    /// FUSE_LOOKUP.
    Lookup,
    /// FUSE_FORGET.
    Forget,
    /// FUSE_GETATTR.
    GetAttr,
    /// FUSE_SETATTR.
    SetAttr,
    /// FUSE_MKNOD.
    MkNod,
    /// FUSE_MKDIR.
    MkDir,
    /// FUSE_UNLINK.
    Unlink,
    /// FUSE_RMDIR.
    RmDir,
    /// FUSE_RENAME.
    Rename,
    /// FUSE_OPEN.
    Open,
    /// FUSE_READ.
    Read,
    /// FUSE_WRITE.
    Write,
    /// FUSE_STATFS.
    Statfs,
    /// FUSE_RELEASE.
    Release,
    /// FUSE_FSYNC.
    Fsync,
    /// FUSE_FLUSH.
    Flush,
    /// FUSE_INIT.
    Init,
    /// FUSE_OPENDIR.
    OpenDir,
    /// FUSE_READDIR.
    ReadDir,
    /// FUSE_RELEASEDIR.
    ReleaseDir,
    /// FUSE_ACCESS.
    Access,
    /// FUSE_CREATE.
    Create,
    /// FUSE_INTERRUPT.
    Interrupt,
    /// FUSE_DESTROY.
    Destroy,
    /// FUSE_BATCH_FORGET.
    BatchForget,
    /// FUSE_RENAME2.
    Rename2,
    /// Any other.
    Other,
}

const FUSE_LOOKUP: u32 = 1;

const FUSE_FORGET: u32 = 2;

const FUSE_GETATTR: u32 = 3;

const FUSE_SETATTR: u32 = 4;

const FUSE_MKNOD: u32 = 8;

const FUSE_MKDIR: u32 = 9;

const FUSE_UNLINK: u32 = 10;

const FUSE_RMDIR: u32 = 11;

const FUSE_RENAME: u32 = 12;

const FUSE_OPEN: u32 = 14;

const FUSE_READ: u32 = 15;

const FUSE_WRITE: u32 = 16;

const FUSE_STATFS: u32 = 17;

const FUSE_RELEASE: u32 = 18;

const FUSE_FSYNC: u32 = 20;

const FUSE_FLUSH: u32 = 25;

const FUSE_INIT: u32 = 26;

const FUSE_OPENDIR: u32 = 27;

const FUSE_READDIR: u32 = 28;

const FUSE_RELEASEDIR: u32 = 29;

const FUSE_ACCESS: u32 = 34;

const FUSE_CREATE: u32 = 35;

const FUSE_INTERRUPT: u32 = 36;

const FUSE_DESTROY: u32 = 38;

const FUSE_BATCH_FORGET: u32 = 42;

const FUSE_RENAME2: u32 = 45;

/// The opcode of a number.
pub fn opcode_of(number: u32) -> Opcode
    ensures { result ≡ opcode_of number }
{
    match number {
        FUSE_LOOKUP => Opcode::Lookup,
        FUSE_FORGET => Opcode::Forget,
        FUSE_GETATTR => Opcode::GetAttr,
        FUSE_SETATTR => Opcode::SetAttr,
        FUSE_MKNOD => Opcode::MkNod,
        FUSE_MKDIR => Opcode::MkDir,
        FUSE_UNLINK => Opcode::Unlink,
        FUSE_RMDIR => Opcode::RmDir,
        FUSE_RENAME => Opcode::Rename,
        FUSE_OPEN => Opcode::Open,
        FUSE_READ => Opcode::Read,
        FUSE_WRITE => Opcode::Write,
        FUSE_STATFS => Opcode::Statfs,
        FUSE_RELEASE => Opcode::Release,
        FUSE_FSYNC => Opcode::Fsync,
        FUSE_FLUSH => Opcode::Flush,
        FUSE_INIT => Opcode::Init,
        FUSE_OPENDIR => Opcode::OpenDir,
        FUSE_READDIR => Opcode::ReadDir,
        FUSE_RELEASEDIR => Opcode::ReleaseDir,
        FUSE_ACCESS => Opcode::Access,
        FUSE_CREATE => Opcode::Create,
        FUSE_INTERRUPT => Opcode::Interrupt,
        FUSE_DESTROY => Opcode::Destroy,
        FUSE_BATCH_FORGET => Opcode::BatchForget,
        FUSE_RENAME2 => Opcode::Rename2,
        _ => Opcode::Other,
    }
}
