//! The law of paths. The function does nothing; its contract is the law.

ghost use Rattle.serve_start.specs.Sockets.{PathsTell};

/// Of two sockets in one folder with one path, one caller has both, and both speak the
/// same: a path tells whose a socket is.
pub fn paths_tell()
    ensures { PathsTell }
{}
