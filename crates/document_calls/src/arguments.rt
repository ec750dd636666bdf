//! Paths, as they come.

ghost use Rattle.std.specs.Prelude.{◌≡◌, IfOk};
ghost use Rattle.portal_model.specs.Arguments.{ahead_of_end, has_end};
ghost use Rattle.document_calls.specs.Arguments.{path_if_ended};

use portal_base::memory::WantOfMemory;
use portal_base::names::{HostPath, NameError};
use std::alloc::Global;

/// The path of bytes that a zero byte ends, where they are such.
pub fn ended_path(alloc: Global, bytes: &[u8]) -> Result<Option<HostPath>, WantOfMemory>
    ensures { IfOk result (λ path. path ≡ path_if_ended bytes.now) }
{
    // A path without the zero byte that ends it is refused as one that is none.
    if !has_end(bytes) {
        return Ok(None);
    }
    match HostPath::read(alloc, ahead_of_end(bytes)) {
        Ok(path) => Ok(Some(path)),
        Err(NameError::BadName { .. }) => Ok(None),
        Err(NameError::Memory) => Err(WantOfMemory),
    }
}

/// Says whether bytes end with a zero byte.
fn has_end(bytes: &[u8]) -> bool
    ensures { result ≡ has_end bytes.now }
{
    match bytes {
        [.., last] => *last == 0,
        [] => false,
    }
}

/// The bytes but for the last.
fn ahead_of_end(bytes: &[u8]) -> &[u8]
    ensures { result.now ≡ ahead_of_end bytes.now }
{
    &bytes[..bytes.len().saturating_sub(1)]
}
