//! Texts that are known to be names.

ghost use Rattle.std.specs.Prelude.{◌≡◌, true, IfOk};
ghost use Rattle.portal_base.specs.Names.{is_app_name, is_host_path};

use portal_base::memory::WantOfMemory;
use portal_base::names::{AppId, HostPath, NameError};
use std::alloc::Global;

/// The path that a text is known to be.
pub fn known_path(alloc: Global, text: &[u8]) -> Result<HostPath, WantOfMemory>
    requires { is_host_path text.now ≡ true }
    ensures { IfOk result (λ path. path ≡ text.now) }
{
    match HostPath::read(alloc, text) {
        Ok(path) => Ok(path),
        Err(NameError::Memory) => Err(WantOfMemory),
        Err(NameError::BadName { .. }) => unreachable!(),
    }
}

/// The application's name that a text is known to be.
pub fn known_name(alloc: Global, text: &[u8]) -> Result<AppId, WantOfMemory>
    requires { is_app_name text.now ≡ true }
    ensures { IfOk result (λ name. name ≡ text.now) }
{
    match AppId::read(alloc, text) {
        Ok(name) => Ok(name),
        Err(NameError::Memory) => Err(WantOfMemory),
        Err(NameError::BadName { .. }) => unreachable!(),
    }
}
