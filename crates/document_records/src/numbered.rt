//! The applications that an opening state numbers.

ghost use Rattle.std.specs.Prelude.{◌≡◌, ◌≤◌, length, IfOk};
ghost use Rattle.std.specs.List.{IsDistinct};
ghost use Rattle.portal_base.specs.Names.{is_same};
ghost use Rattle.portal_model.specs.Valid.{applications_limit};

use crate::Applications;
use portal_base::memory::WantOfMemory;
use portal_base::names::AppId;
use std::alloc::Global;

/// The numbered applications, which differ.
pub fn applications(alloc: Global, names: &[AppId]) -> Result<Applications, WantOfMemory>
    requires differ { IsDistinct is_same names.now }
    requires few { length names.now ≤ applications_limit }
    ensures { IfOk result (λ applications. applications ≡ names.now) }
{
    let mut applications = Applications::new(alloc);
    for name in names {
        applications.number(name)?;
    }
    Ok(applications)
}
