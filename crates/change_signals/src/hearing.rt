//! Who hears of changes.
//!
//! Source: XDG Desktop Portal documentation,
//! `org.freedesktop.impl.portal.PermissionStore`: its callers are on the side of the host.

ghost use Rattle.std.specs.Prelude.{◌≡◌};
ghost use Rattle.portal_model.specs.Valid.{is_host_bus};

use portal_base::who::{Kind, Who};

/// Says whether a connection of this caller and kind is told each change of the permission
/// store: the host's to the bus are, and no application's.
pub fn hears_of_changes(who: &Who, kind: Kind) -> bool
    ensures { result ≡ is_host_bus who.now kind }
{
    match (who, kind) {
        (Who::Host, Kind::Bus) => true,
        (Who::Host, Kind::Mount) => false,
        (Who::App(_), _) => false,
    }
}
