//! Which documents may be kept, as far as that depends on each alone.

ghost use Rattle.std.specs.Prelude.{◌↔◌, IsTrue};
ghost use Rattle.std.specs.List.{All};
ghost use Rattle.record_keeper.specs.SoundRecords.{IsGrant, IsSoundDocument};

use crate::keys::keys_rise;
use portal_base::names::app_id::AppId;
use portal_base::names::host_path::HostPath;
use portal_model::records::{DocRecord, GrantRecord};

/// All four rights together.
const ALL_RIGHTS: u8 = 15;

/// Whether a document may be kept, as far as that depends on it alone: its path
/// is one on the host, and the names of applications that it grants rights to keep
/// their rule and stand in rising byte order, each with at least one of the four
/// rights and no other.
pub fn is_sound_document(document: &DocRecord) -> bool
    ensures { IsTrue result ↔ IsSoundDocument document.now }
{
    let grants = document.grants.as_slice();
    HostPath::is_path(document.path.as_slice()) && are_grants(grants) && keys_rise(grants)
}

/// Whether an application gets at least one of the four rights, and no other,
/// and its name is one.
fn is_grant(grant: &GrantRecord) -> bool
    ensures { IsTrue result ↔ IsGrant grant.now }
{
    grant.rights != 0 && grant.rights <= ALL_RIGHTS && AppId::is_name(grant.app.as_slice())
}

/// Whether each of them is such a grant.
fn are_grants(grants: &[GrantRecord]) -> bool
    ensures { IsTrue result ↔ All IsGrant grants.now }
{
    for grant in grants {
        if !is_grant(grant) {
            return false;
        }
    }
    true
}
