//! The lists that tell what an entry is to an application.

ghost use Rattle.std.specs.Prelude.{◌≡◌, option_copied};
ghost use Rattle.portal_model.specs.State.{connection_of as open_connection};
ghost use Rattle.portal_model.specs.Step.{bus_of as open_bus, mount_of as open_mount};

use app_view::ViewBook;
use folder_documents::Namings;
use named_paths::OpenNumbers;
use open_handles::Handles;
use portal_base::who::Kind;
use portal_model::state::Connection;
use save_files::Temps;
use tree_files::TreeFiles;

/// The lists that a portal lends, as they are ahead of an entry, and the files
/// of its tree.
#[derive(Clone, Copy)]
pub struct Lent<'a> {
    /// The documents, the rights in them, and the applications.
    pub book: ViewBook<'a>,
    /// The open connections, but for what they wait for, what they have named and their
    /// temporaries.
    pub connections: &'a [Connection],
    /// What they have open.
    pub handles: &'a Handles,
    /// The numbers of what they have open.
    pub numbers: &'a OpenNumbers,
    /// What they have named below folders that are documents.
    pub namings: &'a Namings,
    /// Their temporaries.
    pub temps: &'a Temps,
    /// The files.
    pub files: &'a TreeFiles,
}

/// The open connection of a seat.
pub fn connection_of(connections: &[Connection], seat: u32) -> Option<&Connection>
    ensures { option_copied result ≡ open_connection connections.now seat }
{
    connections
        .iter()
        .find(|connection| connection.seat == seat)
}

/// The connection, where it is a bus.
pub fn bus_of(connection: Option<&Connection>) -> Option<&Connection>
    ensures { option_copied result ≡ open_bus (option_copied connection.entry) }
{
    match connection {
        Some(connection) if connection.kind == Kind::Bus => Some(connection),
        _ => None,
    }
}

/// The connection, where it is a mount.
pub fn mount_of(connection: Option<&Connection>) -> Option<&Connection>
    ensures { option_copied result ≡ open_mount (option_copied connection.entry) }
{
    match connection {
        Some(connection) if connection.kind == Kind::Mount => Some(connection),
        _ => None,
    }
}
