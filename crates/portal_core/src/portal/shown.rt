//! The state after the history, as the lists that hold it, and the history itself.

ghost use Rattle.std.specs.Prelude.{◌≡◌, map};
ghost use Rattle.app_view.specs.Books.{Lends as LendsBook};
ghost use Rattle.file_ops.specs.SeatNames.{AreNamed};
ghost use Rattle.file_ops.specs.SeatTemps.{AreTemps};
ghost use Rattle.node_looks.specs.OpenHandles.{AreOpen};
ghost use Rattle.portal_steps.specs.Story.{limit_of, state_now};
ghost use Rattle.store_serving.specs.Waiting.{silent};

use crate::portal::Portal;
use app_view::ViewBook;
use folder_documents::Namings;
use host_tree::HostTree;
use open_handles::Handles;
use portal_base::outside::{Clock, Words};
use portal_history::History;
use portal_model::opening::OpeningState;
use portal_model::state::Connection;
use record_keeper::Keeper;
use save_files::Temps;

impl<T: HostTree, K: Keeper, C: Clock, W: Words> Portal<T, K, C, W> {
    /// The state that the history began in. Its files are those that the tree
    /// began with, whatever its own list has.
    pub fn opening(&self) -> &OpeningState
        ensures { result.now ≡ self.now.story.opening }
    {
        &self.opening
    }

    /// The history: every request that was answered, in order.
    pub fn history(&self) -> &History
        ensures entries { result.now.entries ≡ self.now.story.history }
        ensures limit { result.now.limit ≡ limit_of self.now.story }
    {
        &self.history
    }

    /// The lists of documents, of rights and of applications.
    pub fn book(&self) -> ViewBook<'_>
        ensures { LendsBook result (state_now self.now.story) }
    {
        ViewBook {
            documents: &self.documents,
            grants: &self.rights,
            applications: &self.applications,
        }
    }

    /// The open connections, but for what they wait for, what they have named and their
    /// temporaries.
    pub fn connections(&self) -> &[Connection]
        ensures { result.now ≡ map silent (state_now self.now.story).connections }
    {
        self.connections.as_slice()
    }

    /// What each connection has open.
    pub fn handles(&self) -> &Handles
        ensures { AreOpen (state_now self.now.story) result.now }
    {
        &self.handles
    }

    /// What each connection has named below folders that are documents.
    pub fn namings(&self) -> &Namings
        ensures { AreNamed (state_now self.now.story) result.now }
    {
        &self.namings
    }

    /// The temporaries of each connection, and the generations that were taken.
    pub fn temps(&self) -> &Temps
        ensures { AreTemps (state_now self.now.story) result.now }
    {
        &self.temps
    }
}
