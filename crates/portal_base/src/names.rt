//! The names of applications, paths on the host, and document identifiers.

use crate::memory::WantOfMemory;
use thiserror::Error;

pub mod app_id;
pub mod doc_id;
pub mod host_path;
mod path_reader;

pub use app_id::AppId;
pub use doc_id::DocId;
pub use host_path::HostPath;

/// Why a text is no name.
#[derive(Clone, Copy, Debug, PartialEq, Eq, Error)]
pub enum NameError {
    // The place is the least at which the text can't go on to be a name. A length that is stated
    // of a name is a limit apart from its form: a path of 4,095 bytes that ends in `/` breaks at
    // its length.
    /// The text breaks the rule of the name first at this place, in bytes from
    /// its start.
    #[error("the name breaks its rule at byte {at}")]
    BadName {
        /// The least place where the rule is broken.
        at: u32,
    },
    /// There was no memory.
    #[error("no memory for a name")]
    Memory,
}

impl From<WantOfMemory> for NameError {
    ghost use Rattle.std.specs.Prelude.{◌≡◌};
    ghost use Rattle.portal_base.specs.declared.names.NameError.TheVariants.{Memory};

    ghost from_gives = { λ _ error. error ≡ Memory };

    fn from(_error: WantOfMemory) -> NameError {
        NameError::Memory
    }
}
