//! What an addition plans to do, and why it is refused.

use portal_base::list::List;
use portal_base::memory::WantOfMemory;
use portal_base::names::{AppId, DocId, HostPath};
use rights_rule::Rights;
use thiserror::Error;

/// What an addition that is allowed does.
#[derive(Debug, Drop)]
pub struct AddPlan {
    /// The files, in the order of the call.
    pub items: List<PlanItem>,
    /// The application that is given permissions, where one is named.
    pub app: Option<AppId>,
    /// The rights that the call lists; the application gets them in each
    /// document.
    pub listed: Rights,
    /// How many documents are new, each of which uses up a number.
    pub used: u32,
}

/// What becomes of one file.
#[derive(Debug, Drop)]
pub struct PlanItem {
    /// The path of its document.
    pub path: HostPath,
    /// The document.
    pub place: PlanUse,
    /// The rights that the caller gets in it: none where that is the host, or
    /// where the file is left out.
    pub own: Rights,
}

/// The document of a file.
#[derive(Clone, Copy, Debug, PartialEq, Eq)]
pub enum PlanUse {
    /// None: the application that is named has the file in its own folder.
    LeftOut,
    /// A live one.
    Live(DocId),
    /// The new one of an item that stands ahead in the same call, by its place
    /// from 0.
    Earlier(u32),
    /// A new one.
    New,
}

/// Why an addition is refused.
#[derive(Clone, Copy, Debug, PartialEq, Eq, Error)]
pub enum AddError {
    /// An argument is none that the call takes.
    #[error("an argument is none that the call takes")]
    InvalidArgument,
    /// An application lists, for the application that is named, rights that it
    /// doesn't have itself then.
    #[error("the caller may not give what it lists")]
    NotAllowed,
    /// There was no memory.
    #[error("no memory for the plan")]
    Memory,
}

impl From<WantOfMemory> for AddError {
    ghost use Rattle.std.specs.Prelude.{◌≡◌};
    ghost use Rattle.add_files.specs.declared.plan.AddError.TheVariants.{Memory};

    ghost from_gives = { λ _ error. error ≡ Memory };

    fn from(_error: WantOfMemory) -> AddError {
        AddError::Memory
    }
}
