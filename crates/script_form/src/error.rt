//! Why no script was read.

use portal_base::memory::WantOfMemory;
use thiserror::Error;

/// Why no script was read.
#[derive(Clone, Copy, Debug, PartialEq, Eq, Error)]
pub enum ScriptError {
    /// The line of this number, counted from 1, is the first that is no line of
    /// a script.
    #[error("line {0} is no line of a script")]
    AtLine(u64),
    /// There was no memory.
    #[error("no memory")]
    Memory,
}

impl From<WantOfMemory> for ScriptError {
    ghost use Rattle.std.specs.Prelude.{◌≡◌};
    ghost use Rattle.script_form.specs.declared.error.ScriptError.TheVariants.{Memory};

    ghost from_gives = { λ _ e. e ≡ Memory };

    fn from(_error: WantOfMemory) -> ScriptError {
        ScriptError::Memory
    }
}
