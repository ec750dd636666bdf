//! Why a line of a script is not run.

use portal_base::memory::WantOfMemory;

/// Why a line is not run.
#[derive(Clone, Copy, Debug, PartialEq, Eq)]
pub enum LineError {
    /// The write of its output failed.
    WriteFault,
    /// There was no memory.
    Memory,
}

impl From<WantOfMemory> for LineError {
    ghost use Rattle.std.specs.Prelude.{◌≡◌};
    ghost use Rattle.script_replay.specs.declared.error.LineError.TheVariants.{Memory};

    ghost from_gives = { λ _ e. e ≡ Memory };

    fn from(_error: WantOfMemory) -> LineError {
        LineError::Memory
    }
}
