//! A walk over a spelling: how many bytes it has passed, and where the next one
//! stands.
//!
//! Source: D-Bus Specification, "Marshaling (Wire Format)", "Alignment".

ghost use Rattle.std.specs.Prelude.{◌≡◌, ℕ, ◌+◌, ◌%◌, ◌<◌};
ghost use Rattle.dbus_values.specs.Spells.{gap};
ghost use Rattle.store_data.specs.Walks.{Stands};

/// Where a walk over a spelling has come. The greatest alignment is 8, so of
/// the offset no more has to be known than its distance from a multiple of 8.
#[derive(Clone, Copy)]
pub(crate) struct Walk {
    /// How many bytes it has passed, but at most the greatest `u64`.
    pub(crate) bytes: u64,
    /// How far the next byte stands behind a multiple of 8.
    pub(crate) phase: u64,
}

/// A walk that begins where another has come.
pub(crate) fn from_here(walk: Walk) -> Walk
    ensures { (passed at : ℕ) → Stands passed at walk → Stands 0 at result }
{
    Walk {
        bytes: 0,
        phase: walk.phase,
    }
}

/// So many bytes on.
pub(crate) fn passing(walk: Walk, count: u64) -> Walk
    ensures { (passed at : ℕ) → Stands passed at walk → Stands (passed + count) (at
        + count) result }
{
    Walk {
        bytes: walk.bytes.saturating_add(count),
        phase: (walk.phase % 8 + count % 8) % 8,
    }
}

/// On to a multiple of an alignment.
pub(crate) fn padded(walk: Walk, to: u64) -> Walk
    requires some { 0 < to }
    requires divides { 8 % to ≡ 0 }
    ensures { (passed at : ℕ) → Stands passed at walk
        → Stands (passed + gap to at) (at + gap to at) result }
{
    passing(walk, (to - walk.phase % to) % to)
}
