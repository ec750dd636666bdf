//! Whether the keys of a list rise.

ghost use Rattle.std.specs.Prelude.{◌≡◌, ◌↔◌, IsTrue, map};
ghost use Rattle.record_keeper.specs.SoundRecords.{IsRising};

use portal_model::records::{GrantRecord, Row};
use std::cmp::Ordering;

/// What stands in a list by its key: a row by its application's key, a grant
/// by its application's name.
pub(crate) trait Keyed {
    ghost use Rattle.std.specs.Prelude.{List, ℕ};

    /// The key that it has.
    ghost key_of: { Self → List ℕ };

    /// Its key.
    fn key(&self) -> &[u8]
        ensures { result.now ≡ key_of self.now };
}

impl Keyed for Row {
    ghost key_of = { λ row. row.app };

    fn key(&self) -> &[u8] {
        self.app.as_bytes()
    }
}

impl Keyed for GrantRecord {
    ghost key_of = { λ grant. grant.app };

    fn key(&self) -> &[u8] {
        self.app.as_slice()
    }
}

/// Whether each item's key stands behind that of the one before it, in byte
/// order.
pub(crate) fn keys_rise<T: Keyed>(items: &[T]) -> bool
    ensures { IsTrue result ↔ IsRising (map T.key_of items.now) }
{
    let mut at = 1;
    while at < items.len() {
        if !matches!(items[at - 1].key().cmp(items[at].key()), Ordering::Less) {
            return false;
        }
        at += 1;
    }
    true
}
