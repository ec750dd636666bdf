//! Whether two values are the same.
//!
//! `==` says only that two values are alike by their type's own rule; here they
//! are equal.

ghost use Rattle.std.specs.Prelude.{◌≡◌, IsTrue, ◌↔◌};

use portal_base::list::List;
use portal_base::names::app_id::AppId;
use portal_base::names::doc_id::DocId;
use portal_base::names::host_path::HostPath;
use portal_base::text::Text;

/// A value that can be compared with another of its type, without memory.
pub(crate) trait Same {
    /// Says whether the two are equal.
    fn is_same(&self, other: &Self) -> bool
        ensures { IsTrue result ↔ (self.now ≡ other.now) };
}

impl Same for bool {
    fn is_same(&self, other: &bool) -> bool {
        *self == *other
    }
}

impl Same for u8 {
    fn is_same(&self, other: &u8) -> bool {
        *self == *other
    }
}

impl Same for u32 {
    fn is_same(&self, other: &u32) -> bool {
        *self == *other
    }
}

impl Same for u64 {
    fn is_same(&self, other: &u64) -> bool {
        *self == *other
    }
}

impl Same for Text {
    fn is_same(&self, other: &Text) -> bool {
        same_items(self.as_bytes(), other.as_bytes())
    }
}

impl Same for HostPath {
    fn is_same(&self, other: &HostPath) -> bool {
        same_items(self.as_bytes(), other.as_bytes())
    }
}

impl Same for AppId {
    fn is_same(&self, other: &AppId) -> bool {
        same_items(self.as_bytes(), other.as_bytes())
    }
}

impl Same for DocId {
    fn is_same(&self, other: &DocId) -> bool {
        self.number == other.number
    }
}

impl<T: Same> Same for List<T> {
    fn is_same(&self, other: &List<T>) -> bool {
        same_items(self.as_slice(), other.as_slice())
    }
}

impl<T: Same> Same for Option<T> {
    fn is_same(&self, other: &Option<T>) -> bool {
        match self {
            Some(item) => match other {
                Some(other) => item.is_same(other),
                None => false,
            },
            None => other.is_none(),
        }
    }
}

/// Says whether two slices have the same items.
fn same_items<T: Same>(items: &[T], others: &[T]) -> bool
    ensures { IsTrue result ↔ (items.now ≡ others.now) }
{
    if items.len() != others.len() {
        return false;
    }
    for index in 0..items.len() {
        if !items[index].is_same(&others[index]) {
            return false;
        }
    }
    true
}
