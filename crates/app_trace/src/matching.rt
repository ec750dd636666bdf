//! Whether two traces are the same.

ghost use Rattle.std.specs.Prelude.{◌≡◌, ◌≤◌, IfNone, IfSome, length, slice_get, take};
ghost use Rattle.app_trace.specs.Matches.{DifferFirst, Matches};
ghost use Rattle.app_trace.specs.Told.{trace_told};

use crate::same::Same;
use crate::trace::Trace;

/// How two traces compare.
#[derive(Clone, Copy, Debug, PartialEq, Eq)]
pub enum TraceMatch {
    /// They are the same.
    Same,
    /// The opening views differ.
    Opening,
    /// The opening views are the same, and this is the first item, from 1, that
    /// differs or that one of the two lacks.
    At(u64),
}

/// Compares two traces; it takes no memory.
///
/// `Same` comes exactly where the opening views and all items are equal, and
/// `Opening` exactly where the views differ.
pub fn same_trace(first: &Trace, second: &Trace) -> TraceMatch
    ensures matches { Matches (trace_told first.now) (trace_told second.now) result }
    ensures only { (other : TraceMatch)
        → Matches (trace_told first.now) (trace_told second.now) other → other ≡ result }
{
    if !first.opening.is_same(&second.opening) {
        return TraceMatch::Opening;
    }
    match first_difference(first.items.as_slice(), second.items.as_slice()) {
        Some(place) => TraceMatch::At(place),
        None => TraceMatch::Same,
    }
}

/// The first place, from 1, at which two lists don't have the same item.
fn first_difference<T: Same>(first: &[T], second: &[T]) -> Option<u64>
    ensures same { IfNone result (first.now ≡ second.now) }
    ensures differ { IfSome result (DifferFirst first.now second.now) }
{
    let both = first.len().min(second.len());
    for place in 0..both {
        if !first[place].is_same(&second[place]) {
            return Some(place as u64 + 1);
        }
    }
    if first.len() == second.len() {
        None
    } else {
        Some(both as u64 + 1)
    }
}
