//! The calls of a device in memory, some of which are to fail.

ghost use Rattle.std.specs.Prelude.{◌≡◌, List, ℕ, ◌==◌, true};
ghost use Rattle.std.specs.List.{list_any};
ghost use Rattle.std.specs.List.Sorted.{IsNonDecreasing};
ghost use Rattle.portal_base.specs.Calls.{counted, uncalled, is_to_fail, next_call};

use crate::list::List;
use std::marker::Model;

// The count of calls stops at the greatest `u64`, and every later call has that number.
/// How many calls came, which of them are to fail, and how many failed.
///
/// Where the numbers of those that are to fail rise, a call costs the logarithm
/// of how many they are; else it looks at each of them, since no memory is
/// taken to put them in order.
#[derive(Drop)]
pub struct CallCount {
    made: u64,
    failing: List<u64>,
    rising: bool,
    faults: u64,
}

impl Model for CallCount {
    ghost use Rattle.std.specs.Prelude.{◌≡◌, true};
    ghost use Rattle.std.specs.List.Sorted.{IsNonDecreasing};
    ghost use Rattle.portal_base.specs.Calls.{Counted};

    ghost Value = { Counted };

    ghost view = { λ c. record {
      calls = record { made = c.made; failing = c.failing };
      faults = c.faults;
    } };

    ghost invariant = { λ c. c.rising ≡ true → IsNonDecreasing c.failing };
}

impl CallCount {
    /// No call so far; those of these numbers, counted from 1, are to fail.
    pub fn new(failing: List<u64>) -> CallCount
        ensures { result ≡ uncalled failing }
    {
        let rising = do_rise(&failing);
        CallCount {
            made: 0,
            failing,
            rising,
            faults: 0,
        }
    }

    /// Counts one more call, and says whether it fails.
    ///
    /// Both counts stop at the greatest `u64`.
    pub fn next_fails(&mut self) -> bool
        ensures fails { result ≡ is_to_fail (next_call self.old.calls) }
        ensures counted { self.new ≡ counted self.old result }
    {
        self.made = self.made.saturating_add(1);
        let fails = has_number(&self.failing, self.rising, self.made);
        if fails {
            self.faults = self.faults.saturating_add(1);
        }
        fails
    }
}

/// Says whether none of the numbers is below the one before it.
fn do_rise(numbers: &List<u64>) -> bool
    ensures { result ≡ true → IsNonDecreasing numbers.now }
{
    numbers.as_slice().is_sorted()
}

/// Says whether a number is among others.
fn has_number(numbers: &List<u64>, rising: bool, number: u64) -> bool
    requires { rising ≡ true → IsNonDecreasing numbers.now }
    ensures { result ≡ list_any (λ n. n == number) numbers.now }
{
    if rising {
        return numbers.as_slice().binary_search(&number).is_ok();
    }
    numbers.iter().any(|n| *n == number)
}
