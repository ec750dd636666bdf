//! Laws of plans, for the crates that stand on the definitions.
//!
//! Each function does nothing; its contract is the law.

ghost use Rattle.add_calls.specs.Limits.{LimitsAsPlanned};
ghost use Rattle.add_calls.specs.Shown.{LooksAreGiven};

/// A plan that is followed makes as many documents as it says, and whether it
/// passes a limit doesn't depend on the numbers that they get.
pub fn limits_need_no_numbers()
    ensures { LimitsAsPlanned }
{}

/// What a tree shows at paths, up to a call that fails, is what a walk is given
/// that looks at these paths and then answers; without a fault it comes to that
/// answer.
pub fn looks_are_given()
    ensures { LooksAreGiven }
{}
