//! Laws of polls, one after another.
//!
//! Each function does nothing; its contract is the law.

ghost use Rattle.poll_laws.specs.Laws.{Join, Whole};

/// What polls in a row did is what each did, one behind the other.
pub fn polls_join()
    ensures { Join }
{}

/// What polls did from the first to the one that is ready is a connection served.
pub fn polls_are_a_connection()
    ensures { Whole }
{}
