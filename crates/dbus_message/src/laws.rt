//! Laws of messages, for the crates that stand on this one.
//!
//! Each function does nothing; its contract is the law.

ghost use Rattle.dbus_message.specs.Laws.{FrontsAreOne, FrontsAreWhole, FrontsStand, ReadingsAreOne, WrittenAreOne};

/// A whole message at the front of bytes stands at the front of each list that
/// begins with it: alone, and with more behind. A header that breaks a rule
/// breaks it whatever follows.
pub fn fronts_stand()
    ensures { FrontsStand }
{}

/// The bytes of a whole message at the front are whole: `read_message` reads
/// them. What is whole is a whole message at its own front.
pub fn fronts_are_whole()
    ensures { FrontsAreWhole }
{}

/// Something stands at the front of bytes, and it is one.
pub fn fronts_are_one()
    ensures { FrontsAreOne }
{}

/// Bytes as long as their header states are one message, or one rule is the
/// first that they break, and not both.
pub fn readings_are_one()
    ensures { ReadingsAreOne }
{}

/// What is written is a function of the message and its serial.
pub fn written_are_one()
    ensures { WrittenAreOne }
{}
