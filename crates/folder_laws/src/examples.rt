//! Worked examples of the laws, computed by the checker over the definitions
//! alone.
//!
//! The first functions do nothing; their contract is the example. What is
//! expected is worked out by hand, so that a wrong definition does not meet it.
//! The last ones give a part of an example by code: the number in a node, and how
//! much is named.

ghost use Rattle.folder_laws.specs.Examples.{
  AreNamed,
  FileIsMade,
  IsSecondNumber,
  NamingsAreOwn,
};

/// A file is made in an exported folder: it is there then, and all else is as it
/// was.
pub fn a_file_is_made()
    ensures { FileIsMade }
{}

/// Two connections of one application name what lies below an exported folder, each
/// by numbers of its own.
pub fn connections_name_for_themselves()
    ensures { NamingsAreOwn }
{}

/// The number in the node of a second name: on the connection that named the first,
/// or on another one of the same application.
pub fn number_of_a_second_name(same_connection: bool) -> u32
    ensures { IsSecondNumber same_connection result }
{
    if same_connection { 2 } else { 1 }
}

/// How much a seat has named after a LOOKUP and a CREATE: while its connection is
/// open, or after it was left and entered again.
pub fn named_by_a_seat(entered_again: bool) -> u32
    ensures { AreNamed entered_again result }
{
    if entered_again { 0 } else { 2 }
}
