//! Worked examples of the definitions, computed by the checker over the
//! definitions alone.
//!
//! Each function does nothing; its contract is the example. What is expected
//! is worked out by hand, so that a wrong definition does not meet it.

ghost use Rattle.portal_model.specs.Examples.{
  AnswersOfSeats,
  AttributesOfGrantedFile,
  CostsOfRequests,
  FailedLook,
  ForeignIsAsMissing,
  LeaveAndCollect,
};

/// An application that may read and write a document of five bytes is told
/// the attributes of its file.
pub fn attributes_of_a_granted_file()
    ensures { AttributesOfGrantedFile }
{}

/// A document of another application's and one that isn't there are answered
/// alike.
pub fn a_foreign_document_is_as_a_missing_one()
    ensures { ForeignIsAsMissing }
{}

/// An Enter costs 128 bytes and those of the application's name, a Collect and
/// a request for attributes 128 bytes, and a Leave nothing.
pub fn costs_of_requests()
    ensures { CostsOfRequests }
{}

/// A request on a node needs the seat's own open mount, an Enter a seat
/// without a connection, and no handle is open yet.
pub fn answers_of_seats()
    ensures { AnswersOfSeats }
{}

/// A Leave ends the seat's own connection, and a Collect tells a bus once what
/// it was not told yet.
pub fn leave_and_collect()
    ensures { LeaveAndCollect }
{}

/// A look that failed is answered EIO.
pub fn a_failed_look()
    ensures { FailedLook }
{}
