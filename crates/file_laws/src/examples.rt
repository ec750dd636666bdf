//! Worked examples of the laws, computed by the checker over the definitions
//! alone.
//!
//! The first functions do nothing; their contract is the example. What is
//! expected is worked out by hand, so that a wrong definition does not meet it.
//! The last ones give a part of an example by code: how many bytes are told, or
//! the number of a handle, or else the number of an error; and rights.

ghost use Rattle.file_laws.specs.Examples.{
  BothLawsApply,
  IsFirstElsewhere,
  IsToldToOpener,
  IsToldToReader,
  IsToldToWriter,
  RightsGivenAgain,
  WhatEndsAHandle,
};
ghost use Rattle.file_laws.specs.HandleLimits.{HandlesAreLimited};
ghost use Rattle.file_laws.specs.HostExamples.{HostSeesByRights};
ghost use Rattle.file_laws.specs.ReuseExamples.{UsedAgainIsShared};
ghost use Rattle.file_laws.specs.StrictExamples.{
  IsToldToStrictReader,
  RevocationsReachStrict,
  ViewsGoBySubjects,
};
ghost use Rattle.file_laws.specs.TouchExamples.{
  AreItemsTold,
  IsToldOfAGrant,
  OtherPathIsNotTold,
  SharedFileIsTold,
};

use portal_model::errno::{EACCES, ENOENT};
use rights_rule::Rights;

/// Which entries take a right and give it again, and that a file is opened then.
pub fn rights_given_again()
    ensures { RightsGivenAgain }
{}

/// Which entries end a handle: a release of it and the end of its connection, and
/// none of another seat.
pub fn what_ends_a_handle()
    ensures { WhatEndsAHandle }
{}

/// A legal history in which a right is taken and given again, a file is opened
/// ahead of it and behind, and is read by the older handle between.
pub fn both_laws_apply()
    ensures { BothLawsApply }
{}

/// Two applications have a document each of one file: of what the one asks, the
/// other is told the bytes that were written alone.
pub fn shared_file_is_told()
    ensures { SharedFileIsTold }
{}

/// Where their documents are of two files, the other is told nothing.
pub fn other_path_is_not_told()
    ensures { OtherPathIsNotTold }
{}

/// A document that is used again is shared: who gains it is told what the other
/// writes, and the other is told nothing of it.
pub fn a_document_is_used_again()
    ensures { UsedAgainIsShared }
{}

/// A connection opens up to its limit of handles, whatever that is, and each gets
/// the next number.
pub fn handles_up_to_their_limit()
    ensures { HandlesAreLimited }
{}

/// The host sees the file of an application's view with the mode that its rights
/// give.
pub fn the_host_sees_by_rights()
    ensures { HostSeesByRights }
{}

/// A handle of a strict document loses what it may do as rights are taken, gets it
/// again as they are given, and may be flushed and released after the document was
/// deleted.
pub fn revocations_reach_strict_handles()
    ensures { RevocationsReachStrict }
{}

/// Such a handle that the host opened in an application's view goes by the rights of
/// the application.
pub fn views_go_by_their_subjects()
    ensures { ViewsGoBySubjects }
{}

/// How many bytes an application reads by a handle after its rights were taken.
pub fn read_after_a_revocation() -> Result<u32, u32>
    ensures { IsToldToReader result }
{
    Ok(5)
}

/// How an application is refused as it reads by a handle of a strict document after
/// its right to read was taken.
pub fn read_by_a_strict_handle() -> Result<u32, u32>
    ensures { IsToldToStrictReader result }
{
    Err(EACCES)
}

/// How the same application is refused as it opens the file then.
pub fn opened_after_a_revocation() -> Result<u64, u32>
    ensures { IsToldToOpener result }
{
    Err(ENOENT)
}

/// How many bytes of one an application writes by a handle after the document was
/// deleted.
pub fn written_after_a_deletion() -> Result<u32, u32>
    ensures { IsToldToWriter result }
{
    Ok(1)
}

/// The number of the first handle of a connection, where another has one open.
pub fn first_number_of_another_connection() -> u64
    ensures { IsFirstElsewhere result }
{
    1
}

/// How many items the trace of an application has that enters, opens a file and
/// reads it, while another opens and writes a file: the same, or that of another
/// path.
pub fn items_of_a_trace(same_path: bool) -> u32
    ensures { AreItemsTold same_path result }
{
    if same_path { 4 } else { 3 }
}

/// The rights that an application which may read a document is told of, as it is
/// given the rights to read, to write and to delete it.
pub fn rights_told_of_a_grant() -> Rights
    ensures { IsToldOfAGrant result }
{
    Rights::WRITE.union(Rights::DELETE)
}
