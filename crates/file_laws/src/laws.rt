//! The laws. Each function does nothing; its contract is the law.

ghost use Rattle.file_laws.specs.KeptHandles.{OlderHandlesKeepTheirRights};
ghost use Rattle.file_laws.specs.OnlyAllowed.{OnlyAllowedIsDone};
ghost use Rattle.file_laws.specs.Revocations.{NoOpenAfterARevocation};
ghost use Rattle.file_laws.specs.StrictHandles.{StrictHandlesFollowRevocations};
ghost use Rattle.file_laws.specs.Touches.{TouchesAreOfWhatIsHeld};

/// What an application opens it may read then, and write where it opens to write
/// or truncates: if an earlier entry took such a right, a later one ahead of the
/// OPEN gave it again.
pub fn no_open_after_a_revocation()
    ensures { NoOpenAfterARevocation }
{}

/// What reads, writes, flushes or asks for attributes by the number of a handle
/// goes by the handle that was opened by that number, whatever was revoked or
/// deleted since, as long as its own connection neither released it nor ended. What
/// a handle of a document that isn't strict may do depends on no right.
pub fn older_handles_keep_their_rights()
    ensures { OlderHandlesKeepTheirRights }
{}

/// What an application reads or writes by a handle of a strict document, and what it
/// asks or sets of its attributes, is done only where it has the right to read the
/// document then, and the right to write it for a WRITE and for a length that is set.
pub fn strict_handles_follow_revocations()
    ensures { StrictHandlesFollowRevocations }
{}

/// What the entries of others tell an application: a file that a request changes,
/// once and as the tree has it then, where an open file of the application names it,
/// or it stands at a path that a document or an open file of it names, or a document of
/// it is a folder at or above that path; a file that becomes the present one of such a
/// path; all the rights that a request lists, for the
/// application that it names, and that it had not before, in the document that the
/// request names, uses again or makes; the listed rights that it had and loses; and
/// that a document is gone which the application held. Nothing else.
pub fn touches_are_of_what_is_held()
    ensures { TouchesAreOfWhatIsHeld }
{}

/// Over a tree that tells its files, where no device fails, what a seat asks is done
/// only if it is allowed.
pub fn only_what_is_allowed_is_done()
    ensures { OnlyAllowedIsDone }
{}
