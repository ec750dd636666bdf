//! Worked examples of the requests on documents, computed by the checker over
//! the definitions alone.
//!
//! Each function does nothing; its contract is the example. What is expected
//! is worked out by hand, so that a wrong definition does not meet it.

ghost use Rattle.portal_model.specs.DocumentExamples.{
  AddsAndReuses,
  AddsNamed,
  AddsOfOneFile,
  AddsWhatAnotherHolds,
  ApplicationsAreFull,
  CostsOfDocuments,
  Grants,
  Informs,
  KeeperFails,
  ListsWhatItHolds,
  NumbersWrap,
  QueueIsFull,
  RefusesAdditions,
  RevokesItsOwn,
};

/// A document that may be used again is used again; one that may not is made
/// anew, and may be deleted by who added it.
pub fn documents_are_added_and_used_again()
    ensures { AddsAndReuses }
{}

/// Behind the greatest number comes 0, in an identifier that is answered too.
pub fn numbers_wrap()
    ensures { NumbersWrap }
{}

/// Two equal files of one call become one document where it may be used again,
/// and two where not; a file in the own folder of the named application is left
/// out.
pub fn equal_files_of_one_call()
    ensures { AddsOfOneFile }
{}

/// A queue holds 16 presented files, and a call takes those that are there.
pub fn presented_files_wait_in_a_queue()
    ensures { QueueIsFull }
{}

/// Who may give rights in a document gives those that it has.
pub fn rights_are_granted()
    ensures { Grants }
{}

/// The host alone is told who has which rights.
pub fn the_host_is_informed()
    ensures { Informs }
{}

/// An application takes its own rights away, and those alone that it lists.
pub fn an_application_revokes_its_own_rights()
    ensures { RevokesItsOwn }
{}

/// An application adds a file of which another holds a document: the document
/// is used, and each keeps its rights.
pub fn an_application_adds_what_another_holds()
    ensures { AddsWhatAnotherHolds }
{}

/// The files that a refused addition takes leave the queue, at a limit of
/// documents too; where its handles are wrong or the tree fails they stay.
pub fn additions_are_refused()
    ensures { RefusesAdditions }
{}

/// Where the keeper fails, the presented file waits still, and the number that
/// was drawn isn't made.
pub fn the_keeper_fails()
    ensures { KeeperFails }
{}

/// Where as many applications as may be have numbers, one more gets no right.
pub fn applications_are_full()
    ensures { ApplicationsAreFull }
{}

/// An application lists for another what it holds in each file of a call, or
/// nothing is added.
pub fn an_application_lists_what_it_holds()
    ensures { ListsWhatItHolds }
{}

/// A file that isn't there yet is named in its folder.
pub fn files_are_named_in_folders()
    ensures { AddsNamed }
{}

/// What requests on documents cost.
pub fn requests_on_documents_cost_their_bytes()
    ensures { CostsOfDocuments }
{}
