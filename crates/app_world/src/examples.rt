//! Worked examples of the definitions of one application's world, computed by
//! the checker over the definitions alone.
//!
//! Most functions do nothing; their contract is the example. What is expected
//! is worked out by hand, so that a wrong definition does not meet it. The last
//! ones give a part of an example by code.

ghost use Rattle.app_world.specs.ComputedExamples.{
  AreRefused,
  IsGivenByListing,
  IsGotByAdding,
  IsLeft,
  IsSeenInShared,
};
ghost use Rattle.app_world.specs.DocumentExamples.{
  GivenLawfully,
  RightsOfHistories,
  WhatIsTouched,
  WorldsOfAdditions,
  WorldsOfCalls,
  WorldsOfRemovals,
};
ghost use Rattle.app_world.specs.FileExamples.{AreTold, FilesGivenLawfully, IsLeftToRead, WorldsOfFiles};
ghost use Rattle.app_world.specs.Examples.{EffectsOnAView, TracesTellWhatIsHeld};

use portal_model::reply::Code;
use rights_rule::Rights;

/// Histories that differ only in what an application doesn't hold give it the
/// same trace, and histories that differ in its own rights different ones.
pub fn traces_tell_what_is_held()
    ensures { TracesTellWhatIsHeld }
{}

/// What others change of the documents that an application holds: rights that
/// are gained and lost, documents that go, and contents.
pub fn effects_on_a_view()
    ensures { EffectsOnAView }
{}

/// An application's own machine answers its additions: of two equal files of one
/// call, of a file whose document another holds and that is used again, of new
/// documents and of ones that it may not delete; and those that are refused, at a
/// limit of documents and where the tree fails too.
pub fn additions_in_a_world()
    ensures { WorldsOfAdditions }
{}

/// An application's own machine answers its other calls: its queue holds 16 files,
/// it gives the rights that it has, and is told of no document that it asks for.
pub fn calls_in_a_world()
    ensures { WorldsOfCalls }
{}

/// An application's own machine answers a revocation that names the application
/// itself, and what it asks of the document then.
pub fn removals_in_a_world()
    ensures { WorldsOfRemovals }
{}

/// An application is told of the rights that another takes as far as it held
/// them, and of those that it is given as far as it did not: by a grant, and by an
/// addition that names it.
pub fn what_is_touched()
    ensures { WhatIsTouched }
{}

/// An application is told of the bytes of the files that its view names, and of
/// no others, and reads them by its own machine. What it has open stays in its
/// view, whatever becomes of the document.
pub fn files_in_a_world()
    ensures { WorldsOfFiles }
{}

/// What the outside gave is lawful in each of these requests on files.
pub fn files_are_given_lawfully()
    ensures { FilesGivenLawfully }
{}

/// A history tells who has which right: by additions, grants, revocations and
/// deletions.
pub fn rights_of_histories()
    ensures { RightsOfHistories }
{}

/// What the outside gives to the entries of these histories is lawful.
pub fn histories_are_given_lawfully()
    ensures { GivenLawfully }
{}

/// How an application's own machine refuses what it asks of a document that
/// another alone holds, and of one that isn't there.
pub fn refusal_of_a_foreign_document() -> Code
    ensures { AreRefused result }
{
    Code::NotFound
}

/// The rights that an application's view has in a document in which it may read
/// and another may write.
pub fn rights_in_a_shared_document() -> Rights
    ensures { IsSeenInShared result }
{
    Rights::READ
}

/// The rights that an application's view has left in a document that it might
/// read and write, as the host takes reading away.
pub fn rights_left_by_a_revocation() -> Rights
    ensures { IsLeft result }
{
    Rights::WRITE
}

/// The rights that an application's own machine gives it in a document that it
/// adds, to be used again or not.
pub fn rights_got_by_adding(reuse: bool) -> Rights
    ensures { IsGotByAdding reuse result }
{
    if reuse {
        Rights::ALL.minus(Rights::DELETE)
    } else {
        Rights::ALL
    }
}

/// What another application gets in a document by an addition that lists a right
/// for it which the application that adds doesn't hold in each file of the call.
pub fn rights_given_by_listing() -> Rights
    ensures { IsGivenByListing result }
{
    Rights::NONE
}

/// How many effects of the host's write are told to an application that holds the
/// document, or to one that holds nothing.
pub fn effects_of_a_write(held: bool) -> u32
    ensures { AreTold held result }
{
    if held { 1 } else { 0 }
}

/// How many bytes an application reads by a handle, which outlives its rights, once
/// another has truncated the file.
pub fn bytes_left_to_read() -> u32
    ensures { IsLeftToRead result }
{
    0
}
