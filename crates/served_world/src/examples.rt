//! Worked examples of the definitions of one application's world over a tree that
//! tells nothing, as the real one, computed by the checker over the definitions
//! alone.
//!
//! The first functions do nothing; their contract is the example. What is expected
//! is worked out by hand, so that a wrong definition does not meet it. The last ones
//! give a part of an example by code.

ghost use Rattle.served_world.specs.Examples.{
  AddedByLooks,
  AskedAtItsFiles,
  ContentsDifferAlone,
  IsLengthTold,
  IsMomentInTrace,
  OneTraceOfTwoWorlds,
  OthersAreTold,
};

/// Two legal histories that differ in others' documents, rights, connections and
/// requests, and in what the tree showed to them, give an application one trace.
pub fn one_trace_of_two_worlds()
    ensures { OneTraceOfTwoWorlds }
{}

/// The tree is asked for an application's requests at its document, at its open file and
/// at the file that it presented.
pub fn asked_at_its_files()
    ensures { AskedAtItsFiles }
{}

/// Two worlds in which a READ shows an application other bytes, and fewer: one trace,
/// and replies that are alike.
pub fn contents_differ_alone()
    ensures { ContentsDifferAlone }
{}

/// What stands in a trace of the entries of others: rights that are lost and
/// documents that go, and nothing of a file that is written.
pub fn others_are_told()
    ensures { OthersAreTold }
{}

/// An application's own machine answers its additions by what the tree showed to
/// them.
pub fn added_by_looks()
    ensures { AddedByLooks }
{}

/// The moment, in seconds, of each look that stands in an application's trace, where
/// the tree shows other moments to another.
pub fn moment_in_a_trace() -> u64
    ensures { IsMomentInTrace result }
{
    7
}

/// The length in bytes that an application is told of its file, where another's file
/// is longer.
pub fn length_told_of_a_file() -> u64
    ensures { IsLengthTold result }
{
    5
}
