//! Worked examples of what is in sight of an application, and of what its client is
//! written of a READ, computed by the checker over the definitions alone.
//!
//! The first functions do nothing; their contract is the example. What is expected
//! is worked out by hand, so that a wrong definition does not meet it. The last ones
//! give a part of an example by code: a byte, or a length.

ghost use Rattle.connection_laws.specs.ReadExamples.{IsSameFront, ReadsShowContents, TracesGoOn};
ghost use Rattle.connection_laws.specs.SightExamples.{
  BytesComeWithTheRight,
  IsFirstOfOpen,
  IsFirstOfStrict,
  IsLengthToWriter,
  WhatIsInSight,
};

/// What is in sight by the right to read, by the right to write alone, by files that
/// are left open, of a strict document and of another, and by the right that is given
/// again.
pub fn what_is_in_sight()
    ensures { WhatIsInSight }
{}

/// An application that may write a document is told that another wrote it, and how
/// long the file is; its bytes come as it gains the right to read.
pub fn bytes_come_with_the_right()
    ensures { BytesComeWithTheRight }
{}

/// The first byte in sight of an application of "hello", which it has open to read
/// while it may not read the document any more.
pub fn first_byte_of_an_open_file() -> u8
    ensures { IsFirstOfOpen result }
{
    104
}

/// The same of a strict document.
pub fn first_byte_of_a_strict_file() -> u8
    ensures { IsFirstOfStrict result }
{
    0
}

/// How many bytes an application knows of that may only write them.
pub fn length_to_a_writer() -> u64
    ensures { IsLengthToWriter result }
{
    5
}

/// Two connections whose READs show other contents are given the same replies but for
/// these, and answered by the same frames but for the READ's.
pub fn reads_show_contents()
    ensures { ReadsShowContents }
{}

/// The front of a trace up to a READ has the replies up to the READ's, and the trace
/// goes on from it by what the application asks then.
pub fn traces_go_on()
    ensures { TracesGoOn }
{}

/// How many bytes at the front of the two frames that answer the READ are the same: of
/// 21 those of the header.
pub fn same_front_of_reads() -> u64
    ensures { IsSameFront result }
{
    16
}
