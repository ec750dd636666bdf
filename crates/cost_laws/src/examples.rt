//! Worked examples of what streams ask, computed by the checker over the definitions
//! alone.
//!
//! What is expected is worked out by hand, so that a wrong definition does not meet it.

ghost use Rattle.cost_laws.specs.StreamExamples.{IsCostOfOneFrame, IsCostOfSilence};

/// What a bus of the host asks on which no byte comes, in bytes.
pub fn cost_of_silence() -> u64
    ensures { IsCostOfSilence result }
{
    128
}

/// What a mount of `org.ed` asks on which one FUSE_GETATTR comes, and a part of
/// another, in bytes.
pub fn cost_of_one_frame() -> u64
    ensures { IsCostOfOneFrame result }
{
    262
}
