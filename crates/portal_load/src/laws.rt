//! What is true of every load.

ghost use Rattle.portal_load.specs.Laws.{FramesAreRead, LoadsAreScripts, LoadsAreShort};

/// The lines of a load are a script, and its text is short enough to be read.
pub fn loads_are_scripts()
    ensures scripts { LoadsAreScripts }
    ensures short { LoadsAreShort }
{}

/// A frame of a load is read as the request that was drawn, with its number.
pub fn frames_are_read()
    ensures { FramesAreRead }
{}
