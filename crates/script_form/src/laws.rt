//! What is true of every script.

ghost use Rattle.script_form.specs.Laws.{ReadInOneWay, RefusedInOneWay, ReadOrRefused, ReadAgain, NeverBad, OpensInOneWay};

/// A text is one script at most, or has one first line that is no line of a
/// script, and not both.
pub fn texts_are_read_in_one_way()
    ensures read { ReadInOneWay }
    ensures refused { RefusedInOneWay }
    ensures either { ReadOrRefused }
{}

/// What the lines of a script are written as is read as that script.
pub fn scripts_are_read_again()
    ensures { ReadAgain }
{}

/// The records that a script keeps aren't bad, by the definition by which kept
/// records are.
pub fn records_of_scripts_are_never_bad()
    ensures { NeverBad }
{}

/// A script opens with one state.
pub fn scripts_open_in_one_way()
    ensures { OpensInOneWay }
{}
