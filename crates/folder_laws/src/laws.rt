//! The laws. Each function does nothing; its contract is the law.

ghost use Rattle.folder_laws.specs.Folders.{FoldersStay, OtherContentsStay};
ghost use Rattle.folder_laws.specs.Namings.{NamingsAreOfMadeDocuments, NamingsStay};
ghost use Rattle.folder_laws.specs.Nodes.{NodesAreOwnNamings};

/// A path on the host is a folder after an entry exactly where it was one before: no
/// request adds or removes a folder.
pub fn folders_stay()
    ensures { FoldersStay }
{}

/// At each path on the host but that of the file which an entry changes there is the
/// same after it as before. An entry changes one file at most, and only a request on
/// a node that is done changes one.
pub fn other_contents_stay()
    ensures { OtherContentsStay }
{}

/// What a connection named under a number it names under that number until it
/// leaves, whoever asks what. What one seat asks leaves all that others have named.
/// An Enter begins with nothing named, and a Leave takes it all.
pub fn namings_stay()
    ensures { NamingsStay }
{}

/// A LOOKUP or a CREATE that is done in an exported folder or below it is answered a
/// node of kind 4, whose number is that of the child among what this connection has
/// named; and where a connection sees anything at a node of kind 4, it is what it has
/// itself named under that number, in that view.
pub fn nodes_are_own_namings()
    ensures { NodesAreOwnNamings }
{}

/// After each legal history, what is named is of a document that was made; while that
/// is live it is a folder, and the path goes on from its path by at least one part,
/// none of them `.` or `..`.
pub fn namings_are_of_made_documents()
    ensures { NamingsAreOfMadeDocuments }
{}
