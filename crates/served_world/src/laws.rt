//! The laws of the world of one application over any tree, for the crates that
//! stand on it.
//!
//! Each function does nothing; its contract is the law.

ghost use Rattle.served_world.specs.OwnPlaces.{OwnLooksAreOfItsFiles};
ghost use Rattle.served_world.specs.Laws.{
  IsolatedOverAnyTree,
  ServedStepsSeen,
  TracesHoldOwnLooks,
};

/// One entry, as an application sees it over any tree: its own is answered by its
/// own machine, which knows of the tree what was shown to this very request, as in
/// the portal, but for the content that a READ shows; and another's changes its
/// documents and rights as it is told.
pub fn served_steps_are_seen()
    ensures { ServedStepsSeen }
{}

/// Of what the tree shows the trace holds what it showed to the application's own
/// requests, and nothing that it showed to another's: two histories with the same own
/// entries have one trace, whatever others hold, ask and are shown beside.
pub fn traces_hold_own_looks()
    ensures { TracesHoldOwnLooks }
{}

/// Where the looks lie that a trace has of an application's own requests: at the files
/// of documents in which it has `read`, at files that it has open, and for an Add in its
/// own folder, of which alone it presents files. No other request of it looks at the
/// tree.
pub fn own_looks_are_of_its_files()
    ensures { OwnLooksAreOfItsFiles }
{}

/// Over any tree the replies to an application are a function of its trace, but for
/// the bytes that a READ shows, and their number: of its own requests with what the
/// outside gave to these, and of what others change of its documents and rights.
pub fn applications_are_isolated_over_any_tree()
    ensures { IsolatedOverAnyTree }
{}
