//! The laws of the world of one application, for the crates that stand on it.
//!
//! Each function does nothing; its contract is the law.

ghost use Rattle.app_world.specs.Laws.{Isolated, KindsSeen, StepsSeen, ViewsFramed};
ghost use Rattle.app_world.specs.RightsTold.{RightsAreTold};

/// A step that leaves equal what a view takes from the state leaves the view
/// equal: so does one that gives another application a right, or adds a
/// document in which the application has none.
pub fn views_are_framed()
    ensures { ViewsFramed }
{}

/// One entry, as an application sees it: its own is answered by its own
/// machine as in the portal, and another's changes its view as it is told.
pub fn steps_are_seen()
    ensures { StepsSeen }
{}

/// Each kind of request by itself, as an application sees it: its own comes to
/// the same in its view as in the portal, and another's changes its view as it is
/// told. Of an Add and of the requests on nodes this is said where what the
/// outside gave is lawful, of own ones over a tree that tells; of every other kind
/// whatever the outside gave.
pub fn each_kind_is_seen()
    ensures { KindsSeen }
{}

/// Over a tree that tells its files the replies to an application are a function of
/// its trace: its own requests with what the outside gave them, and what others
/// change of the documents, rights and bytes that it holds.
pub fn applications_are_isolated()
    ensures { Isolated }
{}

/// The rights of an application in a document after a legal history are told by
/// its entries: by the additions, grants, revocations and deletions that were
/// done, each by who asked, what was asked and what was answered. So who has a
/// right again after it was taken was given it by a later grant or addition.
pub fn rights_are_told()
    ensures { RightsAreTold }
{}
