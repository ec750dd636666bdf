//! Laws of the requests on nodes, for the crates that stand on the
//! definitions. They speak of each request, whatever the outside gave it.
//!
//! Each function does nothing; its contract is the law.

ghost use Rattle.portal_model.specs.NodeLaws.{
  AllowedOnNodesIsDone,
  HandlesStayOnBuses,
  NodeRefusalsKeep,
  NodesStayValid,
};

/// A refusal on a node changes nothing at all.
pub fn refusals_on_nodes_change_nothing()
    ensures { NodeRefusalsKeep }
{}

/// A request on a node leaves a valid state valid.
pub fn states_stay_valid_on_nodes()
    ensures { NodesStayValid }
{}

/// What may be asked of a node is done, where no device fails and no limit is
/// met: a CREATE over a tree that tells its files, all else over any tree.
pub fn what_is_allowed_on_nodes_is_done()
    ensures { AllowedOnNodesIsDone }
{}

/// What is asked on a bus leaves each open handle, whatever it revokes or
/// deletes.
pub fn buses_leave_handles()
    ensures { HandlesStayOnBuses }
{}
