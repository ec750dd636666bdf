//! Laws of the signatures of returns.

ghost use Rattle.call_laws.specs.Returns.{LocalReturnsHaveTheirSignatures, ReturnsHaveTheirSignatures};

/// In every valid state, whatever the outside gave, the values that are
/// returned to a call that asks the portal have exactly the signature of what
/// its method returns, unless the answer is an error.
pub fn returns_have_their_signatures()
    ensures { ReturnsHaveTheirSignatures }
{}

/// The values that are returned to a call which needs no portal have exactly
/// the signature of what its method returns.
pub fn local_returns_have_their_signatures()
    ensures { LocalReturnsHaveTheirSignatures }
{}
