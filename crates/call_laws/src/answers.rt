//! Laws of what calls ask, and of the answers to them.

ghost use Rattle.call_laws.specs.Answers.{AnswersAreLittle, AnswersAreTold, CallsAskOnRecords, CallsCostLittle, SignalsAreTold};

/// In every valid state, the answer of a step of the request that a call asks
/// is one that can be told to this call: its texts are texts of D-Bus, and it
/// has as many identifiers as the call returns. So the reply to the call can be
/// written.
pub fn answers_are_told()
    ensures { AnswersAreTold }
{}

/// The answer of a step of the request that a call asks which may change something
/// tells little, where it is no error: that it is done, a place, or identifiers of
/// at most 16 files. So memory for it can be taken before the request is asked.
pub fn answers_are_little()
    ensures { AnswersAreLittle }
{}

/// In every valid state, the changes that ride in the reply of a step tell of
/// entries that are valid, or were. So the signals can be written.
pub fn signals_are_told()
    ensures { SignalsAreTold }
{}

/// What a call asks is one of the requests on documents or on entries of the
/// permission store, which a bus makes: it is neither a request on a node nor
/// one that opens or closes a connection.
pub fn calls_ask_on_records()
    ensures { CallsAskOnRecords }
{}

/// What a call asks costs the history at most eight times the bytes of its
/// message.
pub fn calls_cost_little()
    ensures { CallsCostLittle }
{}
