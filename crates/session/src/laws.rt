//! Laws of streams and answers, for the crates that stand on this one.
//!
//! Each function does nothing; its contract is the law.

ghost use Rattle.session.specs.FrameLengths.{FramesFit};
ghost use Rattle.session.specs.Laws.{AreOne, AreCutAlike, AnswerAsked, CostLittle};
ghost use Rattle.session.specs.Laws.{EndingsAreTheStreams, EndsStay, FeedsCostLittle};
ghost use Rattle.session.specs.Laws.{ItemsAreFound, ItemsComeFirst, MeetsAlike, RoomIsEnough};
ghost use Rattle.session.specs.Laws.{SayAlike, ShortBegins, ToldAlike, WholeInputsEnd};
ghost use Rattle.session.specs.Turns.{TurnsAreTaken};

/// Each stream of bytes has items and a rest.
pub fn streams_have_items()
    ensures { ItemsAreFound }
{}

/// The whole items of a stream, what they ask and the rest behind them are
/// one.
pub fn items_are_one()
    ensures { AreOne }
{}

/// Items that stand one after another from the front of a stream are the first
/// of its items, and ask what those ask.
pub fn items_come_first()
    ensures { ItemsComeFirst }
{}

/// Items that end in a broken rule or a line that is too long stay the same
/// whatever follows them.
pub fn ends_stay()
    ensures { EndsStay }
{}

/// Bytes that come in pieces are cut in some way, each piece behind the rest of
/// those before. What is cut so are the items of all pieces together, and no
/// others, also where the last pieces aren't looked at. However one stream comes
/// in pieces, its items are the same, they ask the same, and the same stands
/// behind them.
pub fn pieces_cut_alike()
    ensures { AreCutAlike }
{}

/// Where the input ended, an item breaks a rule or a line is too long, the
/// connection ends as its whole stream says, also where not all its bytes were
/// read. Its source tells the stream, which is no longer than a connection may be.
pub fn endings_are_the_streams()
    ensures { EndingsAreTheStreams }
{}

/// A session that is pushed between the pieces of its stream asks and answers the
/// items of the stream all the same, and for each push one Collect more, between
/// the items of the pieces around it. Each piece and each push came to `More`.
pub fn turns_are_taken()
    ensures { TurnsAreTaken }
{}

/// The outcomes of answers are those of what the items ask, each once, in
/// order; between Enter and Leave they are those of what the connection asks.
pub fn answers_are_of_what_is_asked()
    ensures { AnswerAsked }
{}

/// What is written is a function of the client, of the serial ahead of it, of what
/// its items ask, of the replies, and of which requests were refused, and how. What
/// else an entry holds doesn't show.
pub fn outcomes_say_alike()
    ensures { SayAlike }
{}

/// Over a tree that tells its files the replies that were given are those of
/// the steps.
pub fn told_replies_are_the_steps()
    ensures { ToldAlike }
{}

/// What a request of a connection meets by the reply of its step, it meets by
/// the reply that was given.
pub fn given_replies_are_met()
    ensures { MeetsAlike }
{}

/// The frame that answers a request on a node tells its length, and has no more
/// bytes behind its header than a READ or a READDIR asks for; of any other no
/// more than the structs of a CREATE.
pub fn frames_fit()
    ensures { FramesFit }
{}

/// What is written in part is a prefix of the whole.
pub fn a_part_is_a_prefix()
    ensures { ShortBegins }
{}

/// Where no read and no write of a connection fails and none of its requests
/// is refused, by counts below their last value, an input of whole items that its
/// source tells, no more bytes than a connection may have, is served to its end,
/// unless there is no memory.
pub fn whole_inputs_are_served_to_their_end()
    ensures { WholeInputsEnd }
{}

/// What items ask costs the history at most eight times the bytes of the
/// items.
pub fn items_cost_little()
    ensures { CostLittle }
{}

/// The items that come with a piece ask requests, each once, that cost the
/// history at most eight times the bytes held and the piece, but for those that
/// are held then.
pub fn feeds_cost_little()
    ensures { FeedsCostLittle }
{}

/// Where no other seat asks, and the history has room for all that is asked,
/// nothing is refused for a full history, and it grows by no more than that
/// costs.
pub fn room_is_enough()
    ensures { RoomIsEnough }
{}
