//! The laws. Each function does nothing; its contract is the law.

ghost use Rattle.connection_laws.specs.Served.{
  BytesAreOfTheTrace,
  ConnectionsAreIsolated,
  RepliesAreOfTheTrace,
};
ghost use Rattle.connection_laws.specs.ServedBytes.{
  BytesAreOfTheServedTrace,
  RepliesAreOfTheServedTrace,
  ServedConnectionsAreIsolated,
};
ghost use Rattle.connection_laws.specs.ServedSoFar.{
  AnswersComeFirst,
  ServedBytesSoFar,
  ServedRepliesSoFar,
};
ghost use Rattle.connection_laws.specs.SoFar.{BytesSoFar, ItemsAreAskedFirst, RepliesSoFar};
ghost use Rattle.connection_laws.specs.Unread.{
  BlindedStepsAreSeen,
  BytesAreOfTheBlindedTrace,
  RepliesAreOfTheBlindedTrace,
  UnreadBytesAreInNoReply,
};

/// What the own machine of an application replies to a seat over its trace grows,
/// while a connection of that seat is served, by just the replies that its client
/// was given.
pub fn replies_are_of_the_trace()
    ensures { RepliesAreOfTheTrace }
{}

/// What answers the items of a connection of an application is a function of its
/// settings, of what was read, of the application's trace, and of which requests
/// were refused, and how.
pub fn bytes_are_of_the_trace()
    ensures { BytesAreOfTheTrace }
{}

/// Two connections of an application with one trace that are served one whole
/// stream, and of which no request is refused, end alike and are written the same
/// bytes.
pub fn connections_are_isolated()
    ensures { ConnectionsAreIsolated }
{}

/// The same over any tree, but for the contents of READs: what the own machine of an
/// application replies to a seat over its trace grows, while a connection of that seat
/// is served, by just the replies that its client was given.
pub fn replies_are_of_the_served_trace()
    ensures { RepliesAreOfTheServedTrace }
{}

/// Over any tree, what answers the items of a connection of an application is a
/// function of its settings, of what was read, of the application's trace, of which
/// requests were refused, and how, and of the contents that READs show. A content has
/// a part in no bytes but those of the frame that shows it, and in none of a bus.
pub fn bytes_are_of_the_served_trace()
    ensures { BytesAreOfTheServedTrace }
{}

/// Over any tree, two connections of an application with one trace that read the same
/// up to its end, and of which no request is refused, end alike and are answered
/// alike: on a bus by the same bytes, and on a mount where READs showed the same.
pub fn served_connections_are_isolated()
    ensures { ServedConnectionsAreIsolated }
{}

/// Two connections of an application whose traces begin alike are given the same
/// replies so far, however the traces go on.
pub fn replies_so_far_are_of_the_trace_so_far()
    ensures { RepliesSoFar }
{}

/// However a connection ended, what its items asked was asked first, and its answers
/// were written first.
pub fn items_are_asked_first()
    ensures { ItemsAreAskedFirst }
{}

/// Two connections of an application whose traces begin alike, and that ask the same
/// first, are answered by the same bytes so far, also where the one is cut off later by
/// a write that failed or by want of memory. Of the answer that is cut nothing is said.
pub fn bytes_so_far_are_of_the_trace_so_far()
    ensures { BytesSoFar }
{}

/// Over any tree, two connections of an application whose traces begin alike are given
/// the same replies so far, but for the contents of READs, however the traces go on.
pub fn replies_so_far_are_of_the_served_trace()
    ensures { ServedRepliesSoFar }
{}

/// However a connection ended, whole answers were written first to what its items asked
/// first. Where a write that failed or want of memory cut the last answer, a front of it
/// was written behind them, or nothing.
pub fn answers_come_first()
    ensures { AnswersComeFirst }
{}

/// Over any tree, two connections of an application whose traces begin alike, and that
/// ask the same first, are answered alike so far: by the same bytes on a bus, and on a
/// mount but for the frames of READs that show a content. So it is with the answer that
/// a write that failed or want of memory cut, of which the client is written a front.
pub fn bytes_so_far_are_of_the_served_trace()
    ensures { ServedBytesSoFar }
{}

/// The bytes of a file are in no reply to an application that has neither the right
/// to read a document of that path, or of a folder that it lies below, nor a file
/// open that it may read now: a reply is a function of the request and of the blinded
/// view, in which such a file is as many zero bytes. Its length and its moment stay in
/// sight.
pub fn unread_bytes_are_in_no_reply()
    ensures { UnreadBytesAreInNoReply }
{}

/// One entry, as an application sees it that is blind to what it may not read: its own
/// is answered as in the portal, and the views after are equal when blinded, with what
/// is in sight then; and so they are after what others change.
pub fn blinded_steps_are_seen()
    ensures { BlindedStepsAreSeen }
{}

/// The replies to an application are a function of its blinded trace, in which, beside
/// its own requests, no bytes are told but of files that it may read then.
pub fn replies_are_of_the_blinded_trace()
    ensures { RepliesAreOfTheBlindedTrace }
{}

/// Two connections of an application with one blinded trace that read the same, and
/// of which the same requests are refused, are answered by the same bytes.
pub fn bytes_are_of_the_blinded_trace()
    ensures { BytesAreOfTheBlindedTrace }
{}
