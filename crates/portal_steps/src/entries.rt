//! The entries of requests, and the replies to them.

ghost use Rattle.std.specs.Prelude.{◌≡◌, [], true, option_copied};
ghost use Rattle.portal_model.specs.Enter.{new_connection};
ghost use Rattle.portal_model.specs.Step.{reply_with};
ghost use Rattle.portal_model.specs.Valid.{is_caller};
ghost use Rattle.portal_steps.specs.Served.{collect_answer as answer_of_bus, entry_of, node_entry};

use file_ops::NodeDone;
use portal_base::list::List;
use portal_base::who::{Kind, Who};
use portal_model::entry::{Entry, Fault, Given};
use portal_model::reply::{Answer, Code, Reply};
use portal_model::request::{NodeRequest, Request};
use portal_model::state::Connection;
use std::alloc::Global;

/// Nothing to do: an application's name keeps the rule of names by its type.
pub fn check_caller(who: &Who)
    ensures { is_caller who.now ≡ true }
{
    if let Who::App(name) = who {
        let _ = name.as_bytes();
    }
}

/// The answer to a Collect of a seat with this bus.
pub fn collect_answer(bus: Option<&Connection>) -> Answer
    ensures { result ≡ answer_of_bus (option_copied bus.entry) }
{
    match bus {
        Some(_) => Answer::Done,
        None => Answer::Refused(Code::NotHere),
    }
}

/// The entry of a request on a node that was served, and its answer.
pub fn node_entry(alloc: Global, seat: u32, request: NodeRequest, done: NodeDone) -> (Entry, Answer)
    ensures { result ≡ (node_entry seat request done, done.answer) }
{
    let NodeDone {
        answer,
        looks,
        listed,
        now,
        generation,
        fault,
    } = done;
    let given = Given {
        now,
        words: List::new(alloc),
        numbers: List::new(alloc),
        looks,
        listed,
        generation,
        full: false,
        fault,
    };
    let request = Request::Node(request);
    (
        Entry {
            seat,
            request,
            given,
        },
        answer,
    )
}

/// The entry of a request for which nothing outside was asked.
pub fn entry_made(alloc: Global, seat: u32, request: Request) -> Entry
    ensures { result ≡ entry_of seat request [] Fault.None }
{
    Entry {
        seat,
        request,
        given: Given {
            now: None,
            words: List::new(alloc),
            numbers: List::new(alloc),
            looks: List::new(alloc),
            listed: None,
            generation: None,
            full: false,
            fault: Fault::None,
        },
    }
}

/// A connection on which nothing happened yet.
pub fn opened_connection(alloc: Global, seat: u32, who: Who, kind: Kind) -> Connection
    ensures { result ≡ new_connection seat who kind }
{
    Connection {
        seat,
        who,
        kind,
        queue: List::new(alloc),
        opens: 0,
        unsent: List::new(alloc),
        namings: List::new(alloc),
        temps: List::new(alloc),
        added: 0,
    }
}

/// A reply that tells no change of the permission store.
pub fn silent_reply(alloc: Global, answer: Answer) -> Reply
    ensures { result ≡ reply_with [] answer }
{
    Reply {
        signals: List::new(alloc),
        answer,
    }
}
