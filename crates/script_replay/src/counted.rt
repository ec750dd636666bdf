//! A portal that counts what became of its requests.

ghost use Rattle.std.specs.Prelude.{◌≡◌, ◌+◌, ◌-◌, ◌^◌, [], true, cond, min, not, ◌&&◌};
ghost use Rattle.portal_steps.specs.Story.{state_first};
ghost use Rattle.portal_model.specs.History.{cost};
ghost use Rattle.script_replay.specs.Outcomes.{done_in, is_code, is_enter, refused_in};

use host_tree::MemoryTree;
use portal_base::outside::{ListWords, SetClock};
use portal_core::portal::Portal;
use portal_core::storied::Storied;
use portal_history::History;
use portal_model::reply::{Answer, Refused, Reply};
use portal_model::request::Request;
use record_keeper::MemoryKeeper;
use std::alloc::Global;
use std::marker::Model;

/// A portal over devices in memory.
pub type MemoryPortal = Portal<MemoryTree, MemoryKeeper, SetClock, ListWords>;

/// A portal that a script opens. It counts how many of its requests were done,
/// and how many refused with a code; contracts see the portal alone.
#[derive(Drop)]
pub struct CountedPortal {
    // Contracts see the portal alone: the history keeps no replies, so what became of requests is
    // counted where they are asked.
    portal: MemoryPortal,
    done: u64,
    refused: u64,
}

impl Model for CountedPortal {
    ghost use Rattle.portal_steps.specs.Story.{state_first};
    ghost use Rattle.script_replay.specs.Outcomes.{AreCounted};
    ghost use Rattle.script_replay.specs.Scenes.{ScriptPortal as PortalOfScript};
    ghost use Rattle.dbus_types.specs.contracts.types.Value as e;
    ghost use Rattle.std.specs.Coded.{codes};

    ghost Value = { PortalOfScript };

    ghost coded = { Prim.hlevel (codes, e.the_row.coded) };

    ghost view = { λ c. c.portal };

    ghost invariant = { λ c. AreCounted (state_first c.portal.story) c.portal.story.history c.done
        c.refused };
}

impl CountedPortal {
    /// A portal that has no history yet.
    pub fn new(portal: MemoryPortal) -> CountedPortal
        requires { portal.story.history ≡ [] }
        ensures { result ≡ portal }
    {
        CountedPortal {
            portal,
            done: 0,
            refused: 0,
        }
    }

    /// How many requests were done.
    pub fn done(&self) -> u64
        ensures { (state_first self.now.story).told ≡ true
            → result ≡ done_in (state_first self.now.story) self.now.story.history }
    {
        self.done
    }

    /// How many requests were refused with a code.
    pub fn refused(&self) -> u64
        ensures { (state_first self.now.story).told ≡ true
            → result ≡ refused_in (state_first self.now.story) self.now.story.history }
    {
        self.refused
    }

    /// What the history costs, in bytes.
    pub fn cost(&self) -> u64
        ensures { result ≡ cost self.now.story.history }
    {
        self.portal.history().cost()
    }

    /// The history: every request that was answered, in order.
    pub fn history(&self) -> &History
        ensures { result.now.entries ≡ self.now.story.history }
    {
        self.portal.history()
    }

    /// Sets the clock, and nothing else.
    pub fn set_clock(&mut self, moment: u64)
        ensures { self.new ≡ record self.old { clock = moment } }
    {
        self.portal.clock_mut().set(moment);
    }
}

impl Storied for CountedPortal {
    ghost use Rattle.host_tree.specs.Devices.{tree_of};
    ghost use Rattle.portal_steps.specs.Answered.{Spends, Went};
    ghost use Rattle.portal_steps.specs.Story.{OnlyCounts, state_first};
    ghost use Rattle.record_keeper.specs.Devices.{keeper_of};
    ghost use Rattle.script_replay.specs.Seats.{clock_of, words_of};

    ghost opening = { λ p. state_first p.story };

    ghost entries = { λ p. p.story.history };

    ghost says = { Went tree_of keeper_of clock_of words_of };

    ghost spends = { Spends tree_of keeper_of clock_of words_of };

    ghost refusals = { λ p. p.refusals };

    ghost stays = { OnlyCounts };

    fn ask(&mut self, alloc: Global, seat: u32, request: Request) -> Result<Reply, Refused> {
        let enters = is_enter(&request);
        match Storied::ask(&mut self.portal, alloc, seat, request) {
            Ok(reply) => {
                let refuses = is_code(&reply.answer);
                let done = more(self.done, enters, !refuses);
                let refused = more(self.refused, enters, refuses);
                self.done = done;
                self.refused = refused;
                Ok(reply)
            }
            Err(refused) => Err(refused),
        }
    }

    fn entry_count(&self) -> u64 {
        self.portal.entry_count()
    }

    fn known(&self) {
        Storied::known(&self.portal);
    }
}

/// Whether a request opens a connection.
fn is_enter(request: &Request) -> bool
    ensures { result ≡ is_enter request.now }
{
    matches!(request, Request::Enter { .. })
}

/// Whether an answer is a code.
fn is_code(answer: &Answer) -> bool
    ensures { result ≡ is_code answer.now }
{
    matches!(answer, Answer::Refused(_))
}

/// A count after a request, which is one more where the request counts and
/// doesn't open a connection. The count stops at the greatest `u64`.
fn more(count: u64, enters: bool, counts: bool) -> u64
    ensures { result ≡ min (count + cond (not enters && counts) 1 0) (2 ^ 64 - 1) }
{
    if !enters && counts {
        count.saturating_add(1)
    } else {
        count
    }
}
