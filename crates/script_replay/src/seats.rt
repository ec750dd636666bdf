//! The sessions of a script at the seats of its portal.

ghost use Rattle.std.specs.Prelude.{◌≡◌, ℕ, ◌+◌, ◌*◌, ◌≤◌, [], ◌∷◌, ◌++◌, length, true, false};
ghost use Rattle.std.specs.Prelude.{Some, IfOk, IfErr};
ghost use Rattle.portal_steps.specs.Story.{cost_with, limit_of, state_first, state_now};
ghost use Rattle.portal_model.specs.declared.request.Request.{Request};
ghost use Rattle.portal_model.specs.History.{Legal, cost};
ghost use Rattle.portal_model.specs.Seated.{bound, is_open};
ghost use Rattle.session.specs.Sessions.{Closes, Feeds, Opens, ending};
ghost use Rattle.session.specs.Standings.{client, fresh, longest};
ghost use Rattle.session.specs.declared.served.Fed.TheVariants as fed;
ghost use Rattle.script_replay.specs.Seats.{Alone, Asked, HeardAs, HearsNot, IsMet, Unfilled};
ghost use Rattle.script_replay.specs.Seats.{known_at, sunk};
ghost use Rattle.script_replay.specs.Steps.{binding};

use crate::error::LineError;
use crate::start::ScriptPortal;
use portal_base::limits::Settings;
use portal_base::memory::WantOfMemory;
use portal_base::outside::MemorySink;
use portal_base::who::{Kind, Who};
use portal_core::local_desk::LocalDesk;
use portal_desk::Desk;
use portal_model::reply::Refused;
use session::served::{Fed, Served};
use session::session::Session;
use std::alloc::Global;

/// What bytes on a connection came to.
#[derive(Drop)]
pub struct Heard {
    /// The pieces that answer them, in order.
    pub written: MemorySink,
    /// Whether the connection ended by itself.
    pub is_over: bool,
}

/// Opens a connection at a seat where none is open.
pub fn begin(
    alloc: Global,
    portal: &mut ScriptPortal,
    seat: u32,
    who: &Who,
    kind: Kind,
    settings: &Settings,
) -> Result<Session, WantOfMemory>
    requires told { (state_first portal.old.story).told ≡ true }
    requires seat { 1 ≤ seat }
    requires closed { is_open (state_now portal.old.story) seat ≡ false }
    requires room { cost_with portal.old.story (Request.Enter who.now kind)
        ≤ limit_of portal.old.story }
    ensures opening { state_first portal.new.story ≡ state_first portal.old.story }
    ensures ok { IfOk result (λ session. (session ≡ fresh (client who.now kind settings.now))
        × Asked portal.old portal.new seat (Request.Enter who.now kind ∷ [])) }
{
    match begin_at(alloc, portal, seat, who, kind, settings) {
        Ok(session) => Ok(session),
        Err(Refused::Memory) => Err(WantOfMemory),
        // The limit of the history is eight times the longest script, and no script's requests
        // cost so much.
        Err(Refused::Full { .. }) => unreachable!(),
    }
}

/// Begins a session at the desk of a seat.
fn begin_at(
    alloc: Global,
    portal: &mut ScriptPortal,
    seat: u32,
    who: &Who,
    kind: Kind,
    settings: &Settings,
) -> Result<Session, Refused>
    requires seat { 1 ≤ seat }
    requires closed { is_open (state_now portal.old.story) seat ≡ false }
    ensures opening { state_first portal.new.story ≡ state_first portal.old.story }
    ensures legal { Legal (state_first portal.new.story) portal.new.story.history }
    ensures opens { (count : ℕ) × Alone seat count portal.old portal.new
        × Opens (client who.now kind settings.now)
        (known_at portal.old seat 0) result (known_at portal.new seat count) }
{
    let mut desk = LocalDesk::new(portal, seat);
    let begun = Session::begin(alloc, &mut desk, who, kind, settings);
    desk.known();
    begun
}

/// What bytes came to at the desk of a seat.
#[derive(Clone, Copy, PartialEq, Eq)]
struct Feeding {
    /// What the session made of them.
    fed: Fed,
    /// How many of their requests were refused.
    refusals: u64,
}

/// Feeds bytes to a session at the desk of a seat, and gathers its answers.
fn feed(
    alloc: Global,
    portal: &mut ScriptPortal,
    seat: u32,
    session: &mut Session,
    bytes: &[u8],
    written: &mut MemorySink,
) -> Feeding
    requires seat { 1 ≤ seat }
    ensures opening { state_first portal.new.story ≡ state_first portal.old.story }
    ensures stays_open { bound (state_now portal.old.story) seat ≡ Some (binding session.old)
        → bound (state_now portal.new.story) seat ≡ Some (binding session.old) }
    ensures own { Alone seat result.refusals portal.old portal.new }
    ensures legal { Legal (state_first portal.new.story) portal.new.story.history }
    ensures feeds { Feeds session.old.fed session.old
        (sunk (known_at portal.old seat 0) written.old) bytes.now result.fed session.new
        (sunk (known_at portal.new seat result.refusals) written.new) }
{
    let mut desk = LocalDesk::new(portal, seat);
    let fed = session.feed(alloc, &mut desk, bytes, written);
    desk.known();
    Feeding {
        fed,
        refusals: desk.refusals(),
    }
}

/// Feeds bytes to a session that goes on. The history has room for what they
/// ask with those that it holds, so a request that is refused wants memory.
pub fn hear(
    alloc: Global,
    portal: &mut ScriptPortal,
    seat: u32,
    session: &mut Session,
    bytes: &[u8],
) -> Result<Heard, LineError>
    requires told { (state_first portal.old.story).told ≡ true }
    requires seat { 1 ≤ seat }
    requires goes_on { session.old.fed ≡ fed.More }
    requires room { cost portal.old.story.history + 8 * length (session.old.rest ++ bytes.now)
        ≤ limit_of portal.old.story }
    requires space { session.old.before + length session.old.rest + length bytes.now ≤ longest }
    ensures opening { state_first portal.new.story ≡ state_first portal.old.story }
    ensures stays_open { bound (state_now portal.old.story) seat ≡ Some (binding session.old)
        → bound (state_now portal.new.story) seat ≡ Some (binding session.old) }
    ensures unfilled { (refusals : ℕ) × Unfilled portal.old portal.new seat session.old bytes.now
        session.new refusals }
    ensures ok { IfOk result (λ heard. HeardAs heard.is_over portal.old portal.new seat session.old
        bytes.now heard.written.pieces session.new) }
    ensures err { IfErr result (HearsNot portal.old portal.new seat session.old bytes.now
        session.new) }
{
    let mut written = MemorySink::new(alloc, 0);
    let Feeding { fed, refusals } = feed(alloc, portal, seat, session, bytes, &mut written);
    // A request that is refused ends the run, and no `ENOMEM` is written in a script.
    if refusals > 0 {
        return Err(LineError::Memory);
    }
    match fed {
        Fed::More => Ok(Heard {
            written,
            is_over: false,
        }),
        Fed::Over(served) => Ok(heard_last(served, written)),
        Fed::WriteFault => Err(LineError::Memory),
        Fed::Memory => Err(LineError::Memory),
    }
}

/// What bytes came to with which a connection ends by itself.
fn heard_last(served: Served, written: MemorySink) -> Heard
    requires { IsMet served }
    ensures written { result.written ≡ written }
    ensures over { result.is_over ≡ true }
{
    match served {
        Served::Malformed { .. } | Served::LineTooLong { .. } => Heard {
            written,
            is_over: true,
        },
        _ => unreachable!(),
    }
}

/// Closes the connection of a session, and says how it ended.
pub fn end(alloc: Global, portal: &mut ScriptPortal, seat: u32, session: Session) -> Served
    requires told { (state_first portal.old.story).told ≡ true }
    requires seat { 1 ≤ seat }
    requires open { bound (state_now portal.old.story) seat ≡ Some (binding session) }
    ensures opening { state_first portal.new.story ≡ state_first portal.old.story }
    ensures left { Asked portal.old portal.new seat (Request.Leave ∷ []) }
    ensures ended { result ≡ ending session.fed session.rest }
{
    end_at(alloc, portal, seat, session)
}

/// Ends a session at the desk of a seat.
fn end_at(alloc: Global, portal: &mut ScriptPortal, seat: u32, session: Session) -> Served
    requires seat { 1 ≤ seat }
    requires open { bound (state_now portal.old.story) seat ≡ Some (binding session) }
    ensures opening { state_first portal.new.story ≡ state_first portal.old.story }
    ensures legal { Legal (state_first portal.new.story) portal.new.story.history }
    ensures closes { (count : ℕ) × Alone seat count portal.old portal.new
        × Closes session (known_at portal.old seat 0) result (known_at portal.new seat count) }
{
    let mut desk = LocalDesk::new(portal, seat);
    let served = session.end(alloc, &mut desk);
    desk.known();
    served
}
