//! The portal.

ghost use Rattle.std.specs.Prelude.{◌≡◌, ◌+◌, ◌<◌, ◌≤◌, ◌^◌, length, false, true, IfErr, IfOk, IsOk, OnErr, OnOk, None};
ghost use Rattle.portal_desk.specs.Opening.{IsOpeningState};
ghost use Rattle.portal_model.specs.History.{Legal, cost};
ghost use Rattle.portal_model.specs.Opening.{opened_over};
ghost use Rattle.portal_model.specs.Seated.{is_open, rises_by};
ghost use Rattle.portal_model.specs.Valid.{Valid};
ghost use Rattle.portal_steps.specs.Answered.{Answers, KeepsState, Spends, TellsFault};
ghost use Rattle.portal_steps.specs.Devices.{TellsFailure, is_reserved, may_ask_in_vain, may_ask_tree_in_vain, may_change_records, room_lent};
ghost use Rattle.portal_steps.specs.Documents.{DrewBy, is_document_call};
ghost use Rattle.portal_steps.specs.Held.{told_files};
ghost use Rattle.portal_core.specs.OpenFiles.{GoesByHandles, OpensByRights, StrictFollows};
ghost use Rattle.portal_start.specs.Loading.{AreLists, BeganFirst};
ghost use Rattle.portal_core.specs.Started.{HandsBack, Starts, reopened};
ghost use Rattle.portal_steps.specs.Story.{HasCause, IsAsBefore, OnlyCounts, cost_with, limit_of, state_first, state_now};
ghost use Rattle.store_serving.specs.Serving.{may_change_entries};

use crate::portal::asked::refusals_after;
use crate::room::{keep_ahead, make_room, taken};
use app_view::ViewBook;
use change_signals::Outboxes;
use document_calls::ServedCall;
use document_records::{Applications, Documents, Grants};
use file_laws::laws::{
    no_open_after_a_revocation, older_handles_keep_their_rights, strict_handles_follow_revocations,
};
use file_ops::{FileBook, LookRooms};
use folder_documents::Namings;
use host_tree::HostTree;
use inode_table::InodeTable;
use open_handles::Handles;
use permission_table::Tables;
use portal_base::limits::Limits;
use portal_base::list::List;
use portal_base::memory::{Replica, WantOfMemory};
use portal_base::outside::{Clock, Words};
use portal_base::who::{Kind, Who};
use portal_history::{History, cost_of};
use portal_model::entry::Entry;
use portal_model::opening::OpeningState;
use portal_model::reply::{Answer, Code, Refused, Reply};
use portal_model::request::{AddRequest, NodeRequest, Request};
use portal_model::state::Connection;
use portal_model::store::StoreCall;
use portal_start::start::{Lists, StartRefusal, load};
use portal_steps::additions::serve_add;
use portal_steps::entries::{
    check_caller, collect_answer, entry_made, node_entry, opened_connection, silent_reply,
};
use portal_steps::lists::{bus_of, connection_of, of_others};
use portal_steps::{documents, seats, store};
use record_keeper::Keeper;
use save_files::Temps;
use std::alloc::Global;
use std::marker::Model;
use std::mem;

mod asked;
mod lent;
mod renewed;
mod reopened;
mod reserve;
mod shown;

/// A portal over a tree of files, a keeper of records, a clock and words.
///
/// Contracts see the four devices, the opening state, the files that the tree
/// began with, the history, for how many requests memory was taken ahead, and how
/// many requests were refused. The history is legal, and the portal is in the state
/// after it: a tree that tells has the files of that state, and a keeper that tells
/// the records that stand for it. Its own counts of nodes, which no contract sees, are
/// those that the history looked up and forgot.
#[derive(Drop)]
pub struct Portal<T: HostTree, K: Keeper, C: Clock, W: Words> {
    tree: T,
    keeper: K,
    clock: C,
    words: W,
    opening: OpeningState,
    documents: Documents,
    rights: Grants,
    applications: Applications,
    tables: Tables,
    outboxes: Outboxes,
    connections: List<Connection>,
    handles: Handles,
    namings: Namings,
    temps: Temps,
    counts: InodeTable,
    history: History,
    rooms: LookRooms,
    // For how many requests memory is kept ahead, as far as there is any.
    ahead: u32,
    refusals: u64,
}

impl<T: HostTree, K: Keeper, C: Clock, W: Words> Model for Portal<T, K, C, W> {
    ghost use Rattle.std.specs.Prelude.{◌≡◌, ◌≤◌, length, None};
    ghost use Rattle.file_ops.specs.SeatNames.{own_tables};
    ghost use Rattle.portal_desk.specs.Opening.{IsOpeningState};
    ghost use Rattle.portal_steps.specs.Answered.{KeepsState};
    ghost use Rattle.portal_steps.specs.Held.{Stands};
    ghost use Rattle.portal_core.specs.LookUps.{AreHeld};
    ghost use Rattle.portal_core.specs.Reserve.{room_in};
    ghost use Rattle.portal_model.specs.History.{run};
    ghost use Rattle.portal_model.specs.Opening.{opened_over};
    ghost use Rattle.portal_steps.specs.Story.{PortalIs};
    ghost use Rattle.store_serving.specs.Serving.{HasStore};
    ghost use Rattle.dbus_types.specs.contracts.types.Value as e;
    ghost use Rattle.std.specs.Coded.{codes};

    ghost Value = { PortalIs T K C W };

    ghost coded = { Prim.hlevel (codes, e.the_row.coded, T.code, K.code, C.code, W.code) };

    ghost view = { λ p. record {
      tree = p.tree;
      keeper = p.keeper;
      clock = p.clock;
      words = p.words;
      story = record {
        began = (T.is p.tree).began;
        opening = p.opening;
        history = p.history.entries;
      };
      spare = room_in (length p.connections) p.history.spare p.counts.room p.rooms;
      refusals = p.refusals;
    } };

    // Room is kept for a Leave of each open connection.
    ghost invariant = { λ p. Stands (T.is p.tree).began p.opening p.history.entries p.history.limit
        p.documents p.rights p.applications p.connections p.handles
        (own_tables p.namings p.temps) (T.is p.tree).told
        × (length p.connections ≤ p.history.spare)
        × KeepsState (K.is p.keeper).told
        (run (opened_over (T.is p.tree).began p.opening) p.history.entries)
        × HasStore (run (opened_over (T.is p.tree).began p.opening) p.history.entries)
        p.tables p.outboxes
        × IsOpeningState (opened_over None p.opening)
        × AreHeld (opened_over (T.is p.tree).began p.opening) p.history.entries p.counts.counts };
}

impl<T: HostTree, K: Keeper, C: Clock, W: Words> Portal<T, K, C, W> {
    /// A portal with the records that the keeper loads. Documents that were
    /// kept persist; no other number was made; the applications are numbered
    /// as the records first name them.
    ///
    /// Where no portal starts the devices come back. A tree that tells its
    /// files has those that it began with, each the first of its path and
    /// present.
    pub fn start(
        alloc: Global,
        tree: T,
        keeper: K,
        clock: C,
        words: W,
        limits: Limits,
    ) -> Result<Portal<T, K, C, W>, StartRefusal<T, K, C, W>>
        requires made { limits.made < 2 ^ 32 }
        requires queued { limits.queued < 2 ^ 32 }
        requires told { (T.is tree).told ≡ (T.is tree).began }
        requires first { BeganFirst (T.is tree).began }
        ensures ok { IfOk result (Starts T.is K.is tree keeper clock words limits) }
        ensures err { IfErr result (HandsBack K.is tree keeper clock words limits) }
    {
        tree.known();
        let mut keeper = keeper;
        match load(alloc, &mut keeper, &limits) {
            Ok(lists) => Ok(Portal::over(alloc, tree, keeper, clock, words, lists)),
            Err(error) => Err(StartRefusal {
                error,
                tree,
                keeper,
                clock,
                words,
            }),
        }
    }

    /// A portal over these lists and devices, of which none is asked.
    fn over(
        alloc: Global,
        tree: T,
        keeper: K,
        clock: C,
        words: W,
        lists: Lists,
    ) -> Portal<T, K, C, W>
        requires lists { AreLists lists }
        requires valid { Valid (opened_over (T.is tree).began lists.opening) }
        requires started { IsOpeningState (opened_over None lists.opening) }
        requires told { (T.is tree).told ≡ (T.is tree).began }
        requires kept { KeepsState (K.is keeper).told
            (opened_over (T.is tree).began lists.opening) }
        ensures { result ≡ reopened T.is tree keeper clock words lists.opening }
    {
        let handles = Handles::new(alloc, &lists.opening.limits);
        let history = History::new(alloc, &lists.opening.limits);
        let Lists {
            opening,
            documents,
            rights,
            applications,
            tables,
            temps,
        } = lists;
        Portal {
            tree,
            keeper,
            clock,
            words,
            opening,
            documents,
            rights,
            applications,
            tables,
            outboxes: Outboxes::new(alloc),
            connections: List::new(alloc),
            handles,
            namings: Namings::new(alloc),
            temps,
            counts: InodeTable::new(alloc),
            history,
            rooms: LookRooms::new(alloc),
            ahead: 0,
            refusals: 0,
        }
    }

    /// What is true of every portal: its history began in an opening state, is
    /// legal, within its limit and countable, its state is valid, and its
    /// devices tell the files and the records of that state, where they tell.
    /// An OPEN that was done had each right that was taken before given again,
    /// and what goes by the number of a handle meets the handle that was opened
    /// by that number.
    pub fn known(&self)
        ensures started { IsOpeningState (state_first self.now.story) }
        ensures legal { Legal (state_first self.now.story) self.now.story.history }
        ensures valid { Valid (state_now self.now.story) }
        ensures within { cost self.now.story.history ≤ limit_of self.now.story }
        ensures short { length self.now.story.history < 2 ^ 64 }
        ensures told { (T.is self.now.tree).told ≡ told_files (state_now self.now.story) }
        ensures kept { KeepsState (K.is self.now.keeper).told (state_now self.now.story) }
        ensures opens { OpensByRights self.now.story }
        ensures handles { GoesByHandles self.now.story }
    {
        let _ = self.history.len();
        self.tree.known();
        no_open_after_a_revocation();
        older_handles_keep_their_rights();
    }

    /// Answers a request of a seat.
    ///
    /// The reply is that of one step of the sequential portal, from the state after the
    /// history, which grows by this request; over a tree that doesn't tell its files it is
    /// alike to that. Ahead of its answer go the changes of the permission store that a
    /// connection of the host to the bus was not told yet. Just the calls of the tree that the
    /// step reaches are made, the clock is read where it changes or makes a file, words are
    /// drawn just for new documents, and the keeper is asked once where the step changes the
    /// records; EIO and Failed come only where such a call failed. `Full` comes exactly where
    /// the history with this request would cost more than its limit, and then nothing changes
    /// but the count of refusals; want of memory may come at any other request, but not at the
    /// Leave of an open connection, which is never refused. What an application does by a
    /// handle of a strict document is done only as far as it has the rights in the document
    /// then.
    ///
    /// Where memory is wanted the portal is as it was, but for the count of refusals and for memory
    /// that was taken ahead: that stays, or is more, since what was taken for the request stays
    /// too; at a request on a node what is for one request may go. Such a refusal of a request that
    /// may change the records may have asked the keeper in vain; one of an Add may have asked the
    /// tree too, once for each of its files or twice where they are named, and have drawn no more
    /// words than it would have made documents; one of a READ, WRITE, FSYNC, OPENDIR or RENAME may
    /// have asked the tree once, and one of a SETATTR, OPEN or CREATE twice; at the node of a
    /// document's file or of a name below a document that is a folder one of a LOOKUP or OPENDIR
    /// twice too, and one of a CREATE three times; and of these SETATTR, OPEN, CREATE and WRITE may
    /// have read the clock.
    ///
    /// A LOOKUP in a root, in the folder of all views or in a document's folder, a GETATTR,
    /// ACCESS, FLUSH, RELEASE, RELEASEDIR, FORGET or BATCH_FORGET finds memory where some was
    /// taken ahead ([`Portal::reserve`]), of which each takes what is for one request at most;
    /// the Leave of an open connection takes none of it.
    pub fn ask(&mut self, alloc: Global, seat: u32, request: Request) -> Result<Reply, Refused>
        ensures began { self.new.story.began ≡ self.old.story.began }
        ensures opening { self.new.story.opening ≡ self.old.story.opening }
        ensures ok { IfOk result (Answers T.is K.is C.reads W.told self.old self.new seat request) }
        ensures strict { IfOk result (StrictFollows self.old.story seat request) }
        ensures fault { IfOk result (TellsFault (T.is self.old.tree) (T.is self.new.tree)) }
        ensures failure { IfOk result (TellsFailure (T.is self.old.tree) (T.is self.new.tree)
            (K.is self.old.keeper) (K.is self.new.keeper)) }
        ensures err { OnErr result (Spends T.is K.is C.reads W.told self.old request self.new) }
        ensures drew { OnErr result (DrewBy (state_now self.old.story) seat request
            (W.told self.old.words) (W.told self.new.words)) }
        ensures unasked { may_ask_in_vain request ≡ false
            → OnErr result (IsAsBefore self.old self.new) }

        // A refusal is counted, up to the greatest count, and nothing else is.
        ensures uncounted { OnOk result (self.new.refusals ≡ self.old.refusals) }
        ensures counted { OnErr result (self.new.refusals ≡ rises_by self.old.refusals 1) }

        // Both ways: it is full exactly where the cost would pass the limit. Nothing is asked then.
        ensures full { limit_of self.old.story < cost_with self.old.story request
            → result
            ≡ Err (Refused.Full (cost self.old.story.history) (limit_of self.old.story)) }
        ensures nothing { limit_of self.old.story < cost_with self.old.story request
            → OnlyCounts self.old self.new }
        ensures cause { IfErr result (HasCause self.old.story request) }

        // Enter took the room for it.
        ensures leave { request ≡ Request.Leave → is_open (state_now self.old.story) seat ≡ true
            → IsOk result }

        // Memory that was taken ahead is enough, and each takes one part of it at most. It stays
        // where a request is refused, and what was taken for that stays too; but to a request on
        // a node room for a look was lent, and may go with it.
        ensures reserved { is_reserved request ≡ true → 0 < self.old.spare
            → cost_with self.old.story request ≤ limit_of self.old.story → IsOk result }
        ensures spare { is_reserved request ≡ true → self.old.spare ≤ self.new.spare + 1 }
        ensures remains { OnErr result (self.old.spare ≤ self.new.spare + room_lent request) }
        ensures freed { request ≡ Request.Leave → is_open (state_now self.old.story) seat ≡ true
            → self.old.spare ≤ self.new.spare }

        // Whatever it answers.
        ensures started { IsOpeningState (state_first self.new.story) }
        ensures legal { Legal (state_first self.new.story) self.new.story.history }
        ensures valid { Valid (state_now self.new.story) }
        ensures within { cost self.new.story.history ≤ limit_of self.new.story }
        ensures short { length self.new.story.history < 2 ^ 64 }
        ensures told { (T.is self.new.tree).told ≡ told_files (state_now self.new.story) }
        ensures kept { KeepsState (K.is self.new.keeper).told (state_now self.new.story) }
        ensures opens { OpensByRights self.new.story }
        ensures handles { GoesByHandles self.new.story }
    {
        let before = self.refusals();
        let answered = self.answer(alloc, seat, request);
        self.count_refusals(refusals_after(before, &answered));
        strict_handles_follow_revocations();
        self.known();
        answered
    }

    fn answer(&mut self, alloc: Global, seat: u32, request: Request) -> Result<Reply, Refused>
        ensures began { self.new.story.began ≡ self.old.story.began }
        ensures opening { self.new.story.opening ≡ self.old.story.opening }
        ensures ok { IfOk result (Answers T.is K.is C.reads W.told self.old self.new seat request) }
        ensures fault { IfOk result (TellsFault (T.is self.old.tree) (T.is self.new.tree)) }
        ensures failure { IfOk result (TellsFailure (T.is self.old.tree) (T.is self.new.tree)
            (K.is self.old.keeper) (K.is self.new.keeper)) }
        ensures err { OnErr result (Spends T.is K.is C.reads W.told self.old request self.new) }
        ensures drew { OnErr result (DrewBy (state_now self.old.story) seat request
            (W.told self.old.words) (W.told self.new.words)) }
        ensures unasked { may_ask_in_vain request ≡ false
            → OnErr result (IsAsBefore self.old self.new) }
        ensures full { limit_of self.old.story < cost_with self.old.story request
            → result
            ≡ Err (Refused.Full (cost self.old.story.history) (limit_of self.old.story)) }
        ensures nothing { limit_of self.old.story < cost_with self.old.story request
            → self.new ≡ self.old }
        ensures cause { IfErr result (HasCause self.old.story request) }
        ensures leave { request ≡ Request.Leave → is_open (state_now self.old.story) seat ≡ true
            → IsOk result }
        ensures reserved { is_reserved request ≡ true → 0 < self.old.spare
            → cost_with self.old.story request ≤ limit_of self.old.story → IsOk result }
        ensures spare { is_reserved request ≡ true → self.old.spare ≤ self.new.spare + 1 }
        ensures remains { OnErr result (self.old.spare ≤ self.new.spare + room_lent request) }
        ensures freed { request ≡ Request.Leave → is_open (state_now self.old.story) seat ≡ true
            → self.old.spare ≤ self.new.spare }
    {
        // Dropped by hand here and below: what goes by itself costs a long proof.
        if let Err(error) = self.check_cost(&request) {
            drop(request);
            return Err(error);
        }
        match request {
            Request::Enter { who, kind } => Ok(self.enter(alloc, seat, who, kind)?),
            Request::Leave => {
                drop(request);
                Ok(self.leave(alloc, seat)?)
            }
            Request::Collect => {
                drop(request);
                Ok(self.collect(alloc, seat)?)
            }
            Request::Node(node) => Ok(self.node(alloc, seat, node)?),
            Request::Add(add) => Ok(self.add(alloc, seat, add)?),
            Request::Present { path } => {
                Ok(self.document(alloc, seat, Request::Present { path })?)
            }
            Request::Grant(call) => Ok(self.document(alloc, seat, Request::Grant(call))?),
            Request::Revoke(call) => Ok(self.document(alloc, seat, Request::Revoke(call))?),
            Request::DeleteDocument { doc } => {
                Ok(self.document(alloc, seat, Request::DeleteDocument { doc })?)
            }
            Request::LookupDocument { path } => {
                Ok(self.document(alloc, seat, Request::LookupDocument { path })?)
            }
            Request::Info { doc } => Ok(self.document(alloc, seat, Request::Info { doc })?),
            Request::ListDocuments { app } => {
                Ok(self.document(alloc, seat, Request::ListDocuments { app })?)
            }
            Request::Store(call) => Ok(self.store(alloc, seat, call)?),
        }
    }

    /// Refuses a request with which the history would cost too much.
    fn check_cost(&self, request: &Request) -> Result<(), Refused>
        ensures leave { request.now ≡ Request.Leave → IsOk result }
        ensures fits { OnOk result
            (cost_with self.now.story request.now ≤ limit_of self.now.story) }
        ensures full { IfErr result
            (λ e. (e ≡ Refused.Full (cost self.now.story.history) (limit_of self.now.story))
            × (limit_of self.now.story < cost_with self.now.story request.now)) }
    {
        let cost = self.history.cost();
        let limit = self.history.limit();
        if cost_of(request) > limit - cost {
            return Err(Refused::Full { cost, limit });
        }
        Ok(())
    }

    fn enter(
        &mut self,
        alloc: Global,
        seat: u32,
        who: Who,
        kind: Kind,
    ) -> Result<Reply, WantOfMemory>
        requires { cost_with self.old.story (Request.Enter who kind) ≤ limit_of self.old.story }
        ensures began { self.new.story.began ≡ self.old.story.began }
        ensures opening { self.new.story.opening ≡ self.old.story.opening }
        ensures ok { IfOk result
            (Answers T.is K.is C.reads W.told self.old self.new seat (Request.Enter who kind)) }
        ensures fault { IfOk result (TellsFault (T.is self.old.tree) (T.is self.new.tree)) }
        ensures failure { IfOk result (TellsFailure (T.is self.old.tree) (T.is self.new.tree)
            (K.is self.old.keeper) (K.is self.new.keeper)) }
        ensures err { OnErr result (IsAsBefore self.old self.new) }
        ensures remains { OnErr result
            (self.old.spare ≤ self.new.spare + room_lent (Request.Enter who kind)) }
    {
        check_caller(&who);
        let is_here = connection_of(self.connections.as_slice(), seat).is_some();
        let name = who.replica(alloc)?;
        // Besides the Leaves of the connections that are there, for this entry
        // and for the Leave of the new one.
        make_room(
            &mut self.history,
            self.connections.as_slice(),
            2,
            self.ahead,
        )?;
        if is_here {
            let refused = entry_made(alloc, seat, Request::Enter { who: name, kind });
            self.history.push(refused);
            return Ok(silent_reply(alloc, Answer::Refused(Code::NotHere)));
        }
        seats::enter(
            &mut self.connections,
            &mut self.handles,
            &mut self.namings,
            &mut self.temps,
            &mut self.outboxes,
            opened_connection(alloc, seat, who, kind),
        )?;
        let entry = entry_made(alloc, seat, Request::Enter { who: name, kind });
        self.history.push(entry);
        Ok(silent_reply(alloc, Answer::Done))
    }

    fn node(
        &mut self,
        alloc: Global,
        seat: u32,
        request: NodeRequest,
    ) -> Result<Reply, WantOfMemory>
        requires { cost_with self.old.story (Request.Node request) ≤ limit_of self.old.story }
        ensures began { self.new.story.began ≡ self.old.story.began }
        ensures opening { self.new.story.opening ≡ self.old.story.opening }
        ensures ok { IfOk result
            (Answers T.is K.is C.reads W.told self.old self.new seat (Request.Node request)) }
        ensures fault { IfOk result (TellsFault (T.is self.old.tree) (T.is self.new.tree)) }
        ensures failure { IfOk result (TellsFailure (T.is self.old.tree) (T.is self.new.tree)
            (K.is self.old.keeper) (K.is self.new.keeper)) }
        ensures err { OnErr result
            (Spends T.is K.is C.reads W.told self.old (Request.Node request) self.new) }
        ensures unasked { may_ask_tree_in_vain (Request.Node request) ≡ false
            → OnErr result (IsAsBefore self.old self.new) }
        ensures reserved { is_reserved (Request.Node request) ≡ true → 0 < self.old.spare
            → IsOk result }
        ensures spare { self.old.spare ≤ self.new.spare + 1 }
    {
        make_room(
            &mut self.history,
            self.connections.as_slice(),
            1,
            self.ahead,
        )?;
        keep_ahead(alloc, &mut self.counts, &mut self.rooms, self.ahead);
        let book = FileBook {
            view: ViewBook {
                documents: &self.documents,
                grants: &self.rights,
                applications: &self.applications,
            },
            file_limit: self.opening.limits.file_bytes,
        };
        let served = node_serving::serve(
            alloc,
            &mut self.rooms,
            &book,
            &mut self.connections,
            &mut self.handles,
            &mut self.namings,
            &mut self.temps,
            &mut self.counts,
            &mut self.tree,
            &mut self.clock,
            seat,
            &request,
        );
        match served {
            Ok(done) => {
                let (entry, answer) = node_entry(alloc, seat, request, done);
                self.history.push(entry);
                Ok(silent_reply(alloc, answer))
            }
            Err(error) => {
                drop(request);
                Err(error)
            }
        }
    }

    fn document(
        &mut self,
        alloc: Global,
        seat: u32,
        request: Request,
    ) -> Result<Reply, WantOfMemory>
        requires fits { cost_with self.old.story request ≤ limit_of self.old.story }
        requires call { is_document_call request ≡ true }
        ensures began { self.new.story.began ≡ self.old.story.began }
        ensures opening { self.new.story.opening ≡ self.old.story.opening }
        ensures ok { IfOk result (Answers T.is K.is C.reads W.told self.old self.new seat request) }
        ensures fault { IfOk result (TellsFault (T.is self.old.tree) (T.is self.new.tree)) }
        ensures failure { IfOk result (TellsFailure (T.is self.old.tree) (T.is self.new.tree)
            (K.is self.old.keeper) (K.is self.new.keeper)) }
        ensures err { OnErr result (Spends T.is K.is C.reads W.told self.old request self.new) }
        ensures unasked { may_change_records request ≡ false
            → OnErr result (IsAsBefore self.old self.new) }
        ensures remains { OnErr result (self.old.spare ≤ self.new.spare + room_lent request) }
    {
        let taken = taken(
            &mut self.history,
            &mut self.outboxes,
            self.connections.as_slice(),
            seat,
            self.ahead,
        );
        let Ok(signals) = taken else {
            drop(request);
            return Err(WantOfMemory);
        };
        let served = documents::serve(
            alloc,
            &mut self.documents,
            &mut self.rights,
            &mut self.applications,
            &mut self.connections,
            &mut self.keeper,
            self.opening.limits.queued,
            seat,
            &request,
        );
        match served {
            Ok(ServedCall { given, answer }) => {
                self.history.push(Entry {
                    seat,
                    request,
                    given,
                });
                Ok(Reply { signals, answer })
            }
            Err(error) => {
                drop(request);
                self.outboxes.give_back(seat, signals);
                Err(error)
            }
        }
    }

    fn add(&mut self, alloc: Global, seat: u32, add: AddRequest) -> Result<Reply, WantOfMemory>
        requires { cost_with self.old.story (Request.Add add) ≤ limit_of self.old.story }
        ensures began { self.new.story.began ≡ self.old.story.began }
        ensures opening { self.new.story.opening ≡ self.old.story.opening }
        ensures ok { IfOk result
            (Answers T.is K.is C.reads W.told self.old self.new seat (Request.Add add)) }
        ensures fault { IfOk result (TellsFault (T.is self.old.tree) (T.is self.new.tree)) }
        ensures failure { IfOk result (TellsFailure (T.is self.old.tree) (T.is self.new.tree)
            (K.is self.old.keeper) (K.is self.new.keeper)) }
        ensures err { OnErr result
            (Spends T.is K.is C.reads W.told self.old (Request.Add add) self.new) }
        ensures drew { OnErr result (DrewBy (state_now self.old.story) seat (Request.Add add)
            (W.told self.old.words) (W.told self.new.words)) }
        ensures remains { OnErr result
            (self.old.spare ≤ self.new.spare + room_lent (Request.Add add)) }
    {
        let taken = taken(
            &mut self.history,
            &mut self.outboxes,
            self.connections.as_slice(),
            seat,
            self.ahead,
        );
        let Ok(signals) = taken else {
            drop(add);
            return Err(WantOfMemory);
        };
        let served = serve_add(
            alloc,
            &mut self.documents,
            &mut self.rights,
            &mut self.applications,
            &mut self.connections,
            &mut self.tree,
            &mut self.keeper,
            &mut self.words,
            seat,
            &add,
        );
        match served {
            Ok(ServedCall { given, answer }) => {
                self.history.push(Entry {
                    seat,
                    request: Request::Add(add),
                    given,
                });
                Ok(Reply { signals, answer })
            }
            Err(error) => {
                drop(add);
                self.outboxes.give_back(seat, signals);
                Err(error)
            }
        }
    }

    fn store(&mut self, alloc: Global, seat: u32, call: StoreCall) -> Result<Reply, WantOfMemory>
        requires { cost_with self.old.story (Request.Store call) ≤ limit_of self.old.story }
        ensures began { self.new.story.began ≡ self.old.story.began }
        ensures opening { self.new.story.opening ≡ self.old.story.opening }
        ensures ok { IfOk result
            (Answers T.is K.is C.reads W.told self.old self.new seat (Request.Store call)) }
        ensures fault { IfOk result (TellsFault (T.is self.old.tree) (T.is self.new.tree)) }
        ensures failure { IfOk result (TellsFailure (T.is self.old.tree) (T.is self.new.tree)
            (K.is self.old.keeper) (K.is self.new.keeper)) }
        ensures err { OnErr result
            (Spends T.is K.is C.reads W.told self.old (Request.Store call) self.new) }
        ensures unasked { may_change_entries call ≡ false
            → OnErr result (IsAsBefore self.old self.new) }
        ensures remains { OnErr result
            (self.old.spare ≤ self.new.spare + room_lent (Request.Store call)) }
    {
        // A request of a bus takes the box of its seat ahead of all it does, and its own changes
        // go into the boxes behind that.
        let taken = taken(
            &mut self.history,
            &mut self.outboxes,
            self.connections.as_slice(),
            seat,
            self.ahead,
        );
        let Ok(signals) = taken else {
            drop(call);
            return Err(WantOfMemory);
        };
        let served = store::serve(
            alloc,
            &mut self.tables,
            &mut self.outboxes,
            &mut self.keeper,
            self.connections.as_slice(),
            seat,
            &call,
        );
        match served {
            Ok(ServedCall { given, answer }) => {
                self.history.push(Entry {
                    seat,
                    request: Request::Store(call),
                    given,
                });
                Ok(Reply { signals, answer })
            }
            Err(error) => {
                drop(call);
                self.outboxes.give_back(seat, signals);
                Err(error)
            }
        }
    }

    fn leave(&mut self, alloc: Global, seat: u32) -> Result<Reply, WantOfMemory>
        ensures began { self.new.story.began ≡ self.old.story.began }
        ensures opening { self.new.story.opening ≡ self.old.story.opening }
        ensures ok { IfOk result
            (Answers T.is K.is C.reads W.told self.old self.new seat Request.Leave) }
        ensures fault { IfOk result (TellsFault (T.is self.old.tree) (T.is self.new.tree)) }
        ensures failure { IfOk result (TellsFailure (T.is self.old.tree) (T.is self.new.tree)
            (K.is self.old.keeper) (K.is self.new.keeper)) }
        ensures err { OnErr result (IsAsBefore self.old self.new) }
        ensures remains { OnErr result
            (self.old.spare ≤ self.new.spare + room_lent Request.Leave) }
        ensures here { is_open (state_now self.old.story) seat ≡ true → IsOk result }
        ensures freed { is_open (state_now self.old.story) seat ≡ true
            → self.old.spare ≤ self.new.spare }
    {
        let is_here = connection_of(self.connections.as_slice(), seat).is_some();
        if !is_here {
            make_room(&mut self.history, self.connections.as_slice(), 1, 0)?;
            let refused = entry_made(alloc, seat, Request::Leave);
            self.history.push(refused);
            return Ok(silent_reply(alloc, Answer::Refused(Code::NotHere)));
        }
        // Enter took the room for the entry, so this needs no memory. Changes that the bus wasn't
        // told are lost.
        let connections = mem::replace(&mut self.connections, List::new(alloc));
        self.connections = of_others(connections, seat);
        self.handles.leave(seat);
        self.namings.leave(seat);
        self.temps.leave(seat);
        self.counts.leave(seat);
        self.outboxes.leave(seat);
        let entry = entry_made(alloc, seat, Request::Leave);
        self.history.push(entry);
        Ok(silent_reply(alloc, Answer::Done))
    }

    fn collect(&mut self, alloc: Global, seat: u32) -> Result<Reply, WantOfMemory>
        requires { cost_with self.old.story Request.Collect ≤ limit_of self.old.story }
        ensures began { self.new.story.began ≡ self.old.story.began }
        ensures opening { self.new.story.opening ≡ self.old.story.opening }
        ensures ok { IfOk result
            (Answers T.is K.is C.reads W.told self.old self.new seat Request.Collect) }
        ensures fault { IfOk result (TellsFault (T.is self.old.tree) (T.is self.new.tree)) }
        ensures failure { IfOk result (TellsFailure (T.is self.old.tree) (T.is self.new.tree)
            (K.is self.old.keeper) (K.is self.new.keeper)) }
        ensures err { OnErr result (IsAsBefore self.old self.new) }
        ensures remains { OnErr result
            (self.old.spare ≤ self.new.spare + room_lent Request.Collect) }
    {
        let signals = taken(
            &mut self.history,
            &mut self.outboxes,
            self.connections.as_slice(),
            seat,
            self.ahead,
        )?;
        let answer = collect_answer(bus_of(self.connections.as_slice(), seat));
        let entry = entry_made(alloc, seat, Request::Collect);
        self.history.push(entry);
        Ok(Reply { signals, answer })
    }
}
