//! The lines so far, and what they say of the next one.

ghost use Rattle.std.specs.Prelude.{◌≡◌, ◌≤◌, ◌++◌, ◌∷◌, ◌&&◌, [], true, not, nat_lt, length, count_by, IfOk, OnOk};
ghost use Rattle.std.specs.List.{list_any};
ghost use Rattle.script_lines.specs.Lines.{KeepsRules, last_seat};
ghost use Rattle.script_form.specs.Order.{goes_with, opens, closes, keeps, stores, clashes, is_doc, document_limit};
ghost use Rattle.portal_model.specs.Valid.{applications_limit};
ghost use Rattle.script_form.specs.Opening.{applications_of};
ghost use Rattle.script_form.specs.Preceding.{Tracks, Notes, is_opened, is_closed, key_text};
ghost use Rattle.script_lines.specs.declared.script.ScriptLine.TheVariants.{Entry};

use crate::paths::PathSet;
use portal_base::list::List;
use portal_base::memory::{Replica, WantOfMemory};
use portal_base::names::host_path::HostPath;
use portal_model::records::EntryRecord;
use portal_model::state::APPLICATIONS_LIMIT;
use record_keeper::{Name, NameSet, Named};
use script_lines::script::ScriptLine;
use std::alloc::Global;
use std::collections::BTreeSet;

/// How many documents a script may keep.
const DOCUMENT_LIMIT: usize = 65_536;

/// How many numbers of connections there are, 0 among them.
const SEATS: usize = 65_536;

/// What became of a connection's number.
#[derive(Clone, Copy)]
pub enum Number {
    /// No line opens it.
    Unopened,
    /// A line opens it, and none closes it.
    Open,
    /// A line opens it, and one closes it.
    Closed,
}

/// The lines so far. What each next line asks about them is kept beside them,
/// so that no line walks the lines before it.
#[derive(Drop)]
pub struct Preceding {
    /// The lines.
    pub lines: List<ScriptLine>,
    /// Whether one of them opens a connection.
    pub begun: bool,
    /// What became of each number.
    pub numbers: Vec<Number>,
    /// How many documents they keep.
    pub documents: usize,
    /// The numbers of these.
    pub ids: BTreeSet<u32>,
    /// The tables and identifiers of the entries that they keep.
    pub keys: NameSet,
    /// The paths of their files.
    pub paths: PathSet,
    /// The applications that their documents give rights to.
    pub named: Named,
}

/// The table and the identifier of an entry in one text.
fn key_of(alloc: Global, entry: &EntryRecord) -> Result<Name, WantOfMemory>
    ensures { IfOk result (λ name. name ≡ key_text entry.now.table entry.now.id) }
{
    let mut key = List::copied(alloc, entry.table.as_bytes())?;
    key.push(b' ')?;
    key.extend_from_slice(entry.id.as_bytes())?;
    Ok(Name::from_bytes(key))
}

impl Preceding {
    /// No lines.
    pub fn new(alloc: Global) -> Result<Preceding, WantOfMemory>
        ensures { IfOk result (λ none. (none.lines ≡ []) × Tracks none) }
    {
        Ok(Preceding {
            lines: List::new(alloc),
            begun: false,
            numbers: vec![in alloc; Number::Unopened; SEATS]?,
            documents: 0,
            ids: BTreeSet::new(alloc),
            keys: NameSet::new(alloc),
            paths: PathSet::new(alloc),
            named: Named::new(alloc),
        })
    }

    /// What became of a connection's number.
    fn number_at(&self, seat: u32) -> Number
        requires tracks { Tracks self.now }
        requires seat { seat ≤ last_seat }
        ensures opened { is_opened result ≡ list_any (opens seat) self.now.lines }
        ensures closed { is_closed result ≡ list_any (closes seat) self.now.lines }
    {
        self.numbers[seat as usize]
    }

    /// Whether no line opens a connection of this number.
    fn is_new(&self, seat: u32) -> bool
        requires tracks { Tracks self.now }
        requires seat { seat ≤ last_seat }
        ensures { result ≡ not (list_any (opens seat) self.now.lines) }
    {
        match self.number_at(seat) {
            Number::Unopened => true,
            Number::Open => false,
            Number::Closed => false,
        }
    }

    /// Whether a line opens a connection of this number, and none closes it.
    fn is_live(&self, seat: u32) -> bool
        requires tracks { Tracks self.now }
        requires seat { seat ≤ last_seat }
        ensures { result ≡ (list_any (opens seat) self.now.lines
            && not (list_any (closes seat) self.now.lines)) }
    {
        match self.number_at(seat) {
            Number::Unopened => false,
            Number::Open => true,
            Number::Closed => false,
        }
    }

    /// Whether a line keeps the document of this number.
    fn is_kept(&self, number: u32) -> bool
        requires { Tracks self.now }
        ensures { result ≡ list_any (keeps number) self.now.lines }
    {
        self.ids.contains(&number)
    }

    /// Whether the lines keep as many documents as a script may.
    fn is_full(&self) -> bool
        requires { Tracks self.now }
        ensures { result ≡ not (nat_lt (count_by is_doc self.now.lines) document_limit) }
    {
        !(self.documents < DOCUMENT_LIMIT)
    }

    /// Whether a file of this path can be beside those of the lines.
    fn is_clear(&self, path: &HostPath) -> bool
        requires { Tracks self.now }
        ensures { result ≡ not (list_any (clashes path.now) self.now.lines) }
    {
        !self.paths.has_clash(path)
    }

    /// Whether no line keeps the entry of this table and this identifier.
    fn is_unstored(&self, alloc: Global, entry: &EntryRecord) -> Result<bool, WantOfMemory>
        requires tracks { Tracks self.now }
        requires rules { KeepsRules (Entry entry.now) }
        ensures { IfOk result (λ unstored. unstored
            ≡ not (list_any (stores entry.now.table entry.now.id) self.now.lines)) }
    {
        let key = key_of(alloc, entry)?;
        let stored = self.keys.has(&key);
        Ok(!stored)
    }

    /// Whether the documents of the lines give rights to more applications than
    /// may be numbered.
    pub fn names_too_many(&self) -> bool
        requires { Tracks self.now }
        ensures { result ≡ nat_lt applications_limit (length (applications_of self.now.lines)) }
    {
        self.named.len() > APPLICATIONS_LIMIT as usize
    }

    /// Whether the line goes with those so far.
    pub fn allows(&self, alloc: Global, line: &ScriptLine) -> Result<bool, WantOfMemory>
        requires tracks { Tracks self.now }
        requires rules { KeepsRules line.now }
        ensures { IfOk result (λ allowed. allowed ≡ goes_with self.now.lines line.now) }
    {
        let first = !self.begun;
        match line {
            ScriptLine::File { path, .. } => Ok(first && self.is_clear(path)),
            ScriptLine::Doc { id, .. } => {
                Ok(first && (!self.is_kept(id.number) && !self.is_full()))
            }
            ScriptLine::Entry(entry) => {
                let unstored = self.is_unstored(alloc, entry)?;
                Ok(first && unstored)
            }
            // Calls that fail are said ahead of all connections; words and moments come where they
            // stand.
            ScriptLine::Fail { .. } => Ok(first),
            ScriptLine::Word { .. } => Ok(true),
            ScriptLine::Now { .. } => Ok(true),
            ScriptLine::Open { seat, .. } => Ok(self.is_new(*seat)),
            ScriptLine::Data { seat, .. } => Ok(self.is_live(*seat)),
            ScriptLine::Close { seat } => Ok(self.is_live(*seat)),
        }
    }

    /// Notes what a line says of those behind it.
    fn note(&mut self, alloc: Global, line: &ScriptLine) -> Result<(), WantOfMemory>
        requires tracks { Tracks self.old }
        requires rules { KeepsRules line.now }
        requires order { goes_with self.old.lines line.now ≡ true }
        ensures { OnOk result (Notes self.old line.now self.new) }
    {
        match line {
            ScriptLine::File { path, .. } => self.paths.add(path.replica(alloc)?),
            ScriptLine::Doc { id, grants, .. } => {
                self.ids.insert(id.number)?;
                self.documents += 1;
                self.named.add_granted(alloc, grants.as_slice())
            }
            ScriptLine::Entry(entry) => {
                let key = key_of(alloc, entry)?;
                self.keys.add(key)
            }
            ScriptLine::Fail { .. } => Ok(()),
            ScriptLine::Word { .. } => Ok(()),
            ScriptLine::Now { .. } => Ok(()),
            ScriptLine::Open { seat, .. } => {
                self.begun = true;
                self.numbers[*seat as usize] = Number::Open;
                Ok(())
            }
            ScriptLine::Data { .. } => Ok(()),
            ScriptLine::Close { seat } => {
                self.numbers[*seat as usize] = Number::Closed;
                Ok(())
            }
        }
    }

    /// Puts the line behind those so far, with which it goes.
    pub fn push(&mut self, alloc: Global, line: ScriptLine) -> Result<(), WantOfMemory>
        requires tracks { Tracks self.old }
        requires rules { KeepsRules line }
        requires order { goes_with self.old.lines line ≡ true }
        ensures { OnOk result ((self.new.lines ≡ self.old.lines ++ line ∷ []) × Tracks self.new) }
    {
        self.note(alloc, &line)?;
        self.lines.push(line)?;
        Ok(())
    }
}
