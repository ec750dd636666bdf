//! Paths on the host.

ghost use Rattle.std.specs.Prelude.{◌≡◌, ◌<◌, ◌≤◌, ◌-◌, IfOk, IfErr, true, not, length, slice_index};
ghost use Rattle.std.specs.List.{suffix_len};
ghost use Rattle.portal_base.specs.Names.{is_host_path, child_of, parent_of, name_of, is_in_own_folder, is_same, is_slash, root};
ghost use Rattle.portal_base.specs.PathOrder.{path_order, place_of_byte};
ghost use Rattle.portal_base.specs.Content.{is_above};

use crate::list::{ByteList, List};
use crate::memory::{Replica, WantOfMemory};
use crate::names::NameError;
use crate::names::app_id::AppId;
use crate::names::path_reader::first_break;
use std::alloc::Global;
use std::cmp::Ordering;
use std::marker::Model;

/// A path on the host, which contracts see as its bytes.
///
/// It is UTF-8 without zero bytes, at most 4,095 bytes long. It is `/`, or one
/// or more parts, each behind one `/`, none of them empty, `.` or `..`.
#[derive(Debug, Drop)]
pub struct HostPath {
    text: ByteList,
}

impl Model for HostPath {
    ghost use Rattle.std.specs.Prelude.{List, ℕ, ◌≡◌, true};
    ghost use Rattle.portal_base.specs.Names.{is_host_path};

    ghost Value = { List ℕ };

    ghost view = { λ a. a.text };

    ghost invariant = { λ a. is_host_path a.text ≡ true };
}

impl HostPath {
    ghost use Rattle.portal_base.specs.NameErrors.{RefusesPath};

    /// The path that a text is.
    ///
    /// `BadName` tells the least place where the text breaks the rule: its
    /// length, where it ends too soon or its last part is empty; the place
    /// just behind a part that is `.` or `..`; 4,095, where it is too long; in
    /// bytes that aren't UTF-8 the first with which no text goes on.
    pub fn read(alloc: Global, text: &[u8]) -> Result<HostPath, NameError>
        ensures ok { IfOk result (λ path. (path ≡ text.now) × (is_host_path text.now ≡ true)) }
        ensures bad { IfErr result (RefusesPath text.now) }
    {
        match first_break(text) {
            Some(at) => Err(NameError::BadName { at }),
            None => Ok(HostPath {
                text: List::copied(alloc, text)?,
            }),
        }
    }

    /// Says whether a text is a path; it takes no memory.
    pub fn is_path(text: &[u8]) -> bool
        ensures { result ≡ is_host_path text.now }
    {
        match first_break(text) {
            Some(_) => false,
            None => true,
        }
    }

    /// The path with a name behind it; `BadName` tells the place in the joined
    /// bytes, as [`HostPath::read`] of these does.
    pub fn child(&self, alloc: Global, name: &[u8]) -> Result<HostPath, NameError>
        ensures ok { IfOk result (λ path. (path ≡ child_of self.now name.now)
            × (is_host_path (child_of self.now name.now) ≡ true)) }
        ensures bad { IfErr result (RefusesPath (child_of self.now name.now)) }
    {
        let text = joined(alloc, self.as_bytes(), name)?;
        match first_break(text.as_slice()) {
            Some(at) => Err(NameError::BadName { at }),
            None => Ok(HostPath { text }),
        }
    }

    /// The path without its last part; of `/` it is `/`.
    pub fn parent(&self, alloc: Global) -> Result<HostPath, WantOfMemory>
        ensures { IfOk result (λ path. path ≡ parent_of self.now) }
    {
        Ok(HostPath {
            text: List::copied(alloc, parent_of(self.as_bytes()))?,
        })
    }

    /// The last part of the path; of `/` it is empty.
    pub fn name(&self) -> &[u8]
        ensures { result.now ≡ name_of self.now }
    {
        let text = self.as_bytes();
        text.split_at(behind_last_slash(text)).1
    }

    /// Says whether the path is the own folder of an application, `/app/NAME`,
    /// or lies below it.
    pub fn in_folder_of(&self, app: &AppId) -> bool
        ensures { result ≡ is_in_own_folder app.now self.now }
    {
        let Some(below) = self.as_bytes().strip_prefix(b"/app/") else {
            return false;
        };
        match below.strip_prefix(app.as_bytes()) {
            Some([]) => true,
            Some([first, ..]) => *first == b'/',
            None => false,
        }
    }

    /// The bytes of the path, which keep its rule.
    pub fn as_bytes(&self) -> &[u8]
        ensures bytes { result.now ≡ self.now }
        ensures rule { is_host_path self.now ≡ true }
    {
        self.text.as_slice()
    }
}

impl PartialEq for HostPath {
    ghost use Rattle.std.specs.Prelude.{nat_eq};
    ghost use Rattle.std.specs.Cmp.Lexicographic.{pointwise};
    ghost use Rattle.std.proofs.Common.{rules};
    ghost use Rattle.std.specs.Cmp.Rules.{comparing};

    ghost eq = { pointwise nat_eq };

    ghost laws = { Prim.search (comparing, rules) };

    fn eq(&self, other: &HostPath) -> bool {
        self.as_bytes() == other.as_bytes()
    }
}

impl Eq for HostPath {
    ghost use Rattle.std.proofs.Common.{rules};
    ghost use Rattle.std.specs.Cmp.Rules.{comparing};

    ghost laws = { Prim.search (comparing, rules) };
}

/// Paths are ordered part by part, and each part byte by byte, as std's `Path`
/// has it; what lies below a path comes right behind it.
impl PartialOrd for HostPath {
    ghost use Rattle.std.specs.Prelude.{Some, refl};
    ghost use Rattle.std.specs.Cmp.{partial_order_from_agreeing_total};
    ghost use Rattle.portal_base.specs.PathOrder.{path_order};
    ghost use Rattle.portal_base.specs.PathOrders.{path_order_total, path_order_ties};

    ghost partial_cmp = { λ a b. Some (path_order a b) };

    ghost laws = { partial_order_from_agreeing_total path_order path_order_total
        (λ a b. refl) path_order_ties };

    fn partial_cmp(&self, other: &HostPath) -> Option<Ordering> {
        Some(self.cmp(other))
    }
}

impl Ord for HostPath {
    ghost use Rattle.std.specs.Prelude.{refl};
    ghost use Rattle.portal_base.specs.PathOrder.{path_order};
    ghost use Rattle.portal_base.specs.PathOrders.{path_order_total, path_order_ties};

    ghost cmp = { path_order };

    ghost total = { path_order_total };

    ghost matches_partial_cmp = { λ a b. refl };

    ghost matches_eq = { path_order_ties };

    fn cmp(&self, other: &HostPath) -> Ordering {
        path_order(self.as_bytes(), other.as_bytes())
    }
}

impl Replica for HostPath {
    fn replica(&self, alloc: Global) -> Result<HostPath, WantOfMemory> {
        Ok(HostPath {
            text: List::copied(alloc, self.text.as_slice())?,
        })
    }
}

/// A path and a name with one slash between them.
fn joined(alloc: Global, path: &[u8], name: &[u8]) -> Result<ByteList, WantOfMemory>
    ensures { IfOk result (λ text. text ≡ child_of path.now name.now) }
{
    let mut text = List::copied(alloc, path)?;
    if !is_root(path) {
        text.push(b'/')?;
    }
    text.extend_from_slice(name)?;
    Ok(text)
}

/// Which of two paths comes first.
fn path_order(first: &[u8], second: &[u8]) -> Ordering
    ensures { result ≡ path_order first.now second.now }
{
    let mut at = 0;
    while at < first.len() && at < second.len() {
        if first[at] != second[at] {
            return place_of_byte(first[at]).cmp(&place_of_byte(second[at]));
        }
        at += 1;
    }
    first.len().cmp(&second.len())
}

/// Where a byte stands in the order of paths: a slash ahead of all others.
fn place_of_byte(byte: u8) -> u16
    ensures { result ≡ place_of_byte byte }
{
    if byte == b'/' {
        return 0;
    }
    byte as u16 + 1
}

/// Says whether the bytes of a path are `/`.
pub fn is_root(path: &[u8]) -> bool
    ensures { result ≡ is_same path.now root }
{
    match path {
        [only] => *only == b'/',
        _ => false,
    }
}

/// Says whether one path lies above another, where both are given by their
/// bytes and the first isn't `/`: the second begins with the first and a slash.
pub fn lies_above(path: &[u8], below: &[u8]) -> bool
    ensures { result ≡ is_above path.now below.now }
{
    below.len() > path.len() && below.starts_with(path) && below[path.len()] == b'/'
}

/// The place just behind the last slash, or 0 where there is none.
fn behind_last_slash(text: &[u8]) -> usize
    ensures within { result ≤ length text.now }
    ensures place { result ≡ length text.now - suffix_len (λ b. not (is_slash b)) text.now }
    ensures slash { 0 < result → slice_index text.now (result - 1) ≡ 47 }
{
    let mut at = text.len();
    while at > 0 && text[at - 1] != b'/' {
        at -= 1;
    }
    at
}

/// What stands ahead of the last slash, or the root.
fn parent_of(text: &[u8]) -> &[u8]
    ensures value { result.now ≡ parent_of text.now }
    ensures rule { is_host_path text.now ≡ true → is_host_path result.now ≡ true }
{
    let behind = behind_last_slash(text);
    if behind <= 1 {
        return b"/";
    }
    text.split_at(behind - 1).0
}
