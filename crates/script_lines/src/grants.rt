//! The rights in a `doc` line.

ghost use Rattle.std.specs.Prelude.{◌≡◌, ◌≤◌, ◌↔◌, ◌++◌, ◌∷◌, [], IfOk, IsTrue, map};
ghost use Rattle.record_keeper.specs.SoundRecords.{IsRising};
ghost use Rattle.script_lines.specs.Lines.{letters};
ghost use Rattle.script_lines.specs.Reading.{ReadsRights, ReadsGrant, ReadsGrants};

use crate::words::{cut, parts};
use portal_base::list::List;
use portal_base::memory::WantOfMemory;
use portal_base::names::NameError;
use portal_base::names::app_id::AppId;
use portal_model::records::GrantRecord;
use std::alloc::Global;
use std::cmp::Ordering;

/// The letters of rights: `r` for read, `w` for write, `g` for
/// grant-permissions, `d` for delete, in this order.
fn letters_of(rights: u8) -> &'static [u8]
    requires { rights ≤ 15 }
    ensures { result.now ≡ letters rights }
{
    match rights {
        0 => b"",
        1 => b"r",
        2 => b"w",
        3 => b"rw",
        4 => b"g",
        5 => b"rg",
        6 => b"wg",
        7 => b"rwg",
        8 => b"d",
        9 => b"rd",
        10 => b"wd",
        11 => b"rwd",
        12 => b"gd",
        13 => b"rgd",
        14 => b"wgd",
        15..=255 => b"rwgd",
    }
}

/// The rights that letters stand for, at least one.
fn read_rights(word: &[u8]) -> Option<u8>
    ensures { ReadsRights word.now result }
{
    for rights in 1..16 {
        if word == letters_of(rights) {
            return Some(rights);
        }
    }
    None
}

/// What `NAME=LETTERS` gives.
fn read_grant(alloc: Global, word: &[u8]) -> Result<Option<GrantRecord>, WantOfMemory>
    ensures { IfOk result (λ read. ReadsGrant word.now read) }
{
    let Some((name, letters)) = cut(word, b'=') else {
        return Ok(None);
    };
    let Some(rights) = read_rights(letters) else {
        return Ok(None);
    };
    match AppId::read(alloc, name) {
        Ok(app) => Ok(Some(GrantRecord {
            app: List::copied(alloc, app.as_bytes())?,
            rights,
        })),
        Err(NameError::Memory) => Err(WantOfMemory),
        Err(NameError::BadName { at: _ }) => Ok(None),
    }
}

/// Whether a name stands behind those of the grants, in byte order.
fn rises(grants: &[GrantRecord], name: &[u8]) -> bool
    ensures { IsRising (map (λ grant. grant.app) grants.now)
        → (IsTrue result ↔ IsRising (map (λ grant. grant.app) grants.now ++ name.now ∷ [])) }
{
    match grants.split_last() {
        Some((last, _)) => matches!(last.app.as_slice().cmp(name), Ordering::Less),
        None => true,
    }
}

/// The rights that grants joined by commas or `-` stand for; the names rise
/// in byte order.
pub fn read_grants(alloc: Global, word: &[u8]) -> Result<Option<List<GrantRecord>>, WantOfMemory>
    ensures { IfOk result (λ read. ReadsGrants word.now read) }
{
    let mut grants = List::new(alloc);
    if word == b"-".as_slice() {
        return Ok(Some(grants));
    }
    let pieces = parts(alloc, word, b',')?;
    for piece in pieces.as_slice() {
        let Some(grant) = read_grant(alloc, piece)? else {
            return Ok(None);
        };
        if !rises(grants.as_slice(), grant.app.as_slice()) {
            return Ok(None);
        }
        grants.push(grant)?;
    }
    Ok(Some(grants))
}
