//! The names of applications.

ghost use Rattle.std.specs.Prelude.{◌≡◌, IfOk, IfErr, IfNone, IfSome, true};
ghost use Rattle.portal_base.specs.Names.{is_app_name, is_name_byte, is_nothing_or_dots, has_app_form, app_limit, IsFirstBreak};

use crate::list::{ByteList, List};
use crate::memory::{Replica, WantOfMemory};
use crate::names::NameError;
use std::alloc::Global;
use std::marker::Model;

/// The greatest length of a name, in bytes.
const LIMIT: usize = 255;

/// The name of an application, which contracts see as its bytes.
///
/// It has 1 to 255 bytes out of letters, digits, `.`, `_` and `-`, and isn't
/// `.` or `..`.
#[derive(Debug, Drop)]
pub struct AppId {
    text: ByteList,
}

impl Model for AppId {
    ghost use Rattle.std.specs.Prelude.{List, ℕ, ◌≡◌, true};
    ghost use Rattle.portal_base.specs.Names.{is_app_name};

    ghost Value = { List ℕ };

    ghost view = { λ a. a.text };

    ghost invariant = { λ a. is_app_name a.text ≡ true };
}

impl AppId {
    ghost use Rattle.portal_base.specs.NameErrors.{RefusesApp};

    /// The name that a text is.
    ///
    /// `BadName` tells the least place where the text breaks the rule: its
    /// length, where it ends too soon; 255, where it is too long.
    pub fn read(alloc: Global, text: &[u8]) -> Result<AppId, NameError>
        ensures ok { IfOk result (λ name. (name ≡ text.now) × (is_app_name text.now ≡ true)) }
        ensures bad { IfErr result (RefusesApp text.now) }
    {
        match first_break(text) {
            Some(at) => Err(NameError::BadName { at }),
            None => Ok(AppId {
                text: List::copied(alloc, text)?,
            }),
        }
    }

    /// Says whether a text is a name; it takes no memory.
    pub fn is_name(text: &[u8]) -> bool
        ensures { result ≡ is_app_name text.now }
    {
        // Who asks by words of a command line needs to know whether one is a name also where there
        // is no memory for it.
        match first_break(text) {
            Some(_) => false,
            None => true,
        }
    }

    /// The bytes of the name, which keep its rule.
    pub fn as_bytes(&self) -> &[u8]
        ensures bytes { result.now ≡ self.now }
        ensures rule { is_app_name self.now ≡ true }
    {
        self.text.as_slice()
    }
}

impl PartialEq for AppId {
    ghost use Rattle.std.specs.Prelude.{nat_eq};
    ghost use Rattle.std.specs.Cmp.Lexicographic.{pointwise};
    ghost use Rattle.std.proofs.Common.{rules};
    ghost use Rattle.std.specs.Cmp.Rules.{comparing};

    ghost eq = { pointwise nat_eq };

    ghost laws = { Prim.search (comparing, rules) };

    fn eq(&self, other: &AppId) -> bool {
        self.as_bytes() == other.as_bytes()
    }
}

impl Eq for AppId {
    ghost use Rattle.std.proofs.Common.{rules};
    ghost use Rattle.std.specs.Cmp.Rules.{comparing};

    ghost laws = { Prim.search (comparing, rules) };
}

impl Replica for AppId {
    fn replica(&self, alloc: Global) -> Result<AppId, WantOfMemory> {
        Ok(AppId {
            text: List::copied(alloc, self.text.as_slice())?,
        })
    }
}

/// The first place at which a text breaks the rule of an application's name.
fn first_break(text: &[u8]) -> Option<u32>
    ensures none { IfNone result (is_app_name text.now ≡ true) }
    ensures some { IfSome result (IsFirstBreak has_app_form app_limit text.now) }
{
    for (at, byte) in text.iter().enumerate() {
        // The length is a limit apart from the form: a text of good bytes breaks at the first one
        // that is too many.
        if at == LIMIT {
            return Some(at as u32);
        }
        if !is_name_byte(*byte) {
            return Some(at as u32);
        }
    }
    if is_nothing_or_dots(text) {
        Some(text.len() as u32)
    } else {
        None
    }
}

/// Says whether a byte may stand in a name.
fn is_name_byte(byte: u8) -> bool
    ensures { result ≡ is_name_byte byte }
{
    byte.is_ascii_alphanumeric() || byte == b'.' || byte == b'_' || byte == b'-'
}

/// Says whether a text is empty, `.` or `..`.
fn is_nothing_or_dots(text: &[u8]) -> bool
    ensures { result ≡ is_nothing_or_dots text.now }
{
    match text {
        [] => true,
        [only] => *only == b'.',
        [first, second] => *first == b'.' && *second == b'.',
        _ => false,
    }
}
