//! The names of rights.

ghost use Rattle.std.specs.Prelude.{◌≡◌, ℕ, ◌++◌, IfOk, IfErr, OnOk, OnErr, Some, None, true, cond};
ghost use Rattle.rights_rule.specs.Unknown.{TellsUnknown};
ghost use Rattle.rights_rule.specs.Rights.{is_right_name, right_named, rights_named, are_right_names, told_place, name_if, names_of};

use crate::rights::Rights;
use portal_base::list::List;
use portal_base::memory::WantOfMemory;
use portal_base::text::Text;
use std::alloc::Global;
use thiserror::Error;

const READ: &str = "read";

const WRITE: &str = "write";

const GRANT_PERMISSIONS: &str = "grant-permissions";

const DELETE: &str = "delete";

/// A text of a list names no right.
#[derive(Clone, Copy, Debug, PartialEq, Eq, Error)]
#[error("permission {index} of the list is unknown")]
pub struct UnknownPermission {
    /// The place of the first such text, from 0; at most the greatest `u32`.
    pub index: u32,
}

/// The rights whose names stand in a list, where each text of it names one.
pub fn read_names(names: &List<Text>) -> Result<Rights, UnknownPermission>
    ensures known { OnOk result (are_right_names names.now ≡ true) }
    ensures ok { IfOk result (λ rights. rights ≡ rights_named names.now) }
    ensures err { IfErr result (TellsUnknown names.now) }
{
    let mut rights = Rights::NONE;
    for (index, name) in names.as_slice().iter().enumerate() {
        let Some(right) = Rights::named(name.as_bytes()) else {
            return Err(UnknownPermission {
                index: told_place(index),
            });
        };
        rights = rights.union(right);
    }
    Ok(rights)
}

/// A place as a number of 32 bits.
fn told_place(at: usize) -> u32
    ensures { result ≡ told_place at }
{
    // An unknown name that stands further behind is told at the greatest `u32`.
    u32::try_from(at).unwrap_or(u32::MAX)
}

impl Rights {
    /// The set of the one right that a text names.
    pub fn named(name: &[u8]) -> Option<Rights>
        ensures { result ≡ cond (is_right_name name.now) (Some (right_named name.now)) None }
    {
        if name == READ.as_bytes() {
            Some(Rights::READ)
        } else if name == WRITE.as_bytes() {
            Some(Rights::WRITE)
        } else if name == GRANT_PERMISSIONS.as_bytes() {
            Some(Rights::GRANT_PERMISSIONS)
        } else if name == DELETE.as_bytes() {
            Some(Rights::DELETE)
        } else {
            None
        }
    }

    /// The names of the rights, always in the order `read`, `write`,
    /// `grant-permissions`, `delete`.
    pub fn names(self, alloc: Global) -> Result<List<Text>, WantOfMemory>
        ensures { IfOk result (λ names. names ≡ names_of self) }
    {
        // The order is one, so that what is told doesn't depend on the way the set came to be.
        let mut names = List::new(alloc);
        push_if(alloc, &mut names, self.contains(Rights::READ), READ)?;
        push_if(alloc, &mut names, self.contains(Rights::WRITE), WRITE)?;
        push_if(
            alloc,
            &mut names,
            self.contains(Rights::GRANT_PERMISSIONS),
            GRANT_PERMISSIONS,
        )?;
        push_if(alloc, &mut names, self.contains(Rights::DELETE), DELETE)?;
        Ok(names)
    }
}

/// Puts a name at the end where its right is held.
fn push_if(
    alloc: Global,
    names: &mut List<Text>,
    is_held: bool,
    name: &str,
) -> Result<(), WantOfMemory>
    ensures { OnOk result (names.new ≡ names.old ++ name_if is_held name.now) }
{
    if is_held {
        names.push(Text::copied(alloc, name)?)?;
    }
    Ok(())
}
