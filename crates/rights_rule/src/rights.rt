//! A set of rights.

ghost use Rattle.std.specs.Prelude.{◌≡◌};
ghost use Rattle.rights_rule.specs.Rights.{no_rights, all_rights, contains, union, minus, is_no_right};

use portal_base::memory::{Replica, WantOfMemory};
use std::alloc::Global;
use std::marker::Model;

/// A set of the four rights `read`, `write`, `grant-permissions` and `delete`.
#[derive(Clone, Copy, Debug, PartialEq, Eq)]
pub struct Rights {
    read: bool,
    write: bool,
    grant_permissions: bool,
    delete: bool,
}

// Contracts see four truth values, whatever the code keeps.
impl Model for Rights {
    ghost use Rattle.rights_rule.specs.Rights.{RightSet};

    ghost Value = { RightSet };

    ghost view = { λ a. record {
      read = a.read;
      write = a.write;
      grant_permissions = a.grant_permissions;
      delete = a.delete;
    } };

    ghost inverse = { λ a. record {
      read = a.read;
      write = a.write;
      grant_permissions = a.grant_permissions;
      delete = a.delete;
    } };
}

impl Rights {
    /// No right.
    pub const NONE: Rights = Rights {
        read: false,
        write: false,
        grant_permissions: false,
        delete: false,
    };

    /// Every right.
    pub const ALL: Rights = Rights {
        read: true,
        write: true,
        grant_permissions: true,
        delete: true,
    };

    // A single right is a set of one, so that a set is asked for it as for any other.
    /// To see the document and read its file.
    pub const READ: Rights = Rights {
        read: true,
        ..Rights::NONE
    };

    /// To write its file.
    pub const WRITE: Rights = Rights {
        write: true,
        ..Rights::NONE
    };

    /// To give rights that one has to others, and to take them.
    pub const GRANT_PERMISSIONS: Rights = Rights {
        grant_permissions: true,
        ..Rights::NONE
    };

    /// To remove the document.
    pub const DELETE: Rights = Rights {
        delete: true,
        ..Rights::NONE
    };

    /// The set of no right.
    pub fn empty() -> Rights
        ensures { result ≡ no_rights }
    {
        Rights::NONE
    }

    /// The set of all rights.
    pub fn all() -> Rights
        ensures { result ≡ all_rights }
    {
        Rights::ALL
    }

    /// Says whether each right of the other set is in this one.
    pub fn contains(self, other: Rights) -> bool
        ensures { result ≡ contains self other }
    {
        other.minus(self).is_empty()
    }

    /// The rights that are in one of the two sets.
    pub fn union(self, other: Rights) -> Rights
        ensures { result ≡ union self other }
    {
        Rights {
            read: self.read || other.read,
            write: self.write || other.write,
            grant_permissions: self.grant_permissions || other.grant_permissions,
            delete: self.delete || other.delete,
        }
    }

    /// The rights that aren't in the other set.
    pub fn minus(self, other: Rights) -> Rights
        ensures { result ≡ minus self other }
    {
        Rights {
            read: self.read && !other.read,
            write: self.write && !other.write,
            grant_permissions: self.grant_permissions && !other.grant_permissions,
            delete: self.delete && !other.delete,
        }
    }

    /// Says whether no right is in the set.
    pub fn is_empty(self) -> bool
        ensures { result ≡ is_no_right self }
    {
        !(self.read || self.write || self.grant_permissions || self.delete)
    }
}

impl Replica for Rights {
    fn replica(&self, _alloc: Global) -> Result<Rights, WantOfMemory> {
        Ok(*self)
    }
}
