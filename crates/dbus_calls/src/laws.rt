//! Laws of the tables.

ghost use Rattle.std.specs.Prelude.{IsTrue, map};
ghost use Rattle.std.specs.List.{flat_map};
ghost use Rattle.dbus_calls.specs.declared.object.Object.{Object as AnObject};
ghost use Rattle.dbus_calls.specs.Tables.{objects, path_of, interfaces_of, interface_name, methods_of, row, are_apart};

/// The objects have different paths, the interfaces of an object different
/// names, and so have all the methods of these: a member stands in one of an
/// object's interfaces at most.
pub fn names_are_told_apart()
    ensures paths { IsTrue (are_apart (map path_of objects)) }
    ensures interfaces { (object : AnObject)
        → IsTrue (are_apart (map interface_name (interfaces_of object))) }
    ensures members { (object : AnObject)
        → IsTrue (are_apart (map (λ method. (row method).member)
        (flat_map methods_of (interfaces_of object)))) }
{}
