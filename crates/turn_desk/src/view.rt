//! What the rule of the turn knows of a seat.

use std::marker::Model;

// What a seat knows is a value of the definitions (a state, lists of entries), for which no Rust
// type stands. So it has no field, and a record as its model.
/// The view of a seat. It exists in proofs alone: no value of it is made.
pub struct View {}

impl Model for View {
    ghost use Rattle.dbus_types.specs.contracts.types.Value as e;
    ghost use Rattle.std.specs.Coded.{codes};
    ghost use Rattle.turn_desk.specs.Knowing.{View as Known, spent};

    ghost Value = { Known };

    ghost coded = { Prim.hlevel (codes, e.the_row.coded) };

    ghost view = { λ _. spent };
}
