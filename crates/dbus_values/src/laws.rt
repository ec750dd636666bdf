//! Laws of spellings.
//!
//! Source: D-Bus Specification, "Marshaling (Wire Format)".

ghost use Rattle.std.specs.Prelude.{◌≡◌, ℕ, List, length};
ghost use Rattle.dbus_types.specs.declared.types.Value.{Value as Value'};
ghost use Rattle.dbus_types.specs.declared.types.Endian.{Endian as Endian'};
ghost use Rattle.dbus_types.specs.declared.types.WireType.{WireType as WireType'};
ghost use Rattle.dbus_values.specs.Values.{type_of};
ghost use Rattle.dbus_values.specs.Spells.{Spells};
ghost use Rattle.dbus_values.specs.Spelling.{spelling, spelled_length};

/// What spells a value of a type at an offset is the one spelling of that
/// value, the type is the value's, and it has the value's length there.
pub fn spellings_are_one()
    ensures spelling { (endian : Endian') (at : ℕ) (kind : WireType') (value : Value')
        (bytes : List ℕ) → Spells endian at kind value bytes → bytes ≡ spelling endian at value }
    ensures kind { (endian : Endian') (at : ℕ) (kind : WireType') (value : Value')
        (bytes : List ℕ) → Spells endian at kind value bytes → type_of value ≡ kind }
    ensures length { (endian : Endian') (at : ℕ) (kind : WireType') (value : Value')
        (bytes : List ℕ) → Spells endian at kind value bytes
        → length bytes ≡ spelled_length at value }
{}
