//! Laws of spellings.
//!
//! Source: D-Bus Specification, "Marshaling (Wire Format)".

ghost use Rattle.std.specs.Prelude.{◌≡◌, ◌<◌, ◌≤◌, ◌%◌, ◌⊎◌, ℕ, List, ◌++◌, All, length};
ghost use Rattle.dbus_types.specs.declared.types.Value.{Value as Value'};
ghost use Rattle.dbus_types.specs.declared.types.Endian.{Endian as Endian'};
ghost use Rattle.dbus_types.specs.declared.types.WireType.{WireType as WireType'};
ghost use Rattle.dbus_values.specs.Values.{type_of, KeepsRules};
ghost use Rattle.dbus_basic.specs.declared.error.ReadError.{ReadError as ReadError'};
ghost use Rattle.dbus_marshal.specs.Breaks.{Breaks};
ghost use Rattle.dbus_values.specs.Spells.{Spells};
ghost use Rattle.dbus_values.specs.Spelling.{spelling, spellings};

/// A value that keeps the rules has a spelling, in either order of bytes and
/// at each offset: what is written for it, where that has at most 67,108,864
/// bytes, which is as many as an array's elements may have.
pub fn every_value_is_spelled()
    ensures { (endian : Endian') (at : ℕ) (value : Value') → KeepsRules value
        → length (spelling endian at value) ≤ 67_108_864
        → Spells endian at (type_of value) value (spelling endian at value) }
{}

/// The spelling of a value, and of several one after another, depends on the
/// offset modulo 8 alone: 8 is the greatest alignment.
pub fn spellings_move()
    ensures one { (endian : Endian') (at other : ℕ) (value : Value') → at % 8 ≡ other % 8
        → spelling endian at value ≡ spelling endian other value }
    ensures several { (endian : Endian') (at other : ℕ) (values : List Value') → at % 8 ≡ other % 8
        → spellings endian at values ≡ spellings endian other values }
{}

/// Bytes begin with the spelling of a value of a type, or go wrong first in
/// one way, and not both, from each offset and in either order of bytes.
pub fn bytes_are_spelled_or_break()
    ensures either { (endian : Endian') (at : ℕ) (kind : WireType') (bytes : List ℕ)
        → All (λ b. b < 256) bytes
        → ((value : Value') × (text rest : List ℕ) × (bytes ≡ text ++ rest)
        × Spells endian at kind value text)
        ⊎ ((error : ReadError') × Breaks endian at kind bytes error) }
    ensures once { (endian : Endian') (at : ℕ) (kind : WireType') (bytes : List ℕ)
        (error other : ReadError') → All (λ b. b < 256) bytes
        → Breaks endian at kind bytes error → Breaks endian at kind bytes other → error ≡ other }
    ensures not_both { (endian : Endian') (at : ℕ) (kind : WireType') (value : Value')
        (text rest : List ℕ) (error : ReadError') → All (λ b. b < 256) (text ++ rest)
        → Spells endian at kind value text → Breaks endian at kind (text ++ rest) error → ⊥ }
{}
