//! Reading signatures, and writing that of a value's type.
//!
//! Source: D-Bus Specification, "Type System".

ghost use Rattle.std.specs.Prelude.{◌≡◌, ◌+◌, ◌<◌, ◌≤◌, ◌^◌, ◌++◌, OnOk, OnErr, length, take, drop};
ghost use Rattle.dbus_basic.specs.Reading.{Gives};
ghost use Rattle.dbus_marshal.specs.Reads.{checked_in, type_in};
ghost use Rattle.dbus_types.specs.Types.{type_text};
ghost use Rattle.dbus_values.specs.Values.{type_of};
ghost use Rattle.dbus_values.specs.Spelling.{Extends, signature_body};

use crate::put::overwrite_byte;
use dbus_basic::error::ReadError;
use dbus_types::errors::SignatureError;
use dbus_types::signature::{check_signature, read_single};
use dbus_types::types::{Value, WireType};
use dbus_values::write::put_type_of;
use portal_base::list::ByteList;
use portal_base::memory::WantOfMemory;
use std::alloc::Global;

/// Says whether a signature begins at a place, and where it goes wrong.
#[tactic(auto, using(crate::proofs::Signatures::checked_ok))]
pub(crate) fn check_at(text: &[u8], at: usize) -> Result<(), ReadError>
    requires short { length text.now ≤ 255 }
    requires place { at ≤ 2 ^ 63 }
    ensures { Gives (λ checked. checked) result (checked_in at text.now) }
{
    match check_signature(text) {
        Ok(()) => Ok(()),
        Err(SignatureError::BadSignature { at: stop }) => Err(ReadError::BadSignature {
            at: at + stop as usize,
        }),
        Err(SignatureError::TooDeep { at: stop }) => Err(ReadError::TooDeep {
            at: at + stop as usize,
        }),
        Err(SignatureError::Memory) => Err(ReadError::Memory),
    }
}

/// The one type of a variant's signature that begins at a place.
#[tactic(auto, using(crate::proofs::Signatures::single_ok))]
pub(crate) fn type_at(alloc: Global, text: &[u8], at: usize) -> Result<WireType, ReadError>
    requires short { length text.now ≤ 255 }
    requires place { at ≤ 2 ^ 63 }
    ensures { Gives (λ kind. kind) result (type_in at text.now) }
{
    match read_single(alloc, text) {
        Ok(kind) => Ok(kind),
        Err(SignatureError::BadSignature { at: stop }) => Err(ReadError::BadSignature {
            at: at + stop as usize,
        }),
        Err(SignatureError::TooDeep { at: stop }) => Err(ReadError::TooDeep {
            at: at + stop as usize,
        }),
        Err(SignatureError::Memory) => Err(ReadError::Memory),
    }
}

/// The signature of a value's type.
#[tactic(auto, using(dbus_values::proofs::ListFronts::extends_refl, dbus_values::proofs::ListFronts::extends_append, dbus_values::proofs::ListFronts::extends_trans))]
pub(crate) fn put_signature(out: &mut ByteList, value: &Value) -> Result<(), WantOfMemory>
    ensures ok { OnOk result (out.new ≡ out.old ++ signature_body (type_text (type_of value.now))) }
    ensures err { OnErr result (Extends out.old out.new) }
{
    let hole = out.len();
    out.push(0)?;
    let begins = out.len();
    put_type_of(out, value)?;
    let count = out.len() - begins;
    overwrite_byte(out, hole, count);
    out.push(0)
}
