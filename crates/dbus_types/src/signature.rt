//! Reading the text of a list of types.
//!
//! Source: D-Bus Specification, "Type System", "Valid Signatures".

ghost use Rattle.std.specs.Prelude.{◌≡◌, ◌+◌, ◌<◌, ◌≤◌, List, length, drop, IfOk};
ghost use Rattle.dbus_types.specs.declared.errors.SignatureError.TheVariants.{BadSignature};
ghost use Rattle.dbus_types.specs.Reading.{Gives, Tells, after, place, coded as coded_in, code_at, key_at, closed as closed_in, members_at, element_at, placed, passed, type_at, whole_at};
ghost use Rattle.dbus_types.specs.Breaks.{IsReading, IsReadAs, IsSingleReading, IsSingleReadAs, IsChecked};
ghost use Rattle.dbus_types.specs.Types.{type_text, IsValidType, IsSignature};
ghost use Rattle.dbus_types.specs.declared.types.WireType.{WireType as TheType};

use crate::errors::SignatureError;
use crate::shared::Shared;
use crate::types::WireType;
use portal_base::boxed::Boxed;
use portal_base::list::List;
use std::alloc::Global;

/// The greatest length of a signature in bytes.
pub const LONGEST: usize = 255;

/// How many arrays may stand in each other.
pub const MOST_ARRAYS: u32 = 32;

/// How many parentheses and braces may stand in each other.
pub const MOST_BRACKETS: u32 = 32;

fn coded(at: usize, byte: u8) -> Result<WireType, SignatureError>
    requires { at ≤ 255 }
    ensures { Tells (λ t. t) result (coded_in at byte) }
{
    match byte {
        b'y' => Ok(WireType::Byte),
        b'b' => Ok(WireType::Bool),
        b'n' => Ok(WireType::I16),
        b'q' => Ok(WireType::U16),
        b'i' => Ok(WireType::I32),
        b'u' => Ok(WireType::U32),
        b'x' => Ok(WireType::I64),
        b't' => Ok(WireType::U64),
        b'd' => Ok(WireType::Double),
        b's' => Ok(WireType::Str),
        b'o' => Ok(WireType::ObjectPath),
        b'g' => Ok(WireType::Signature),
        b'h' => Ok(WireType::Handle),
        b'v' => Ok(WireType::Variant),
        _ => Err(SignatureError::BadSignature { at: at as u32 }),
    }
}

#[tactic(auto, unfolding(crate::specs::Reading::code_at), using(crate::proofs::ReadingSteps::code_none, crate::proofs::ReadingSteps::code_some))]
fn read_code(text: &[u8], at: usize) -> Result<(WireType, usize), SignatureError>
    requires place { at ≤ length text.now }
    requires short { length text.now ≤ 255 }
    ensures read { Tells (after text.now) result (code_at at (drop at text.now)) }
    ensures within { IfOk result (λ r. (at < r.1) × (r.1 ≤ length text.now)) }
{
    match text.get(at) {
        None => Err(SignatureError::BadSignature { at: at as u32 }),
        Some(byte) => match coded(at, *byte) {
            Ok(kind) => Ok((kind, at + 1)),
            Err(error) => Err(error),
        },
    }
}

#[tactic(auto, using(crate::proofs::ReadingSteps::key_none, crate::proofs::ReadingSteps::key_variant, crate::proofs::ReadingSteps::key_other))]
fn read_key(text: &[u8], at: usize) -> Result<(WireType, usize), SignatureError>
    requires place { at ≤ length text.now }
    requires short { length text.now ≤ 255 }
    ensures read { Tells (after text.now) result (key_at at (drop at text.now)) }
    ensures within { IfOk result (λ r. (at < r.1) × (r.1 ≤ length text.now)) }
{
    match text.get(at) {
        None => Err(SignatureError::BadSignature { at: at as u32 }),
        // The standard lets a key be of basic type alone, and a variant is none.
        Some(b'v') => Err(SignatureError::BadSignature { at: at as u32 }),
        Some(_) => read_code(text, at),
    }
}

#[tactic(auto, using(crate::proofs::ReadingSteps::closed_none, crate::proofs::ReadingSteps::closed_by, crate::proofs::ReadingSteps::closed_not))]
fn closed(text: &[u8], at: usize, by: u8) -> Result<usize, SignatureError>
    requires place { at ≤ length text.now }
    requires short { length text.now ≤ 255 }
    ensures read { Tells (place text.now) result (closed_in by at (drop at text.now)) }
    ensures within { IfOk result (λ next. (at < next) × (next ≤ length text.now)) }
{
    match text.get(at) {
        None => Err(SignatureError::BadSignature { at: at as u32 }),
        Some(byte) => {
            if *byte == by {
                Ok(at + 1)
            } else {
                Err(SignatureError::BadSignature { at: at as u32 })
            }
        }
    }
}

/// Reads the type at a place, within so many arrays and so many parentheses
/// and braces; gives the place after it too.
#[cycle(read)]
#[tactic(auto, using(crate::proofs::ReadingSteps::type_none, crate::proofs::ReadingSteps::array_deep, crate::proofs::ReadingSteps::array_on, crate::proofs::ReadingSteps::struct_deep, crate::proofs::ReadingSteps::struct_on, crate::proofs::ReadingSteps::type_other, crate::proofs::ReadingSteps::fails_when, crate::proofs::ReadingSteps::gives_when))]
fn read_type(
    alloc: Global,
    text: &[u8],
    at: usize,
    arrays: u32,
    brackets: u32,
) -> Result<(WireType, usize), SignatureError>
    requires place { at ≤ length text.now }
    requires short { length text.now ≤ 255 }
    ensures read { Gives (after text.now) result (type_at arrays brackets at (drop at text.now)) }
    ensures within { IfOk result (λ r. (at < r.1) × (r.1 ≤ length text.now)) }
{
    match text.get(at) {
        None => Err(SignatureError::BadSignature { at: at as u32 }),
        Some(b'a') => {
            if arrays == 0 {
                return Err(SignatureError::TooDeep { at: at as u32 });
            }
            let (element, next) = read_element(alloc, text, at + 1, arrays - 1, brackets)?;
            Ok((WireType::Array(Shared::new(alloc, element)?), next))
        }
        Some(b'(') => {
            if brackets == 0 {
                return Err(SignatureError::TooDeep { at: at as u32 });
            }
            let (members, next) = read_members(alloc, text, at + 1, arrays, brackets - 1)?;
            Ok((WireType::Struct(members), next))
        }
        Some(_) => read_code(text, at),
    }
}

/// Reads the type of an array's element, which may be a dict entry.
#[cycle(read)]
#[tactic(auto, using(crate::proofs::ReadingSteps::element_none, crate::proofs::ReadingSteps::entry_deep, crate::proofs::ReadingSteps::entry_on, crate::proofs::ReadingSteps::element_other, crate::proofs::ReadingSteps::fails_when, crate::proofs::ReadingSteps::gives_when))]
fn read_element(
    alloc: Global,
    text: &[u8],
    at: usize,
    arrays: u32,
    brackets: u32,
) -> Result<(WireType, usize), SignatureError>
    requires place { at ≤ length text.now }
    requires short { length text.now ≤ 255 }
    ensures read { Gives (after text.now) result
        (element_at (type_at arrays) brackets at (drop at text.now)) }
    ensures within { IfOk result (λ r. (at < r.1) × (r.1 ≤ length text.now)) }
{
    match text.get(at) {
        None => Err(SignatureError::BadSignature { at: at as u32 }),
        Some(b'{') => {
            if brackets == 0 {
                return Err(SignatureError::TooDeep { at: at as u32 });
            }
            let (key, middle) = read_key(text, at + 1)?;
            let (value, end) = read_type(alloc, text, middle, arrays, brackets - 1)?;
            let next = closed(text, end, b'}')?;
            let key = Boxed::new(alloc, key)?;
            let value = Boxed::new(alloc, value)?;
            Ok((WireType::DictEntry { key, value }, next))
        }
        Some(_) => read_type(alloc, text, at, arrays, brackets),
    }
}

/// Reads the types of a struct's members, of which there is one at least, and
/// the parenthesis after them.
#[cycle(read)]
#[tactic(auto, using(crate::proofs::ReadingSteps::members_is))]
fn read_members(
    alloc: Global,
    text: &[u8],
    at: usize,
    arrays: u32,
    brackets: u32,
) -> Result<(List<WireType>, usize), SignatureError>
    requires place { at ≤ length text.now }
    requires short { length text.now ≤ 255 }
    ensures read { Gives (after text.now) result
        (members_at (type_at arrays brackets) at (drop at text.now)) }
    ensures within { IfOk result (λ r. (at < r.1) × (r.1 ≤ length text.now)) }
{
    // `()` is no type, and breaks at its `)`: a first member is read whatever stands there.
    let (first, mut next) = read_type(alloc, text, at, arrays, brackets)?;
    let mut members = List::new(alloc);
    members.push(first)?;
    while next < text.len() {
        if text[next] == b')' {
            return Ok((members, next + 1));
        }
        match read_type(alloc, text, next, arrays, brackets) {
            Ok((kind, end)) => {
                members.push(kind)?;
                next = end;
            }
            Err(error) => return Err(error),
        }
    }
    Err(SignatureError::BadSignature { at: next as u32 })
}

/// Reads the types of a text of at most 255 bytes.
fn read_list(alloc: Global, text: &[u8]) -> Result<List<WireType>, SignatureError>
    requires short { length text.now ≤ 255 }
    ensures { Gives (λ ts. ts) result (whole_at 32 32 text.now) }
{
    // A signature is a list of types, so the empty text is one, of no types.
    let mut kinds = List::new(alloc);
    let mut next = 0;
    while next < text.len() {
        match read_type(alloc, text, next, MOST_ARRAYS, MOST_BRACKETS) {
            Ok((kind, end)) => {
                kinds.push(kind)?;
                next = end;
            }
            Err(error) => return Err(error),
        }
    }
    Ok(kinds)
}

/// Reads the one type of a text of at most 255 bytes, as a variant has it.
///
/// The errors are those of `read_signature`; where a second type begins,
/// nothing goes on as the text does, whatever stands there.
///
/// Source: D-Bus Specification, "Marshaling (Wire Format)", of variants.
pub fn read_single(alloc: Global, text: &[u8]) -> Result<WireType, SignatureError>
    requires { length text.now ≤ 255 }
    ensures reading { IsSingleReading text.now result }
    ensures only { (t : TheType) → IsValidType t → text.now ≡ type_text t
        → IsSingleReadAs t result }
{
    match read_type(alloc, text, 0, MOST_ARRAYS, MOST_BRACKETS) {
        Ok((kind, end)) => {
            // A variant's signature is the text of one type: a second one is refused where it
            // begins.
            if end < text.len() {
                return Err(SignatureError::BadSignature { at: end as u32 });
            }
            Ok(kind)
        }
        Err(error) => Err(error),
    }
}

#[cycle(check)]
#[tactic(auto, using(crate::proofs::CheckSteps::type_none, crate::proofs::CheckSteps::array_deep, crate::proofs::CheckSteps::array_on, crate::proofs::CheckSteps::struct_deep, crate::proofs::CheckSteps::struct_on, crate::proofs::CheckSteps::type_other))]
fn check_type(text: &[u8], at: usize, arrays: u32, brackets: u32) -> Result<usize, SignatureError>
    requires place { at ≤ length text.now }
    requires short { length text.now ≤ 255 }
    ensures read { Tells (place text.now) result
        (placed (type_at arrays brackets at (drop at text.now))) }
    ensures within { IfOk result (λ next. (at < next) × (next ≤ length text.now)) }
{
    match text.get(at) {
        None => Err(SignatureError::BadSignature { at: at as u32 }),
        Some(b'a') => {
            if arrays == 0 {
                return Err(SignatureError::TooDeep { at: at as u32 });
            }
            check_element(text, at + 1, arrays - 1, brackets)
        }
        Some(b'(') => {
            if brackets == 0 {
                return Err(SignatureError::TooDeep { at: at as u32 });
            }
            check_members(text, at + 1, arrays, brackets - 1)
        }
        Some(_) => {
            let (_kind, next) = read_code(text, at)?;
            Ok(next)
        }
    }
}

#[cycle(check)]
#[tactic(auto, using(crate::proofs::CheckSteps::element_none, crate::proofs::CheckSteps::entry_deep, crate::proofs::CheckSteps::entry_on, crate::proofs::CheckSteps::element_other))]
fn check_element(
    text: &[u8],
    at: usize,
    arrays: u32,
    brackets: u32,
) -> Result<usize, SignatureError>
    requires place { at ≤ length text.now }
    requires short { length text.now ≤ 255 }
    ensures read { Tells (place text.now) result
        (placed (element_at (type_at arrays) brackets at (drop at text.now))) }
    ensures within { IfOk result (λ next. (at < next) × (next ≤ length text.now)) }
{
    match text.get(at) {
        None => Err(SignatureError::BadSignature { at: at as u32 }),
        Some(b'{') => {
            if brackets == 0 {
                return Err(SignatureError::TooDeep { at: at as u32 });
            }
            let (_key, middle) = read_key(text, at + 1)?;
            let end = check_type(text, middle, arrays, brackets - 1)?;
            closed(text, end, b'}')
        }
        Some(_) => check_type(text, at, arrays, brackets),
    }
}

#[cycle(check)]
#[tactic(auto, using(crate::proofs::CheckSteps::members_is))]
fn check_members(
    text: &[u8],
    at: usize,
    arrays: u32,
    brackets: u32,
) -> Result<usize, SignatureError>
    requires place { at ≤ length text.now }
    requires short { length text.now ≤ 255 }
    ensures read { Tells (place text.now) result
        (placed (members_at (type_at arrays brackets) at (drop at text.now))) }
    ensures within { IfOk result (λ next. (at < next) × (next ≤ length text.now)) }
{
    let mut next = check_type(text, at, arrays, brackets)?;
    while next < text.len() {
        if text[next] == b')' {
            return Ok(next + 1);
        }
        match check_type(text, next, arrays, brackets) {
            Ok(end) => next = end,
            Err(error) => return Err(error),
        }
    }
    Err(SignatureError::BadSignature { at: next as u32 })
}

/// Says whether a text of at most 255 bytes is read, and where it stops.
fn check_list(text: &[u8]) -> Result<(), SignatureError>
    requires short { length text.now ≤ 255 }
    ensures { Tells (λ u. u) result (passed (whole_at 32 32 text.now)) }
{
    let mut next = 0;
    while next < text.len() {
        match check_type(text, next, MOST_ARRAYS, MOST_BRACKETS) {
            Ok(end) => next = end,
            Err(error) => return Err(error),
        }
    }
    Ok(())
}

/// Says whether a text is a signature, without memory, and where it goes
/// wrong if it is none: the first place is named.
///
/// Source: D-Bus Specification, "Type System", "Valid Signatures".
pub fn check_signature(text: &[u8]) -> Result<(), SignatureError>
    ensures checked { IsChecked text.now result }
{
    // A longer text breaks at byte 255, unless it goes wrong ahead of that; one of at most 255
    // bytes that could only be finished beyond them breaks where it ends.
    if text.len() <= LONGEST {
        return check_list(text);
    }
    match check_list(&text[..LONGEST]) {
        Ok(()) => Err(SignatureError::BadSignature { at: LONGEST as u32 }),
        Err(error) => Err(error),
    }
}

/// Reads the types of a signature.
///
/// `BadSignature` names the first byte with which no signature goes on, or
/// the end of a text that ends too soon, or byte 255 of a longer text;
/// `TooDeep` the byte that opens one array, or one parenthesis or brace, too
/// many inside others. Of the two, the one that comes first is answered.
///
/// Source: D-Bus Specification, "Type System", "Valid Signatures".
pub fn read_signature(alloc: Global, text: &[u8]) -> Result<List<WireType>, SignatureError>
    ensures reading { IsReading text.now result }
    ensures only { (ts : List TheType) → IsSignature ts text.now → IsReadAs ts result }
{
    // It is checked first, so that no memory is taken for types of a text that is none.
    match check_signature(text) {
        Ok(()) => read_list(alloc, text),
        Err(error) => Err(error),
    }
}
