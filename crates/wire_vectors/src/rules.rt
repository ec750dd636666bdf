//! The rules of types and of values.

use crate::parts::put_after;
use crate::stack::{made_by, type_of};
use dbus_types::equal::same_type;
use dbus_types::layout::alignment_of;
use dbus_types::rules::{arrays_within, brackets_within, role_of};
use dbus_types::types::{Value, WireType};
use dbus_values::keeping::keeps_rules;
use dbus_values::nesting::nesting;
use dbus_values::typing::has_type;
use dbus_values::write::signature_text;
use portal_base::list::List;
use portal_base::memory::Replica;
use std::alloc::Global;
use vector_lines::error::LineError;
use vector_lines::notation::{cut, next, next_small};
use vector_lines::output::Output;

/// `type TYPE ARRAYS BRACKETS`: where the type may stand and its alignment; and
/// whether at most so many arrays, and so many parentheses and braces, stand in
/// each other. `()` is the struct without a member, which no text spells.
pub fn kind(alloc: Global, out: &mut Output, rest: &str) -> Result<(), LineError> {
    let mut words = rest.split_whitespace();
    let text = next(&mut words);
    let arrays = next_small(&mut words)?;
    let brackets = next_small(&mut words)?;
    let kind = match text {
        "()" => WireType::Struct(List::new(alloc)),
        _ => type_of(alloc, text)?,
    };
    out.debug(&role_of(&kind));
    put_after(out, " ", &alignment_of(&kind));
    put_after(out, " ", &arrays_within(&kind, arrays));
    put_after(out, " ", &brackets_within(&kind, brackets));
    Ok(())
}

/// `same TYPE TYPE`: whether the types are the same, and whether a copy of the
/// first is.
pub fn same(alloc: Global, out: &mut Output, rest: &str) -> Result<(), LineError> {
    let (first, second) = cut(rest);
    let first = type_of(alloc, first)?;
    put_same(alloc, out, &first, second)
}

fn put_same(
    alloc: Global,
    out: &mut Output,
    first: &WireType,
    second: &str,
) -> Result<(), LineError> {
    let second = type_of(alloc, second)?;
    out.debug(&same_type(first, &second));
    drop(second);
    let copy = first.replica(alloc)?;
    put_after(out, " ", &same_type(first, &copy));
    Ok(())
}

/// `keeps WORD ..`: whether the value that the words make keeps the rules, in how many
/// containers of it a value inside stands at most, and its signature.
pub fn keeps(alloc: Global, out: &mut Output, rest: &str) -> Result<(), LineError> {
    let made = made_by(alloc, rest)?;
    put_keeps(alloc, out, made.as_slice())
}

fn put_keeps(alloc: Global, out: &mut Output, made: &[Value]) -> Result<(), LineError> {
    let [value] = made else {
        return Err(LineError::BadLine);
    };
    out.debug(&keeps_rules(value));
    put_after(out, " ", &nesting(value));
    out.text(" ");
    out.text(signature_text(alloc, made)?.as_str());
    Ok(())
}

/// `has TYPE WORD ..`: whether the value that the words make has the type.
pub fn has(alloc: Global, out: &mut Output, rest: &str) -> Result<(), LineError> {
    let (kind, words) = cut(rest);
    let made = made_by(alloc, words)?;
    put_has(alloc, out, made.as_slice(), kind)
}

fn put_has(alloc: Global, out: &mut Output, made: &[Value], kind: &str) -> Result<(), LineError> {
    let [value] = made else {
        return Err(LineError::BadLine);
    };
    let kind = type_of(alloc, kind)?;
    out.debug(&has_type(value, &kind));
    Ok(())
}
