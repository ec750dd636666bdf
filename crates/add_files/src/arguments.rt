//! The arguments of an addition.

ghost use Rattle.std.specs.Prelude.{◌≡◌, ◌∷◌, IfOk, IfErr, OnOk, true};
ghost use Rattle.portal_base.specs.Names.{is_host_path};
ghost use Rattle.portal_model.specs.Arguments.{ahead_of_end, has_end};
ghost use Rattle.portal_model.specs.AddArguments.{document_path, is_file_name};
ghost use Rattle.rights_rule.specs.Rights.{are_right_names, rights_named};
ghost use Rattle.add_files.specs.Arguments.{FailsCheck, are_few, has_app, has_file_name, is_joined_well};
ghost use Rattle.add_files.specs.Plans.{named_app};

use crate::flags::are_flags;
use crate::plan::AddError;
use portal_base::list::{ByteList, List};
use portal_base::memory::{Replica, WantOfMemory};
use portal_base::names::{AppId, HostPath, NameError};
use portal_base::text::Text;
use portal_model::request::AddRequest;
use rights_rule::{Rights, read_names};
use std::alloc::Global;

/// The most files of a call.
const FILES_LIMIT: usize = 16;

/// The greatest length of a file's name, in bytes.
const NAME_LIMIT: usize = 255;

/// Checks the number of files, and the flags.
pub fn few(add: &AddRequest) -> Result<(), AddError>
    ensures ok { OnOk result (are_few add.now ≡ true) }
    ensures err { IfErr result (FailsCheck (are_few add.now)) }
{
    if add.handles.len() <= FILES_LIMIT && are_flags(add) {
        Ok(())
    } else {
        Err(AddError::InvalidArgument)
    }
}

/// The rights that a call lists.
pub fn listed(names: &List<Text>) -> Result<Rights, AddError>
    ensures known { OnOk result (are_right_names names.now ≡ true) }
    ensures ok { IfOk result (λ rights. rights ≡ rights_named names.now) }
    ensures err { IfErr result (FailsCheck (are_right_names names.now)) }
{
    match read_names(names) {
        Ok(rights) => Ok(rights),
        Err(_) => Err(AddError::InvalidArgument),
    }
}

/// The application that a call names, where it names one.
pub fn named_app(alloc: Global, add: &AddRequest) -> Result<Option<AppId>, AddError>
    ensures known { OnOk result (has_app add.now ≡ true) }
    ensures ok { IfOk result (λ app. app ≡ named_app add.now) }
    ensures err { IfErr result (FailsCheck (has_app add.now)) }
{
    if add.app.is_empty() {
        return Ok(None);
    }
    match AppId::read(alloc, add.app.as_slice()) {
        Ok(app) => Ok(Some(app)),
        Err(NameError::Memory) => Err(AddError::Memory),
        Err(NameError::BadName { .. }) => Err(AddError::InvalidArgument),
    }
}

/// Checks the name of the file, where the call names one.
pub fn file_name(alloc: Global, add: &AddRequest) -> Result<(), AddError>
    ensures ok { OnOk result (has_file_name add.now ≡ true) }
    ensures err { IfErr result (FailsCheck (has_file_name add.now)) }
{
    if !add.named {
        return Ok(());
    }
    let name = add.name.as_slice();
    // The name comes with the zero byte that ends it, and has at most 255 bytes without it.
    if !has_end(name) {
        return Err(AddError::InvalidArgument);
    }
    if is_file_name(alloc, ahead_of_end(name))? {
        Ok(())
    } else {
        Err(AddError::InvalidArgument)
    }
}

/// The path of a document: that of the presented file, or of the named file in
/// it.
pub fn document_path(
    alloc: Global,
    add: &AddRequest,
    presented: &HostPath,
) -> Result<HostPath, AddError>
    ensures joined { OnOk result (is_joined_well add.now presented.now ≡ true) }
    ensures ok { IfOk result (λ path. path ≡ document_path add.now presented.now) }
    ensures err { IfErr result (FailsCheck (is_joined_well add.now presented.now)) }
{
    if !add.named {
        return Ok(presented.replica(alloc)?);
    }
    match presented.child(alloc, ahead_of_end(add.name.as_slice())) {
        Ok(path) => Ok(path),
        Err(NameError::Memory) => Err(AddError::Memory),
        Err(NameError::BadName { .. }) => Err(AddError::InvalidArgument),
    }
}

/// Says whether bytes end with a zero byte.
fn has_end(bytes: &[u8]) -> bool
    ensures { result ≡ has_end bytes.now }
{
    match bytes {
        [.., last] => *last == 0,
        [] => false,
    }
}

/// The bytes but for the last.
fn ahead_of_end(bytes: &[u8]) -> &[u8]
    ensures { result.now ≡ ahead_of_end bytes.now }
{
    bytes.split_at(bytes.len().saturating_sub(1)).0
}

/// Says whether bytes are one part of a path, of at most 255 bytes.
fn is_file_name(alloc: Global, name: &[u8]) -> Result<bool, WantOfMemory>
    ensures { IfOk result (λ answer. answer ≡ is_file_name name.now) }
{
    if name.is_empty() || name.len() > NAME_LIMIT || name.contains(&b'/') {
        return Ok(false);
    }
    is_part(alloc, name)
}

/// Says whether bytes are a path behind a slash.
fn is_part(alloc: Global, name: &[u8]) -> Result<bool, WantOfMemory>
    ensures { IfOk result (λ answer. answer ≡ is_host_path (47 ∷ name.now)) }
{
    let path = rooted(alloc, name)?;
    Ok(HostPath::is_path(path.as_slice()))
}

/// A slash and bytes.
fn rooted(alloc: Global, name: &[u8]) -> Result<ByteList, WantOfMemory>
    ensures { IfOk result (λ path. path ≡ 47 ∷ name.now) }
{
    let mut path = List::new(alloc);
    path.push(b'/')?;
    path.extend_from_slice(name)?;
    Ok(path)
}
