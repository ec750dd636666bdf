//! Identifiers and names as texts.

ghost use Rattle.std.specs.Prelude.{◌≡◌, IfOk};
ghost use Rattle.portal_base.specs.Names.{doc_text};

use portal_base::memory::WantOfMemory;
use portal_base::names::{AppId, DocId};
use portal_base::text::Text;
use std::alloc::Global;

/// The eight digits of an identifier.
pub fn id_text(alloc: Global, id: DocId) -> Result<Text, WantOfMemory>
    ensures { IfOk result (λ text. text ≡ doc_text id.number) }
{
    // Digits are ASCII, of which nothing is replaced.
    let text = String::from_utf8_lossy(alloc, &id.text())?;
    Ok(Text::from_string(text))
}

/// The name of an application.
pub(crate) fn name_text(alloc: Global, app: &AppId) -> Result<Text, WantOfMemory>
    ensures { IfOk result (λ text. text ≡ app.now) }
{
    // Names are ASCII, of which nothing is replaced.
    let text = String::from_utf8_lossy(alloc, app.as_bytes())?;
    Ok(Text::from_string(text))
}
