//! The names in the roots of views and in the folder of all views.

ghost use Rattle.std.specs.Prelude.{◌≡◌, ℕ, ◌<◌, ◌^◌, IfSome};
ghost use Rattle.portal_base.specs.Names.{doc_text, is_same};
ghost use Rattle.portal_model.specs.Applications.{name_of_number, number_of};
ghost use Rattle.node_looks.specs.Names.{is_app, is_number};

use document_records::Applications;
use portal_base::names::DocId;

/// The document that a name identifies: by eight lower-case hexadecimal digits.
pub fn id_named(name: &[u8]) -> Option<DocId>
    ensures { (number : ℕ) → number < 2 ^ 32 →
        is_same (doc_text number) name.now ≡ is_number result number }
{
    let id = DocId::read(name)?;
    if id.text().as_slice() == name {
        Some(id)
    } else {
        None
    }
}

/// The number of the application of a name. Of n applications it takes about n
/// steps.
pub fn number_named(applications: &Applications, name: &[u8]) -> Option<u32>
    ensures number { result ≡ number_of applications.now name.now }
    ensures small { IfSome result (λ number. number < 2 ^ 28) }
{
    for index in 0..applications.len() {
        if is_named(applications, index + 1, name) {
            return Some(index + 1);
        }
    }
    None
}

/// Says whether the application of a number has a name.
fn is_named(applications: &Applications, number: u32, name: &[u8]) -> bool
    ensures { result ≡ is_app (name_of_number applications.now number) name.now }
{
    match applications.name(number) {
        Some(app) => app.as_bytes() == name,
        None => false,
    }
}
