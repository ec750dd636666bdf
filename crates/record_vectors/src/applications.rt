//! Applications that get numbers.

use crate::names::app_of;
use crate::steps::put_steps;
use document_records::Applications;
use portal_model::state::APPLICATIONS_LIMIT;
use std::alloc::Global;
use vector_lines::error::{VectorError, bad};
use vector_lines::notation::{cut, small_number};
use vector_lines::output::Output;

/// `applications STEP, STEP ..`: what each step answers, over none at first; and
/// how many there are at last.
pub fn applications(alloc: Global, out: &mut Output, rest: &str) -> Result<(), VectorError> {
    let mut applications = Applications::new(alloc);
    let put = put_steps(alloc, out, &mut applications, rest, "; ", put_step);
    out.text("; ");
    out.shown(&applications.len());
    drop(applications);
    put
}

/// `number APP`: the number that the application has or gets. `of APP`: the
/// number of the application. `name NUMBER`: the application of the number.
/// `back`: the last number is taken back.
fn put_step(
    alloc: Global,
    out: &mut Output,
    applications: &mut Applications,
    step: &str,
) -> Result<(), VectorError> {
    let (word, rest) = cut(step);
    let count = applications.len();
    match word {
        "number" if count < APPLICATIONS_LIMIT => {
            let number = applications.number(&app_of(alloc, rest)?);
            out.shown(&number?);
        }
        "of" => {
            let number = applications.of(&app_of(alloc, rest)?);
            out.debug(&number);
        }
        "name" => match applications.name(small_number(rest)?) {
            Some(app) => out.lossy(app.as_bytes()),
            None => out.text("none"),
        },
        "back" if count > 0 => {
            applications.take_back();
            out.text("back");
        }
        _ => return bad(),
    }
    Ok(())
}
