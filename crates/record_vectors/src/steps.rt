//! Lines of steps, with a comma and a space between them.

use std::alloc::Global;
use vector_lines::error::VectorError;
use vector_lines::output::Output;

/// What each step answers over the same records, with `between` between two.
pub fn put_steps<T, F: Fn(Global, &mut Output, &mut T, &str) -> Result<(), VectorError>>(
    alloc: Global,
    out: &mut Output,
    records: &mut T,
    steps: &str,
    between: &str,
    put_step: F,
) -> Result<(), VectorError>
    requires { F.IsAlwaysCallable put_step }
{
    for (index, step) in steps.split(", ").enumerate() {
        if index > 0 {
            out.text(between);
        }
        put_step(alloc, out, records, step)?;
    }
    Ok(())
}
