//! The lists that an opening state of the portal begins with.

pub use crate::granted::rights;
pub use crate::known::{known_name, known_path};
pub use crate::live::{document, documents};
pub use crate::numbered::applications;
