//! Requests of the FUSE protocol, as a kernel writes them.
//!
//! The frames are those of `include/uapi/linux/fuse.h`: a `fuse_in_header` of
//! 40 bytes, and then the opcode's own body. Every number is little-endian.
//!
//! **Promise**: what a frame asks is one table over the opcodes
//! (`specs/Asks.antt`, `IsFuse`), with the fields of each struct at their
//! offsets; what is answered without the portal is told with its answer, and a
//! body of another form is told apart.
//!
//! **Rooms**: [`frame`] finds where a frame ends and reads its header, [`opcode`]
//! has the opcodes by name, [`body`] reads the struct of each, [`init`] has what
//! FUSE_INIT settles, and [`request`] says what a whole frame asks.
//!
//! ```ignore
//! if let Split::Whole { len } = frame::split(bytes) {
//!     match request::read_request(alloc, &bytes[..len])? {
//!         FuseAsk::Portal(request) => ask(request),
//!         FuseAsk::Local(answer) => tell(frame::unique_of(bytes), answer),
//!         FuseAsk::Ignore => {}
//!     }
//! }
//! ```
#![tactic(auto)]

pub mod body;
pub mod frame;
pub mod init;
pub mod opcode;
pub mod request;
