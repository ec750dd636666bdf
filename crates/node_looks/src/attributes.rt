//! The attributes of a node, as `include/uapi/linux/fuse.h` lists them.

ghost use Rattle.std.specs.Prelude.{◌≡◌};
ghost use Rattle.portal_model.specs.Attributes.{attr_of_file, attr_of_folder, on_node};

use portal_model::reply::Attr;
use portal_model::request::NodeRequest;

/// A file that its owner may read.
const FILE_MODE: u32 = 0o100400;
/// A file that its owner may read and write.
const WRITABLE_FILE_MODE: u32 = 0o100600;
/// A folder that its owner may read and go through.
const FOLDER_MODE: u32 = 0o040500;
/// A folder in which its owner may make names too.
const WRITABLE_FOLDER_MODE: u32 = 0o040700;

/// The unit in which `blocks` counts, in bytes.
const BLOCK: u64 = 512;
/// The block size that suits reading, in bytes.
const PREFERRED_SIZE: u32 = 4096;

/// The attributes of a file.
pub fn attr_of_file(
    request: &NodeRequest,
    node: u64,
    may_write: bool,
    size: u64,
    moment: u64,
) -> Attr
    ensures { result ≡ attr_of_file (on_node request.now node) may_write size moment }
{
    Attr {
        node,
        size,
        blocks: size.div_ceil(BLOCK),
        moment,
        mode: if may_write {
            WRITABLE_FILE_MODE
        } else {
            FILE_MODE
        },
        links: 1,
        // Each user finds files to be its own, so that a kernel that checks modes refuses none of
        // them.
        uid: request.uid,
        gid: request.gid,
        block_size: PREFERRED_SIZE,
    }
}

/// The attributes of a folder.
pub fn attr_of_folder(request: &NodeRequest, node: u64, may_write: bool) -> Attr
    ensures { result ≡ attr_of_folder (on_node request.now node) may_write }
{
    Attr {
        node,
        size: 0,
        blocks: 0,
        moment: 0,
        mode: if may_write {
            WRITABLE_FOLDER_MODE
        } else {
            FOLDER_MODE
        },
        links: 2,
        uid: request.uid,
        gid: request.gid,
        block_size: PREFERRED_SIZE,
    }
}
