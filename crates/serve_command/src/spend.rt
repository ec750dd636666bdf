//! A request that spends what a history has left.

/// The length of a FUSE_WRITE without its content: `fuse_in_header`, and `fuse_write_in`.
const WRITE_LEN: usize = 80;

/// The most content of one, in bytes.
const MOST_CONTENT: u64 = 131_072;

/// What a request without content costs the history, in bytes.
pub(crate) const REQUEST_COST: u64 = 128;

/// Its opcode.
const FUSE_WRITE: u32 = 16;

/// The number that its answer carries, which nobody reads.
const UNIQUE: u64 = 1;

/// The node that it names, the root.
const ROOT: u64 = 1;

/// Where its content's length stands.
const SIZE_AT: usize = 56;

/// Puts a FUSE_WRITE at the front of a buffer that costs a history with so much room all of
/// that, or as much as one can: how long it is. Where there is room for no request, or none in
/// the buffer, it is 0.
///
/// It writes to the handle 0, which nobody has: it changes nothing.
pub(crate) fn spending_request(room: u64, buffer: &mut [u8]) -> usize {
    if room < REQUEST_COST || buffer.len() < WRITE_LEN {
        return 0;
    }
    let fits = (buffer.len() - WRITE_LEN) as u64;
    let content = (room - REQUEST_COST).min(MOST_CONTENT).min(fits) as u32;
    let len = WRITE_LEN + content as usize;
    for byte in buffer.iter_mut().take(len) {
        *byte = 0;
    }
    put(buffer, 0, &(len as u32).to_le_bytes());
    put(buffer, 4, &FUSE_WRITE.to_le_bytes());
    put(buffer, 8, &UNIQUE.to_le_bytes());
    put(buffer, 16, &ROOT.to_le_bytes());
    put(buffer, SIZE_AT, &content.to_le_bytes());
    len
}

/// Puts bytes into a buffer, from an offset on.
fn put(buffer: &mut [u8], at: usize, bytes: &[u8]) {
    for (place, byte) in buffer.iter_mut().skip(at).zip(bytes) {
        *place = *byte;
    }
}
