//! The input, read to its end.

ghost use Rattle.std.specs.Prelude.{◌≡◌, ◌<◌, ◌≤◌, length, IfOk, IfErr, OnOk, take};
ghost use Rattle.script_command.specs.Inputs.{IsWhole, Stops};

use portal_base::list::{ByteList, List};
use portal_base::memory::WantOfMemory;
use portal_base::outside::{ReadAnswer, Source};
use std::alloc::Global;

/// The most bytes that a script may have.
pub const LONGEST_SCRIPT: usize = 67_108_864;

/// How many bytes are asked of the source at a time.
const LONGEST_READ: usize = 4096;

/// Why an input is not read to its end.
#[derive(Clone, Copy, Debug, PartialEq, Eq)]
pub enum InputError {
    /// A read failed.
    Failed,
    /// More bytes came than a script may have.
    TooLong,
    /// There was no memory.
    Memory,
}

impl From<WantOfMemory> for InputError {
    ghost use Rattle.std.specs.Prelude.{◌≡◌};
    ghost use Rattle.script_command.specs.declared.input.InputError.TheVariants.{Memory};

    ghost from_gives = { λ _ e. e ≡ Memory };

    fn from(_error: WantOfMemory) -> InputError {
        InputError::Memory
    }
}

/// Reads a source to its end.
pub fn read_to_end<S: Source>(alloc: Global, source: &mut S) -> Result<ByteList, InputError>
    ensures ok { IfOk result (λ text. IsWhole (S.left source.old) text (S.left source.new)) }
    ensures counts { OnOk result (S.faults source.new ≡ S.faults source.old) }
    ensures err { IfErr result
        (Stops (S.left source.old) (S.faults source.old) (S.left source.new)
        (S.faults source.new)) }
{
    let mut text = List::new(alloc);
    let mut buffer = [0; LONGEST_READ];
    'pieces: loop {
        match source.read(&mut buffer) {
            ReadAnswer::End => return Ok(text),
            ReadAnswer::Failed => return Err(InputError::Failed),
            ReadAnswer::Got(len) => {
                let piece = front(&buffer, len);
                let Ok(()) = text.extend_from_slice(piece) else {
                    return Err(InputError::Memory);
                };
            }
        }
        // It is told as soon as too many bytes came, before the input ends.
        if text.len() > LONGEST_SCRIPT {
            return Err(InputError::TooLong);
        }
    }
}

/// The first `len` bytes.
fn front(bytes: &[u8], len: usize) -> &[u8]
    requires { len ≤ length bytes.now }
    ensures { result.now ≡ take len bytes.now }
{
    &bytes[..len]
}
