//! Document identifiers.

ghost use Rattle.std.specs.Prelude.{◌≡◌, ◌%◌, ◌<◌, IfSome, Some, None, true, if◌then◌else◌};
ghost use Rattle.std.specs.Char.{digit_char, digit_value};
ghost use Rattle.portal_base.specs.Names.{is_lower_hex, is_doc_id, hex_number, doc_text};
ghost use Rattle.portal_base.specs.DocIds.{doc_id_of};

use crate::memory::{Replica, WantOfMemory};
use std::alloc::Global;

/// The number of a document, written as eight lower-case hexadecimal digits.
#[derive(Clone, Copy, Debug, PartialEq, Eq)]
pub struct DocId {
    /// The number that the digits write.
    pub number: u32,
}

impl DocId {
    /// The identifier that a text is; `None` where it isn't eight lower-case
    /// hexadecimal digits.
    pub fn read(text: &[u8]) -> Option<DocId>
        ensures { result ≡ doc_id_of text.now }
    {
        if text.len() != 8 {
            return None;
        }
        let mut number: u32 = 0;
        for byte in text {
            let digit = read_digit(*byte)?;
            number = number * 16 + u32::from(digit);
        }
        Some(DocId { number })
    }

    /// The eight digits, from which the identifier is read again.
    pub fn text(self) -> [u8; 8]
        ensures digits { result ≡ doc_text self.number }
        ensures again { doc_id_of result ≡ Some self }
    {
        digits(self.number)
    }
}

impl Replica for DocId {
    fn replica(&self, _alloc: Global) -> Result<DocId, WantOfMemory> {
        Ok(*self)
    }
}

/// The value of a lower-case hexadecimal digit.
fn read_digit(byte: u8) -> Option<u8>
    ensures digit { result ≡ (if is_lower_hex byte then Some (digit_value byte) else None) }
    ensures small { IfSome result (λ value. value < 16) }
{
    match byte {
        b'0'..=b'9' => Some(byte - b'0'),
        b'a'..=b'f' => Some(byte - b'a' + 10),
        _ => None,
    }
}

/// The eight hexadecimal digits of a number.
fn digits(number: u32) -> [u8; 8]
    ensures digits { result ≡ doc_text number }
    ensures again { doc_id_of result ≡ Some (record { number = number }) }
{
    [
        digit(number / 0x1000_0000),
        digit(number / 0x100_0000),
        digit(number / 0x10_0000),
        digit(number / 0x1_0000),
        digit(number / 0x1000),
        digit(number / 0x100),
        digit(number / 0x10),
        digit(number),
    ]
}

/// The last hexadecimal digit of a number.
fn digit(number: u32) -> u8
    ensures { result ≡ digit_char (number % 16) }
{
    let last = (number % 16) as u8;
    if last < 10 {
        b'0' + last
    } else {
        b'a' + (last - 10)
    }
}
