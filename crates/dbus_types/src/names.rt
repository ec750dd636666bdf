//! The names that messages carry.
//!
//! Source: D-Bus Specification, "Valid Object Paths" and "Valid Names". No
//! function here takes memory.

ghost use Rattle.std.specs.Prelude.{◌≡◌, ◌==◌, length};
ghost use Rattle.std.specs.List.{list_all, slice_split};
ghost use Rattle.dbus_types.specs.Names.{is_word_byte as word_byte, is_part as part_holds, is_path, is_element as element_holds, is_interface_name, is_member_name};

/// The greatest length of a name in bytes.
const LONGEST_NAME: usize = 255;

fn is_word_byte(byte: u8) -> bool
    ensures { result ≡ word_byte byte }
{
    byte.is_ascii_alphanumeric() || byte == b'_'
}

fn all_word_bytes(bytes: &[u8]) -> bool
    ensures { result ≡ list_all word_byte bytes.now }
{
    bytes.iter().all(|b| is_word_byte(*b))
}

fn is_part(part: &[u8]) -> bool
    ensures { result ≡ part_holds part.now }
{
    match part {
        [] => false,
        [first, rest @ ..] => is_word_byte(*first) && all_word_bytes(rest),
    }
}

fn all_parts(parts: &[u8]) -> bool
    ensures { result ≡ list_all part_holds (slice_split (λ b. b == 47) parts.now) }
{
    parts.split(|b| *b == b'/').all(|part| is_part(part))
}

/// Says whether a text is the path of an object: `/`, or parts of letters,
/// digits and `_`, each after one `/`.
pub fn is_object_path(text: &[u8]) -> bool
    ensures { result ≡ is_path text.now }
{
    match text {
        [] => false,
        [only] => *only == b'/',
        [first, parts @ ..] => *first == b'/' && all_parts(parts),
    }
}

fn is_element(element: &[u8]) -> bool
    ensures { result ≡ element_holds element.now }
{
    match element {
        [] => false,
        [first, rest @ ..] => {
            (first.is_ascii_alphabetic() || *first == b'_') && all_word_bytes(rest)
        }
    }
}

fn all_elements(text: &[u8]) -> bool
    ensures { result ≡ list_all element_holds (slice_split (λ b. b == 46) text.now) }
{
    text.split(|b| *b == b'.')
        .all(|element| is_element(element))
}

fn count_elements(text: &[u8]) -> usize
    ensures { result ≡ length (slice_split (λ b. b == 46) text.now) }
{
    text.split(|b| *b == b'.').count()
}

/// Says whether a text is the name of an interface, or of an error: two or
/// more elements with a `.` between them, each of letters, digits and `_`
/// without a digit first, in at most 255 bytes.
pub fn is_interface(text: &[u8]) -> bool
    ensures { result ≡ is_interface_name text.now }
{
    text.len() <= LONGEST_NAME && count_elements(text) >= 2 && all_elements(text)
}

/// Says whether a text is the name of a member: one element, as in the name
/// of an interface, in at most 255 bytes.
pub fn is_member(text: &[u8]) -> bool
    ensures { result ≡ is_member_name text.now }
{
    text.len() <= LONGEST_NAME && is_element(text)
}
