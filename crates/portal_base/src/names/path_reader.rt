//! How a path on the host is read, byte by byte.

ghost use Rattle.std.specs.Prelude.{◌≡◌, IfNone, IfSome, true};
ghost use Rattle.std.specs.Int.{is_in_range};
ghost use Rattle.portal_base.specs.Names.{is_host_path, has_path_form, path_limit, IsFirstBreak};

/// The greatest length of a path, in bytes.
const LIMIT: usize = 4_095;

/// What the last part of a path is, as far as it is read.
#[derive(Clone, Copy)]
enum Part {
    /// Nothing is read.
    Unread,
    /// The slash at the front is read, and nothing more.
    Root,
    /// The slash ahead of the part is read, and nothing more.
    Empty,
    /// The part is `.` so far.
    Dot,
    /// The part is `..` so far.
    Dots,
    /// The part is a name.
    Named,
}

impl Part {
    ghost use Rattle.std.specs.Prelude.{◌≡◌};
    ghost use Rattle.portal_base.specs.PathReading.{part_after, after_slash, after_dot, after_other, is_whole_part};

    /// The part with one more byte, where there is a path that goes on so.
    fn after(self, byte: u8) -> Option<Part>
        ensures { result ≡ part_after self byte }
    {
        match byte {
            0 => None,
            b'/' => self.after_slash(),
            b'.' => self.after_dot(),
            _ => self.after_other(),
        }
    }

    fn after_slash(self) -> Option<Part>
        ensures { result ≡ after_slash self }
    {
        match self {
            Part::Unread => Some(Part::Root),
            Part::Named => Some(Part::Empty),
            Part::Root | Part::Empty | Part::Dot | Part::Dots => None,
        }
    }

    fn after_dot(self) -> Option<Part>
        ensures { result ≡ after_dot self }
    {
        match self {
            Part::Unread => None,
            Part::Root | Part::Empty => Some(Part::Dot),
            Part::Dot => Some(Part::Dots),
            Part::Dots | Part::Named => Some(Part::Named),
        }
    }

    fn after_other(self) -> Option<Part>
        ensures { result ≡ after_other self }
    {
        match self {
            Part::Unread => None,
            _ => Some(Part::Named),
        }
    }

    /// Says whether a path may end here.
    fn is_whole(self) -> bool
        ensures { result ≡ is_whole_part self }
    {
        match self {
            Part::Root | Part::Named => true,
            _ => false,
        }
    }
}

/// What may come next in a text in UTF-8.
///
/// Source: The Unicode Standard, table 3-7, "Well-Formed UTF-8 Byte
/// Sequences".
#[derive(Clone, Copy)]
enum Next {
    /// The first byte of a character.
    Lead,
    /// The last byte of a character.
    Last,
    /// Two more bytes of a character.
    TwoMore,
    /// Three more bytes of a character.
    ThreeMore,
    /// Two more, of which the first is at least `a0`.
    AfterE0,
    /// Two more, of which the first is at most `9f`.
    AfterEd,
    /// Three more, of which the first is at least `90`.
    AfterF0,
    /// Three more, of which the first is at most `8f`.
    AfterF4,
}

impl Next {
    ghost use Rattle.std.specs.Prelude.{◌≡◌};
    ghost use Rattle.portal_base.specs.PathReading.{next_after, after_lead, within, is_lead};

    /// What may come after one more byte, where there is a text that goes on
    /// so.
    fn after(self, byte: u8) -> Option<Next>
        ensures { result ≡ next_after self byte }
    {
        match self {
            Next::Lead => Next::after_lead(byte),
            Next::Last => within(0x80, 0xBF, byte, Next::Lead),
            Next::TwoMore => within(0x80, 0xBF, byte, Next::Last),
            Next::ThreeMore => within(0x80, 0xBF, byte, Next::TwoMore),
            Next::AfterE0 => within(0xA0, 0xBF, byte, Next::Last),
            Next::AfterEd => within(0x80, 0x9F, byte, Next::Last),
            Next::AfterF0 => within(0x90, 0xBF, byte, Next::TwoMore),
            Next::AfterF4 => within(0x80, 0x8F, byte, Next::TwoMore),
        }
    }

    fn after_lead(byte: u8) -> Option<Next>
        ensures { result ≡ after_lead byte }
    {
        match byte {
            0..=0x7F => Some(Next::Lead),
            0x80..=0xC1 => None,
            0xC2..=0xDF => Some(Next::Last),
            0xE0 => Some(Next::AfterE0),
            0xED => Some(Next::AfterEd),
            0xE1..=0xEF => Some(Next::TwoMore),
            0xF0 => Some(Next::AfterF0),
            0xF1..=0xF3 => Some(Next::ThreeMore),
            0xF4 => Some(Next::AfterF4),
            0xF5..=0xFF => None,
        }
    }

    /// Says whether no character is cut here.
    fn is_lead(self) -> bool
        ensures { result ≡ is_lead self }
    {
        match self {
            Next::Lead => true,
            _ => false,
        }
    }
}

ghost use Rattle.portal_base.specs.PathReading.{within};

/// What comes next behind a byte between two bounds.
fn within(least: u8, most: u8, byte: u8, next: Next) -> Option<Next>
    ensures { result ≡ within least most byte next }
{
    if least <= byte && byte <= most {
        Some(next)
    } else {
        None
    }
}

/// The first place at which a text breaks the rule of a path on the host.
pub fn first_break(text: &[u8]) -> Option<u32>
    ensures none { IfNone result (is_host_path text.now ≡ true) }
    ensures some { IfSome result (IsFirstBreak has_path_form path_limit text.now) }
{
    let mut part = Part::Unread;
    let mut next = Next::Lead;
    for (at, byte) in text.iter().enumerate() {
        if at == LIMIT {
            return Some(at as u32);
        }
        let Some(longer) = part.after(*byte) else {
            return Some(at as u32);
        };
        let Some(then) = next.after(*byte) else {
            return Some(at as u32);
        };
        part = longer;
        next = then;
    }
    if part.is_whole() && next.is_lead() {
        None
    } else {
        Some(text.len() as u32)
    }
}
