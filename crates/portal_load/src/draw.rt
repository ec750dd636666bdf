//! The numbers that requests are drawn from, and what is drawn of each.

ghost use Rattle.std.specs.Prelude.{◌≡◌};
ghost use Rattle.portal_load.specs.Draws.{asked_by, draw_of, next};

/// The factor of the generator, which is that of Knuth's MMIX.
const FACTOR: u64 = 6_364_136_223_846_793_005;

/// What it adds.
const ADDEND: u64 = 1_442_695_040_888_963_407;

/// The number that it begins with.
pub(crate) const FIRST: u64 = 1;

/// What a request asks.
#[derive(Clone, Copy, Debug, PartialEq, Eq)]
pub enum Asked {
    /// A document is looked up in the root of the mount.
    Lookup,
    /// The attributes of a document's file.
    GetAttr,
    /// A document's file is opened for reading and writing.
    Open,
    /// A handle is read.
    Read,
    /// A handle is written.
    Write,
    /// A handle is given up.
    Release,
    /// The host grants rights in a document to an application, or revokes them.
    Rights,
}

/// What is drawn of a number.
#[derive(Clone, Copy, PartialEq, Eq)]
pub struct Draw {
    /// The application, from 0 to 3.
    pub app: u32,
    /// The document, from 0 to 15.
    pub document: u32,
    /// What is asked.
    pub asked: Asked,
    /// A place from 0 to 1,023, which says the handle, where it is written, and
    /// whether rights are granted.
    pub place: u32,
}

/// The number behind another.
pub(crate) fn next(number: u64) -> u64
    ensures { result ≡ next number }
{
    number.wrapping_mul(FACTOR).wrapping_add(ADDEND)
}

/// What is drawn of the upper half of a number.
pub(crate) fn draw_of(upper: u32) -> Draw
    ensures { result ≡ draw_of upper }
{
    Draw {
        app: upper % 4,
        document: upper / 4 % 16,
        asked: asked_by(upper / 64 % 8),
        place: upper / 512 % 1024,
    }
}

/// What is asked by each of the eight kinds.
fn asked_by(kind: u32) -> Asked
    ensures { result ≡ asked_by kind }
{
    match kind {
        0 | 1 => Asked::Lookup,
        2 => Asked::GetAttr,
        3 => Asked::Open,
        4 => Asked::Read,
        5 => Asked::Write,
        6 => Asked::Release,
        _ => Asked::Rights,
    }
}
