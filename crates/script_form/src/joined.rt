//! What is written of the items of a list, with a separator between each two.

ghost use Rattle.std.specs.Prelude.{◌≡◌, ◌≤◌, ◌++◌, OnOk, map};
ghost use Rattle.std.specs.List.{join_with_byte};
ghost use Rattle.script_lines.specs.Lines.{grant_text, row_text, letter, letters};

use portal_base::list::ByteList;
use portal_base::memory::WantOfMemory;
use portal_base::text::Text;
use portal_model::records::{GrantRecord, Row};

/// What can be written behind other bytes.
pub(crate) trait Written {
    ghost use Rattle.std.specs.Prelude.{◌≡◌, ◌++◌, OnOk, List, ℕ};

    /// What it is written as.
    ghost text: { Self → List ℕ };

    /// Writes it behind other bytes.
    fn write(&self, out: &mut ByteList) -> Result<(), WantOfMemory>
        ensures { OnOk result (out.new ≡ out.old ++ text self.now) };
}

impl Written for Text {
    ghost text = { λ text. text };

    fn write(&self, out: &mut ByteList) -> Result<(), WantOfMemory> {
        out.extend_from_slice(self.as_bytes())
    }
}

/// `NAME=LETTERS`.
impl Written for GrantRecord {
    ghost text = { grant_text };

    fn write(&self, out: &mut ByteList) -> Result<(), WantOfMemory> {
        out.extend_from_slice(self.app.as_slice())?;
        out.push(b'=')?;
        write_letters(out, self.rights)
    }
}

/// `NAME=PERM`, with each further permission behind a plus.
impl Written for Row {
    ghost text = { row_text };

    fn write(&self, out: &mut ByteList) -> Result<(), WantOfMemory> {
        out.extend_from_slice(self.app.as_bytes())?;
        out.push(b'=')?;
        write_joined(out, b'+', self.names.as_slice())
    }
}

/// Writes the letters of rights.
fn write_letters(out: &mut ByteList, rights: u8) -> Result<(), WantOfMemory>
    ensures { OnOk result (out.new ≡ out.old ++ letters rights) }
{
    write_letter(out, rights, 1, b'r')?;
    write_letter(out, rights, 2, b'w')?;
    write_letter(out, rights, 4, b'g')?;
    write_letter(out, rights, 8, b'd')
}

/// Writes a letter where the right with this number is among the rights.
fn write_letter(out: &mut ByteList, rights: u8, right: u8, byte: u8) -> Result<(), WantOfMemory>
    requires { 1 ≤ right }
    ensures { OnOk result (out.new ≡ out.old ++ letter rights right byte) }
{
    if rights / right % 2 == 1 {
        return out.push(byte);
    }
    Ok(())
}

/// Writes items with a separator between each two.
pub(crate) fn write_joined<T: Written>(
    out: &mut ByteList,
    separator: u8,
    items: &[T],
) -> Result<(), WantOfMemory>
    ensures { OnOk result (out.new
        ≡ out.old ++ join_with_byte separator (map T.text items.now)) }
{
    let Some((first, others)) = items.split_first() else {
        return Ok(());
    };
    first.write(out)?;
    for item in others {
        out.push(separator)?;
        item.write(out)?;
    }
    Ok(())
}
