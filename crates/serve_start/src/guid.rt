//! The guid of a service.

ghost use Rattle.serve_start.specs.Guids.{DrawsGuid};

use portal_base::outside::Words;

/// A guid of four drawn words, each with its highest byte first.
pub fn guid_of<W: Words>(words: &mut W) -> [u8; 16]
    ensures { DrawsGuid (W.told words.old) result (W.told words.new) }
{
    // The highest byte of each word first.
    let [a, b, c, d] = words.next().to_be_bytes();
    let [e, f, g, h] = words.next().to_be_bytes();
    let [i, j, k, l] = words.next().to_be_bytes();
    let [m, n, o, p] = words.next().to_be_bytes();
    [a, b, c, d, e, f, g, h, i, j, k, l, m, n, o, p]
}
