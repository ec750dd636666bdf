//! What a line of the client asks.

ghost use Rattle.std.specs.Prelude.{◌≡◌};
ghost use Rattle.std.specs.Char.{is_ascii_hexdigit};
ghost use Rattle.std.specs.List.{list_all};
ghost use Rattle.dbus_auth.specs.Command.{command_of, is_hex_data, starts_hex_data};

/// The commands that the handshake tells apart (D-Bus Specification,
/// "Authentication Protocol").
#[derive(Clone, Copy, PartialEq, Eq)]
pub enum Command {
    /// `AUTH EXTERNAL` with the client's identity in hexadecimal behind it.
    AuthExternalWithIdentity,
    /// `AUTH EXTERNAL` alone.
    AuthExternal,
    /// `AUTH` alone, or with anything else behind it.
    AuthOther,
    /// `CANCEL`, or `ERROR` with or without a text.
    CancelOrError,
    /// `NEGOTIATE_UNIX_FD`.
    NegotiateUnixFd,
    /// `BEGIN`.
    Begin,
    /// `DATA`, alone or with data in hexadecimal behind it.
    Data,
    /// Any other line.
    Unknown,
}

/// Reads a line, which comes without its CR LF.
#[tactic(auto, unfolding(crate::specs::Command::command_of))]
pub fn read(line: &[u8]) -> Command
    ensures { result ≡ command_of line.now }
{
    // Data that isn't hexadecimal is no identity: such a line is AUTH and anything else. Digits of
    // either case are taken.
    if starts_hex_data(line, b"AUTH EXTERNAL ") {
        Command::AuthExternalWithIdentity
    } else if line == b"AUTH EXTERNAL".as_slice() {
        Command::AuthExternal
    } else if line == b"AUTH".as_slice() || line.starts_with(b"AUTH ") {
        Command::AuthOther
    } else if line == b"CANCEL".as_slice()
        || line == b"ERROR".as_slice()
        || line.starts_with(b"ERROR ")
    {
        Command::CancelOrError
    } else if line == b"NEGOTIATE_UNIX_FD".as_slice() {
        Command::NegotiateUnixFd
    } else if line == b"BEGIN".as_slice() {
        Command::Begin
    } else if line == b"DATA".as_slice() || starts_hex_data(line, b"DATA ") {
        Command::Data
    } else {
        Command::Unknown
    }
}

/// Says whether the line is this text and then whole bytes in hexadecimal.
fn starts_hex_data(line: &[u8], text: &[u8]) -> bool
    ensures { result ≡ starts_hex_data text.now line.now }
{
    line.strip_prefix(text)
        .is_some_and(|rest| is_hex_data(rest))
}

/// Says whether a text is an even number of hexadecimal digits, at least two.
fn is_hex_data(text: &[u8]) -> bool
    ensures { result ≡ is_hex_data text.now }
{
    text.len() >= 2 && text.len() % 2 == 0 && are_hex_digits(text)
}

fn are_hex_digits(text: &[u8]) -> bool
    ensures { result ≡ list_all is_ascii_hexdigit text.now }
{
    text.iter().all(|digit| digit.is_ascii_hexdigit())
}
