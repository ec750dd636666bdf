//! Messages that are written, one behind the other, each with a serial of its
//! own.
//!
//! Source: D-Bus Specification, "Message Format".

ghost use Rattle.std.specs.Prelude.{◌≡◌, ◌∷◌, [], ◌++◌, map, true, IfOk, OnOk, IfSome};
ghost use Rattle.std.specs.Prelude.{option_to_list};
ghost use Rattle.std.specs.List.{list_all};
ghost use Rattle.dbus_dispatch.specs.Signals.{signal_of};
ghost use Rattle.dbus_dispatch.specs.Writable.{IsWritable};
ghost use Rattle.portal_model.specs.Valid.{is_sound_change};
ghost use Rattle.session.specs.Answers.{last_spoken, serial_after, spoken};

use dbus_dispatch::signal::signal_message;
use dbus_message::write::write_message;
use dbus_types::message::OutMessage;
use portal_base::list::{ByteList, List};
use portal_base::memory::WantOfMemory;
use portal_model::reply::Change;
use std::alloc::Global;

/// The bytes of messages, and the serial of the last of them.
#[derive(Drop)]
pub struct Speech {
    /// The bytes, each message a piece.
    pub pieces: List<ByteList>,
    /// The serial of the last message, 0 before the first.
    pub serial: u32,
}

/// The serial of the message behind one with this serial (D-Bus Specification,
/// "Message Format": a serial isn't 0).
pub fn serial_after(serial: u32) -> u32
    ensures { result ≡ serial_after serial }
{
    if serial == u32::MAX { 1 } else { serial + 1 }
}

/// Puts a message with the next serial behind the others.
fn speak(alloc: Global, speech: &mut Speech, message: &OutMessage) -> Result<(), WantOfMemory>
    requires { IsWritable message.now }
    ensures pieces { OnOk result (speech.new.pieces
        ≡ speech.old.pieces ++ spoken speech.old.serial (message.now ∷ [])) }
    ensures serial { OnOk result (speech.new.serial
        ≡ last_spoken speech.old.serial (message.now ∷ [])) }
{
    let next = serial_after(speech.serial);
    let bytes = write_message(alloc, message, next)?;
    speech.pieces.push(bytes)?;
    speech.serial = next;
    Ok(())
}

/// Puts the signals that tell of changes behind the others, in their order.
fn speak_signals(alloc: Global, speech: &mut Speech, changes: &[Change]) -> Result<(), WantOfMemory>
    requires { list_all is_sound_change changes.now ≡ true }
    ensures pieces { OnOk result (speech.new.pieces
        ≡ speech.old.pieces ++ spoken speech.old.serial (map signal_of changes.now)) }
    ensures serial { OnOk result (speech.new.serial
        ≡ last_spoken speech.old.serial (map signal_of changes.now)) }
{
    for change in changes {
        let signal = signal_message(alloc, change)?;
        speak(alloc, speech, &signal)?;
    }
    Ok(())
}

/// The signals that tell of changes, and behind them a message where there is
/// one, all behind a serial.
pub fn spoken(
    alloc: Global,
    serial: u32,
    changes: &[Change],
    message: &Option<OutMessage>,
) -> Result<Speech, WantOfMemory>
    requires sound { list_all is_sound_change changes.now ≡ true }
    requires writable { IfSome message.now IsWritable }
    ensures pieces { IfOk result (λ speech. speech.pieces
        ≡ spoken serial (map signal_of changes.now ++ option_to_list message.now)) }
    ensures serial { IfOk result (λ speech. speech.serial
        ≡ last_spoken serial (map signal_of changes.now ++ option_to_list message.now)) }
{
    let mut speech = Speech {
        pieces: List::new(alloc),
        serial,
    };
    speak_signals(alloc, &mut speech, changes)?;
    match message {
        Some(message) => {
            speak(alloc, &mut speech, message)?;
            Ok(speech)
        }
        None => Ok(speech),
    }
}
