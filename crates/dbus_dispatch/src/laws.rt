//! Laws of what is answered.

ghost use Rattle.std.specs.Prelude.{◌≡◌, ◌<◌, ◌^◌, true, map};
ghost use Rattle.portal_base.specs.declared.limits.Settings.{Settings as TheSettings};
ghost use Rattle.portal_base.specs.Names.{is_host_path};
ghost use Rattle.dbus_types.specs.declared.message.Message.{Message as AMessage};
ghost use Rattle.dbus_dispatch.specs.Asks.{ask_of};
ghost use Rattle.dbus_dispatch.specs.Writable.{CanBeAnswered};
ghost use Rattle.portal_model.specs.declared.reply.Change.{Change as AChange};
ghost use Rattle.dbus_types.specs.Types.{types_text};
ghost use Rattle.dbus_values.specs.Values.{type_of};
ghost use Rattle.dbus_dispatch.specs.Signals.{changed_body};
ghost use Rattle.dbus_calls.specs.Tables.{changed};

/// What a message is answered can be written, with each serial that isn't 0:
/// its values keep the rules, and it is no longer than a message may be. The
/// mount point is a path on the host, and so at most 4,095 bytes long.
pub fn answers_can_be_written()
    ensures { (settings : TheSettings) (message : AMessage)
        → is_host_path settings.mountpoint ≡ true → message.serial < 2 ^ 32
        → CanBeAnswered (ask_of settings message) }
{}

/// What the signal Changed carries has the signature that the table gives.
pub fn signals_have_their_signatures()
    ensures { (change : AChange)
        → types_text (map type_of (changed_body change)) ≡ changed.carries }
{}
