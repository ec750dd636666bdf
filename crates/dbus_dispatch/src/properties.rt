//! The properties of the interfaces.
//!
//! Source: D-Bus Specification, "org.freedesktop.DBus.Properties".

ghost use Rattle.std.specs.Prelude.{◌≡◌, IfOk};
ghost use Rattle.std.specs.Option.{option_map, option_to_list};
ghost use Rattle.dbus_calls.specs.Tables.{properties_of, version};
ghost use Rattle.dbus_dispatch.specs.Properties.{texts, value_in, interface_in, variant_of, dictionary};

use dbus_calls::error_name::ErrorName;
use dbus_calls::interface::{Interface, interface_named};
use dbus_calls::object::Object;
use dbus_requests::arguments::text_of;
use dbus_types::shared::Shared;
use dbus_types::types::{Value, WireType};
use portal_base::boxed::Boxed;
use portal_base::list::List;
use portal_base::memory::WantOfMemory;
use portal_base::text::Text;
use std::alloc::Global;

/// The one property that there is: the version of an interface.
const VERSION: &str = "version";

/// The value of the property that the arguments of a Get name, or its first
/// refusal: of the interface, then of the property.
pub fn value_in(object: Object, arguments: &[Value]) -> Result<u32, ErrorName>
    ensures { result ≡ value_in object (texts arguments.now) }
{
    let [interface, property] = arguments else {
        return Err(ErrorName::InvalidArgs);
    };
    let (Some(interface), Some(property)) = (text_of(interface), text_of(property)) else {
        return Err(ErrorName::InvalidArgs);
    };
    let Some(interface) = interface_named(object, interface.as_bytes()) else {
        return Err(ErrorName::UnknownInterface);
    };
    // Get and GetAll read their arguments behind the four refusals. Only the object's own
    // interface has a property.
    match version_of(interface) {
        Some(version) if property.as_str() == VERSION => Ok(version),
        _ => Err(ErrorName::UnknownProperty),
    }
}

/// The interface that the argument of a GetAll names, or its refusal.
pub fn interface_in(object: Object, arguments: &[Value]) -> Result<Interface, ErrorName>
    ensures { result ≡ interface_in object (texts arguments.now) }
{
    let [interface] = arguments else {
        return Err(ErrorName::InvalidArgs);
    };
    let Some(interface) = text_of(interface) else {
        return Err(ErrorName::InvalidArgs);
    };
    interface_named(object, interface.as_bytes()).ok_or(ErrorName::UnknownInterface)
}

/// The value of a property as a variant.
pub fn variant(alloc: Global, number: u32) -> Result<Value, WantOfMemory>
    ensures { IfOk result (λ value. value ≡ variant_of number) }
{
    Ok(Value::Variant(Boxed::new(alloc, Value::U32(number))?))
}

/// The properties of an interface as `a{sv}`.
pub fn dictionary(alloc: Global, interface: Interface) -> Result<Value, WantOfMemory>
    ensures { IfOk result (λ value. value ≡ dictionary (properties_of interface)) }
{
    let mut items = List::new(alloc);
    if let Some(version) = version_of(interface) {
        let name = Value::Str(Text::copied(alloc, VERSION)?);
        items.push(Value::DictEntry {
            key: Boxed::new(alloc, name)?,
            value: Boxed::new(alloc, variant(alloc, version)?)?,
        })?;
    }
    let element = WireType::DictEntry {
        key: Boxed::new(alloc, WireType::Str)?,
        value: Boxed::new(alloc, WireType::Variant)?,
    };
    let element = Shared::new(alloc, element)?;
    Ok(Value::Array { element, items })
}

/// The version of an interface, where it has that property.
fn version_of(interface: Interface) -> Option<u32>
    ensures { properties_of interface ≡ option_to_list (option_map version result) }
{
    match interface {
        Interface::Documents => Some(4),
        Interface::PermissionStore => Some(2),
        Interface::Files | Interface::Properties | Interface::Peer => None,
    }
}
