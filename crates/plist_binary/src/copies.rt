//! Copies of scalars and strings.
ghost use Rattle.std.specs.Prelude.{◌≡◌, IfOk};
ghost use Rattle.plist_value.specs.Plist.{scalar as scalar_value};
ghost use Rattle.plist_value.specs.Scalars.{content_of};
ghost use Rattle.plist_value.specs.Texts.{units_of};
ghost use Rattle.plist_value.specs.View.{view};

use plist_value::{ScalarRef, TextRef, Utf16, Value};
use std::alloc::{AllocError, Global};

// Returns the scalar as a value with memory of its own.
pub(crate) fn value(alloc: Global, scalar: ScalarRef) -> Result<Value, AllocError>
    ensures { IfOk result (λ v. view v ≡ scalar_value (content_of scalar.entry)) }
{
    Ok(match scalar {
        ScalarRef::Text(text) => Value::Text(utf16(alloc, text)?),
        ScalarRef::Whole(whole) => Value::Whole(whole),
        ScalarRef::Flag(flag) => Value::Flag(flag),
        ScalarRef::Real4(octets) => Value::Real4(octets),
        ScalarRef::Real8(octets) => Value::Real8(octets),
        ScalarRef::Moment(octets) => Value::Moment(octets),
        ScalarRef::Bytes(octets) => Value::Bytes(Vec::from_slice(alloc, octets)?),
    })
}

// Returns a copy of the string.
pub(crate) fn utf16(alloc: Global, text: TextRef) -> Result<Utf16, AllocError>
    ensures { IfOk result (λ copy. copy ≡ units_of text.entry) }
{
    let mut units = Vec::with_capacity(alloc, text.len())?;
    for i in 0..text.len() {
        units.push(text.unit(i))?;
    }
    Ok(Utf16::from_units(units))
}
