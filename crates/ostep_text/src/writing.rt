//! Writing a value.
ghost use Rattle.std.specs.Prelude.{◌≡◌, ◌++◌, true, false, Some, None, IfOk, OnOk, IsErrOf};
ghost use Rattle.plist_value.specs.Plist.{list, table};
ghost use Rattle.plist_value.specs.Limits.{Fits};
ghost use Rattle.plist_value.specs.View.{view, view_items, view_pairs};
ghost use Rattle.plist_value.specs.Writable.{is_writable};
ghost use Rattle.ostep_text.specs.Written.{written, text_of};
ghost use Rattle.ostep_text.specs.declared.write_fault.TextWriteFault.TheVariants.{NotInOpenStep};

use crate::TextWriteFault;
use crate::write_scalars::{put_data, put_text};
use plist_value::{Utf16, Value};
use std::alloc::Global;
use std::collections::BTreeMap;

/// Returns the OpenStep text of a value within the limits. Each value has at most one. Visits the
/// value once, and recurses as deep as the value.
///
/// # Errors
///
/// Fails with `NotInOpenStep` if the value contains an integer, boolean, real or date anywhere.
/// Fails with `OutOfMemory` if there is no memory for the text, possibly in place of the other.
pub fn write_text(alloc: Global, value: &Value) -> Result<Vec<u8>, TextWriteFault>
    requires { Fits (view value.now) }
    ensures ok { IfOk result (λ octets. text_of (view value.now) ≡ Some octets.items) }
    ensures refused { IsErrOf result NotInOpenStep → text_of (view value.now) ≡ None }
{
    let mut out = Vec::new(alloc);
    put_value(&mut out, value)?;
    out.push(b'\n')?;
    Ok(out)
}

// Appends the value to `out`.
#[cycle(put)]
fn put_value(out: &mut Vec<u8>, value: &Value) -> Result<(), TextWriteFault>
    ensures octets { OnOk result (out.new.items ≡ out.old.items ++ written (view value.now)) }
    ensures writable { OnOk result (is_writable (view value.now) ≡ true) }
    ensures refused { IsErrOf result NotInOpenStep → is_writable (view value.now) ≡ false }
{
    match value {
        Value::Text(text) => Ok(put_text(out, text.units())?),
        Value::Bytes(octets) => Ok(put_data(out, octets)?),
        Value::List(items) => put_list(out, items),
        Value::Table(pairs) => put_table(out, pairs),
        Value::Whole(_) | Value::Flag(_) | Value::Real4(_) | Value::Real8(_) | Value::Moment(_) =>
            Err(TextWriteFault::NotInOpenStep),
    }
}

#[cycle(put)]
fn put_list(out: &mut Vec<u8>, items: &Vec<Value>) -> Result<(), TextWriteFault>
    ensures octets { OnOk result (out.new.items
        ≡ out.old.items ++ written (list (view_items items.now.items))) }
    ensures writable { OnOk result (is_writable (list (view_items items.now.items)) ≡ true) }
    ensures refused { IsErrOf result NotInOpenStep
        → is_writable (list (view_items items.now.items)) ≡ false }
{
    out.extend_from_slice(b"(\n")?;
    for item in items {
        put_value(out, item)?;
        out.extend_from_slice(b",\n")?;
    }
    out.push(b')')?;
    Ok(())
}

#[cycle(put)]
fn put_table(out: &mut Vec<u8>, pairs: &BTreeMap<Utf16, Value>) -> Result<(), TextWriteFault>
    ensures octets { OnOk result (out.new.items
        ≡ out.old.items ++ written (table (view_pairs pairs.now.entries))) }
    ensures writable { OnOk result (is_writable (table (view_pairs pairs.now.entries)) ≡ true) }
    ensures refused { IsErrOf result NotInOpenStep
        → is_writable (table (view_pairs pairs.now.entries)) ≡ false }
{
    out.extend_from_slice(b"{\n")?;
    for (key, value) in pairs {
        put_text(out, key.units())?;
        out.extend_from_slice(b" = ")?;
        put_value(out, value)?;
        out.extend_from_slice(b";\n")?;
    }
    out.push(b'}')?;
    Ok(())
}
