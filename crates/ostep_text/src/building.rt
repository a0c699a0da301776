//! Appending what is read to a draft.
ghost use Rattle.std.specs.Prelude.{◌≡◌, length, IfOk, IfErr};
ghost use Rattle.plist_value.specs.Texts.{units_of};
ghost use Rattle.plist_value.specs.Plist.{AreUnits, Items, Pairs, scalar, text as units, bytes};
ghost use Rattle.plist_value.specs.Plist.{list, table};
ghost use Rattle.plist_draft.specs.Encoded.{Keeps, SpellsIn, SpellItemsIn};
ghost use Rattle.plist_draft.specs.View.{objects};
ghost use Rattle.ostep_text.specs.Drafted.{SpellsRows};
ghost use Rattle.ostep_text.specs.declared.fault.TextFault.TheVariants.{OutOfMemory};

use crate::TextFault;
use crate::entries::Entries;
use crate::key::Key;
use plist_draft::Draft;
use plist_value::{ScalarRef, TextRef};

// Appends a string or finds an equal one, and returns its number.
pub(crate) fn put_text(draft: &mut Draft, text: TextRef<'_>) -> Result<u32, TextFault>
    requires { AreUnits (units_of text) }
    ensures spells { IfOk result (λ number.
        SpellsIn (objects draft.new) number (scalar (units (units_of text.entry)))) }
    ensures kept { Keeps (objects draft.old) (objects draft.new) }
    ensures memory { IfErr result (λ fault. fault ≡ OutOfMemory) }
{
    Ok(draft.share_scalar(&ScalarRef::Text(text))?)
}

// Appends the string of a key or finds an equal one, and returns its number.
pub(crate) fn put_key(draft: &mut Draft, key: &Key<'_>) -> Result<u32, TextFault>
    ensures spells { IfOk result (λ number.
        SpellsIn (objects draft.new) number (scalar (units key.now))) }
    ensures kept { Keeps (objects draft.old) (objects draft.new) }
    ensures memory { IfErr result (λ fault. fault ≡ OutOfMemory) }
{
    put_text(draft, key.text())
}

// Appends data and returns its number.
pub(crate) fn put_data(draft: &mut Draft, octets: &[u8]) -> Result<u32, TextFault>
    ensures spells { IfOk result (λ number.
        SpellsIn (objects draft.new) number (scalar (bytes octets.now))) }
    ensures kept { Keeps (objects draft.old) (objects draft.new) }
    ensures memory { IfErr result (λ fault. fault ≡ OutOfMemory) }
{
    let scalar = ScalarRef::Bytes(octets);
    Ok(draft.put_scalar(&scalar)?)
}

// Appends an array of these objects and returns its number.
pub(crate) fn put_list(draft: &mut Draft, items: &[u32]) -> Result<u32, TextFault>
    ensures spells { IfOk result (λ number. (vs : Items)
        → SpellItemsIn (objects draft.old) items.now vs
        → SpellsIn (objects draft.new) number (list vs)) }
    ensures kept { Keeps (objects draft.old) (objects draft.new) }
    ensures memory { IfErr result (λ fault. fault ≡ OutOfMemory) }
{
    Ok(draft.put_list(items)?)
}

// Appends a dictionary of these rows and returns its number.
pub(crate) fn put_table(draft: &mut Draft, rows: &Entries) -> Result<u32, TextFault>
    requires { length rows.now.keys.items ≡ length rows.now.values.items }
    ensures spells { IfOk result (λ number. (pairs : Pairs)
        → SpellsRows (objects draft.old) rows.now pairs
        → SpellsIn (objects draft.new) number (table pairs)) }
    ensures kept { Keeps (objects draft.old) (objects draft.new) }
    ensures memory { IfErr result (λ fault. fault ≡ OutOfMemory) }
{
    Ok(draft.put_table(&rows.keys, &rows.values)?)
}
