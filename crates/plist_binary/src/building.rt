//! Building the value of a validated binary file. Only running out of memory can prevent it.
ghost use Rattle.std.specs.Prelude.{◌≡◌, ◌<◌, ◌≤◌, IfOk};
ghost use Rattle.std.specs.List.{zip};
ghost use Rattle.plist_value.specs.Plist.{scalar, text};
ghost use Rattle.plist_value.specs.View.{view, view_items, view_pairs};
ghost use Rattle.plist_value.specs.Texts.{units_of};
ghost use Rattle.plist_object.specs.Objects.{IsContent};
ghost use Rattle.plist_object.specs.Places.{Holds, HoldsText};
ghost use Rattle.plist_object.specs.Spelled.{SpellsWithin};
ghost use Rattle.plist_object.specs.Views.{held_of, numbers_of, octets_of};
ghost use Rattle.plist_binary.specs.Building.{AllSpellWithin, AreSpelled, HoldsSome, IsSpelled};
ghost use Rattle.plist_binary.specs.Building.{SpellsPairsWithin};
ghost use Rattle.plist_binary.specs.Readings.{PairsSpelled};

use crate::copies;
use crate::visiting::text_in;
use plist_object::{BinFile, Object, Refs};
use plist_value::{TextRef, Utf16, Value};
use std::alloc::{AllocError, Global};
use std::collections::BTreeMap;

#[derive(Clone, Copy)]
pub(crate) struct Builder<'a> {
    pub(crate) alloc: Global,
    pub(crate) file: BinFile<'a>,
}

impl<'a> Builder<'a> {
    // Returns the value of the object; `levels` is the depth allowed for it.
    #[cycle(build)]
    pub(crate) fn value(&self, object: u64, levels: u64) -> Result<Value, AllocError>
        requires { SpellsWithin (octets_of self.now.file) object levels }
        ensures { IfOk result (λ value. IsSpelled (octets_of self.now.file) object (view value)) }
    {
        match self.held(object) {
            Object::Scalar(scalar) => copies::value(self.alloc, scalar),
            Object::List(items) => Ok(Value::List(self.items(items, levels - 1)?)),
            Object::Table(keys, values) => {
                Ok(Value::Table(self.pairs(keys, values, levels - 1)?))
            }
        }
    }

    // Returns the values that the references point to, in order.
    #[cycle(build)]
    fn items(&self, refs: Refs, levels: u64) -> Result<Vec<Value>, AllocError>
        requires { AllSpellWithin (octets_of self.now.file) (numbers_of refs) levels }
        ensures { IfOk result (λ items. AreSpelled (octets_of self.now.file) (numbers_of refs.entry)
            (view_items items.items)) }
    {
        let mut items = Vec::with_capacity(self.alloc, refs.len() as usize)?;
        for i in 0..refs.len() {
            items.push(self.value(refs.get(i), levels)?)?;
        }
        Ok(items)
    }

    // Returns the pairs that the references to keys and to values give.
    #[cycle(build)]
    fn pairs(
        &self,
        keys: Refs,
        values: Refs,
        levels: u64,
    ) -> Result<BTreeMap<Utf16, Value>, AllocError>
        requires { SpellsPairsWithin (octets_of self.now.file) (numbers_of keys) (numbers_of values)
            levels }
        ensures { IfOk result (λ pairs. PairsSpelled (octets_of self.now.file)
            (zip (numbers_of keys.entry) (numbers_of values.entry)) (view_pairs pairs.entries)) }
    {
        let mut pairs = BTreeMap::new(self.alloc);
        for i in 0..keys.len() {
            let key = copies::utf16(self.alloc, self.text(keys.get(i)))?;
            let value = self.value(values.get(i), levels)?;
            drop(pairs.insert(key, value)?);
        }
        Ok(pairs)
    }

    fn text(&self, object: u64) -> TextRef<'a>
        requires { HoldsText (octets_of self.now.file) object }
        ensures { IsSpelled (octets_of self.now.file) object (scalar (text (units_of result))) }
    {
        text_in(self.held(object)).unwrap()
    }

    fn held(&self, object: u64) -> Object<'a>
        requires { HoldsSome (octets_of self.now.file) object }
        ensures held { Holds (octets_of self.now.file) object (held_of result) }
        ensures valid { IsContent (held_of result) }
    {
        self.file.object(object).unwrap()
    }
}
