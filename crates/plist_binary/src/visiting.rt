//! What the walk does at one object: a node of the value, or a key.
ghost use Rattle.std.specs.Prelude.{◌≡◌, ◌<◌, ◌≤◌, IfOk, IfErr, OnOk, IfSome, IfNone};
ghost use Rattle.std.specs.List.{Contains};
ghost use Rattle.plist_value.specs.Plist.{text};
ghost use Rattle.plist_value.specs.Budget.{Spends};
ghost use Rattle.plist_value.specs.Limits.{payload_of_scalar};
ghost use Rattle.plist_value.specs.Scalars.{content_of};
ghost use Rattle.plist_value.specs.Texts.{units_of};
ghost use Rattle.plist_object.specs.Layout.{trailer_of};
ghost use Rattle.plist_object.specs.Objects.{IsContent, holds_scalar};
ghost use Rattle.plist_object.specs.Places.{Holds};
ghost use Rattle.plist_object.specs.Views.{held_of};
ghost use Rattle.plist_binary.specs.Faults.{IsText};
ghost use Rattle.plist_binary.specs.Progress.{walked, above, IsDue, IsTaken, RefusesNode};
ghost use Rattle.plist_binary.specs.Paths.{IsKeyOf};
ghost use Rattle.plist_binary.specs.Progress.{IsProgressFrom};
ghost use Rattle.plist_binary.specs.Readings.{ReadsKey, RefusesKey};

use crate::BinaryFault;
use crate::progress::Progress;
use crate::states::{ObjectState, ValueSize, mark, state_at};
use crate::walker::{Node, Path, Walker};
use plist_object::Object;
use plist_value::{Budget, ScalarRef, TextRef};

impl<'a> Walker<'a> {
    // Visits a key of the dictionary. A string that was a key before is not decoded again.
    pub(crate) fn string_key(
        &self,
        progress: &mut Progress<'a>,
        table: u64,
        key: &Node,
    ) -> Result<(), BinaryFault>
        requires due { IsDue (walked self.now) key.now progress.old }
        requires key { IsKeyOf (walked self.now) table key.now.object }
        ensures read { OnOk result (ReadsKey (walked self.now) key.now.object key.now.levels
            progress.old.left progress.new.left) }
        ensures refused { IfErr result (RefusesKey (walked self.now) key.now.object key.now.levels
            progress.old.left) }
        ensures progress { OnOk result (IsProgressFrom (walked self.now) (above key.now)
            progress.old progress.new) }
    {
        if let ObjectState::Key { .. } = state_at(&progress.states, key.object) {
            if let Some((_, rest)) = progress.recall(key.object, key.levels) {
                progress.left = rest;
                return Ok(());
            }
        }
        let start = progress.left;
        let Some(text) = text_in(self.enter(progress, key)?) else {
            return Err(BinaryFault::KeyNotText { object: table });
        };
        take_payload(&mut progress.left, key.object, ScalarRef::Text(text))?;
        let payload = ValueSize::of(start, progress.left, 1).payload;
        let count = self.file.count();
        mark(
            &mut progress.states,
            count,
            key.object,
            ObjectState::Key { payload },
        )?;
        Ok(())
    }

    // Returns the reference, or fails if it is not one to an object.
    pub(crate) fn referred(&self, container: u64, reference: u64) -> Result<u64, BinaryFault>
        ensures same { IfOk result (λ object. object ≡ reference) }
        ensures below { IfOk result (λ object. object < (trailer_of (walked self.now)).count) }
        ensures above { IfErr result (λ fault. (fault ≡ BinaryFault.BadReference container) ×
            ((trailer_of (walked self.now)).count ≤ reference)) }
    {
        if reference < self.file.count() {
            Ok(reference)
        } else {
            Err(BinaryFault::BadReference { object: container })
        }
    }

    // Visits the node, and returns the content of its object.
    pub(crate) fn enter(
        &self,
        progress: &mut Progress<'a>,
        node: &Node,
    ) -> Result<Object<'a>, BinaryFault>
        requires { IsDue (walked self.now) node.now progress.old }
        ensures held { IfOk result (λ held. Holds (walked self.now) node.now.object
            (held_of held)) }
        ensures valid { IfOk result (λ held. IsContent (held_of held)) }
        ensures taken { OnOk result (IsTaken (walked self.now) node.now progress.old
            progress.new) }
        ensures refused { IfErr result (RefusesNode (walked self.now) node.now progress.old) }
    {
        self.refuse_cycle(progress, node)?;
        let object = node.object;
        let Some(rest) = progress.left.take_node() else {
            return Err(BinaryFault::TooManyNodes { object });
        };
        progress.left = rest;
        if node.levels == 0 {
            return Err(BinaryFault::TooDeep { object });
        }
        match self.file.object(object) {
            Ok(held) => Ok(held),
            Err(fault) => Err(BinaryFault::of_object(object, fault)),
        }
    }

    // Fails if the object is a container on its own path.
    #[inline(always)]
    fn refuse_cycle(&self, progress: &Progress<'a>, node: &Node) -> Result<(), BinaryFault>
        requires { IsDue (walked self.now) node.now progress.now }
        ensures new { OnOk result (¬ Contains (above node.now) node.now.object) }
        ensures refused { IfErr result (RefusesNode (walked self.now) node.now progress.now) }
    {
        match state_at(&progress.states, node.object) {
            ObjectState::Unseen => Ok(()),
            ObjectState::Passed { .. } => Ok(()),
            ObjectState::Key { .. } => Ok(()),
            ObjectState::Open => match node.path {
                Path::Above => Ok(()),
                Path::In(container, _) => Err(BinaryFault::Cycle { object: *container }),
            },
        }
    }
}

// Takes the payload of the scalar from the budget.
pub(crate) fn take_payload(
    left: &mut Budget,
    object: u64,
    scalar: ScalarRef,
) -> Result<(), BinaryFault>
    ensures ok { OnOk result (Spends left.old 0 (payload_of_scalar (content_of scalar.entry))
        left.new) }
    ensures over { IfErr result (λ fault. (fault ≡ BinaryFault.TooMuchPayload object) ×
        (left.old.payload < payload_of_scalar (content_of scalar.entry))) }
{
    let Some(rest) = left.take_payload(scalar.payload()) else {
        return Err(BinaryFault::TooMuchPayload { object });
    };
    *left = rest;
    Ok(())
}

pub(crate) fn text_in(held: Object<'_>) -> Option<TextRef<'_>>
    ensures text { IfSome result (λ key. held_of held.entry ≡ holds_scalar (text (units_of key))) }
    ensures other { IfNone result (¬ IsText (held_of held.entry)) }
{
    match held {
        Object::Scalar(ScalarRef::Text(key)) => Some(key),
        _ => None,
    }
}
