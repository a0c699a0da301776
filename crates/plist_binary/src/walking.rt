//! The traversal of the objects of a file.
ghost use Rattle.std.specs.Prelude.{◌≡◌, ◌-◌, ◌&&◌, ℕ, List, max, IfOk, IfErr, OnOk};
ghost use Rattle.plist_value.specs.Scalars.{content_of};
ghost use Rattle.plist_value.specs.Writable.{is_writable_scalar};
ghost use Rattle.plist_keys.specs.KeyOrder.{IsReady};
ghost use Rattle.plist_object.specs.Layout.{trailer_of};
ghost use Rattle.plist_object.specs.Views.{numbers_of};
ghost use Rattle.plist_binary.specs.Budgets.{limits};
ghost use Rattle.plist_binary.specs.Progress.{walked, above, inside, AreDue, IsDue, PassesNode};
ghost use Rattle.plist_binary.specs.Progress.{PassesBelow, ReadsDistinct, RefusesDistinct};
ghost use Rattle.plist_binary.specs.Progress.{RefusesBelow, RefusesNode};
ghost use Rattle.plist_binary.specs.Passing.{PassesTop};
ghost use Rattle.plist_binary.specs.Paths.{HasKeys};
ghost use Rattle.plist_binary.specs.Progress.{IsProgress, IsProgressBut, IsProgressFrom};
ghost use Rattle.plist_binary.specs.Readings.{ReadsItems, Refuses, texts};

use crate::BinaryFault;
use crate::progress::Progress;
use crate::states::{ObjectState, ValueSize, mark};
use crate::visiting::take_payload;
use crate::walker::{Node, Path, Walker};
use plist_object::{Object, Refs};
use plist_value::{MAX_DEPTH, ScalarRef};

impl<'a> Walker<'a> {
    // Validates the top object within the limits, and returns what is known then.
    pub(crate) fn top(&self) -> Result<Progress<'a>, BinaryFault>
        ensures passed { IfOk result (λ known. PassesTop (walked self.now) known.writable) }
        ensures ready { IfOk result (λ known. IsReady (walked self.now) known.order) }
        ensures refused { IfErr result (Refuses (walked self.now) (trailer_of (walked self.now)).top
            MAX_DEPTH limits) }
    {
        let mut progress = Progress::none(self.alloc, &self.file);
        let path = Path::Above;
        let top = Node {
            path: &path,
            object: self.file.top(),
            levels: MAX_DEPTH,
        };
        self.validate(&mut progress, &top)?;
        Ok(progress)
    }

    // Validates the node and returns the depth of its value. An object that was visited before is
    // not visited again; of another one the depth and the budget it takes are recorded.
    #[cycle(walk)]
    fn validate(&self, progress: &mut Progress<'a>, node: &Node) -> Result<u64, BinaryFault>
        requires { IsDue (walked self.now) node.now progress.old }
        ensures passed { IfOk result (PassesNode (walked self.now) node.now progress.old
            progress.new) }
        ensures refused { IfErr result (RefusesNode (walked self.now) node.now progress.old) }
        ensures progress { OnOk result (IsProgress (walked self.now) (above node.now)
            progress.new) }
    {
        if let Some((deep, rest)) = progress.recall(node.object, node.levels) {
            progress.left = rest;
            return Ok(deep);
        }
        let before = progress.left;
        let deep = self.content_depth(progress, node)?;
        let size = ValueSize::of(before, progress.left, deep);
        let count = self.file.count();
        mark(&mut progress.states, count, node.object, size.passed())?;
        Ok(deep)
    }

    // Returns the depth of the node's value. A container is marked as open. In a dictionary all
    // keys are read before the values.
    #[cycle(walk)]
    fn content_depth(&self, progress: &mut Progress<'a>, node: &Node) -> Result<u64, BinaryFault>
        requires { IsDue (walked self.now) node.now progress.old }
        ensures passed { IfOk result (PassesNode (walked self.now) node.now progress.old
            progress.new) }
        ensures refused { IfErr result (RefusesNode (walked self.now) node.now progress.old) }
        ensures progress { OnOk result (IsProgressBut (walked self.now) (above node.now)
            node.now.object progress.new) }
    {
        let count = self.file.count();
        match self.enter(progress, node)? {
            Object::Scalar(scalar) => {
                take_payload(&mut progress.left, node.object, scalar)?;
                progress.writable = are_writable(progress.writable, &scalar);
                Ok(1)
            }
            Object::List(items) => {
                mark(&mut progress.states, count, node.object, ObjectState::Open)?;
                let deep = self.items_depth(progress, node, items)?;
                Ok(1 + deep)
            }
            Object::Table(keys, values) => {
                mark(&mut progress.states, count, node.object, ObjectState::Open)?;
                self.distinct_keys(progress, node, keys)?;
                let deep = self.items_depth(progress, node, values)?;
                Ok(1 + deep)
            }
        }
    }

    // Validates the items of the open container and returns the depth of the deepest.
    #[cycle(walk)]
    fn items_depth(
        &self,
        progress: &mut Progress<'a>,
        container: &Node,
        refs: Refs,
    ) -> Result<u64, BinaryFault>
        requires { AreDue (walked self.now) container.now (numbers_of refs) progress.old }
        ensures passed { IfOk result (PassesBelow (walked self.now) container.now
            (numbers_of refs.entry) progress.old progress.new) }
        ensures refused { IfErr result (RefusesBelow (walked self.now) container.now
            (numbers_of refs.entry) progress.old) }
        ensures progress { OnOk result (IsProgress (walked self.now) (inside container.now)
            progress.new) }
    {
        let path = Path::In(container.object, container.path);
        let levels = container.levels - 1;
        let mut deepest = 0;
        for i in 0..refs.len() {
            let object = self.referred(container.object, refs.get(i))?;
            let item = Node {
                path: &path,
                object,
                levels,
            };
            let deep = self.validate(&mut *progress, &item)?;
            deepest = deeper(deepest, deep);
        }
        Ok(deepest)
    }

    // Reads the keys of the dictionary, and fails if two are equal. This is a function of its own,
    // so that frames of objects without keys reserve no space for it.
    #[inline(never)]
    fn distinct_keys(
        &self,
        progress: &mut Progress<'a>,
        table: &Node,
        refs: Refs<'a>,
    ) -> Result<(), BinaryFault>
        requires due { AreDue (walked self.now) table.now (numbers_of refs) progress.old }
        requires keys { HasKeys (walked self.now) table.now.object (numbers_of refs) }
        ensures read { OnOk result (ReadsDistinct (walked self.now) table.now
            (numbers_of refs.entry) progress.old progress.new) }
        ensures refused { IfErr result (RefusesDistinct (walked self.now) table.now
            (numbers_of refs.entry) progress.old) }
    {
        self.string_keys(&mut *progress, table, refs)?;
        if !progress.order.sort(self.alloc, &self.file, &refs)? {
            let object = table.object;
            return Err(BinaryFault::DuplicateKey { object });
        }
        Ok(())
    }

    // Reads the keys of the dictionary, and fails if one is no string.
    fn string_keys(
        &self,
        progress: &mut Progress<'a>,
        table: &Node,
        refs: Refs,
    ) -> Result<(), BinaryFault>
        requires due { AreDue (walked self.now) table.now (numbers_of refs) progress.old }
        requires keys { HasKeys (walked self.now) table.now.object (numbers_of refs) }
        ensures read { OnOk result ((keys : List (List ℕ)) × ReadsItems (walked self.now)
            (numbers_of refs.entry) (table.now.levels - 1) progress.old.left (texts keys)
            progress.new.left) }
        ensures refused { IfErr result (RefusesDistinct (walked self.now) table.now
            (numbers_of refs.entry) progress.old) }
        ensures progress { OnOk result (IsProgressFrom (walked self.now) (inside table.now)
            progress.old progress.new) }
    {
        let path = Path::In(table.object, table.path);
        let levels = table.levels - 1;
        for i in 0..refs.len() {
            let object = self.referred(table.object, refs.get(i))?;
            let key = Node {
                path: &path,
                object,
                levels,
            };
            self.string_key(&mut *progress, table.object, &key)?;
        }
        Ok(())
    }
}

// Returns whether the scalars so far and this one are strings or data.
fn are_writable(so_far: bool, scalar: &ScalarRef) -> bool
    ensures { result ≡ (so_far && is_writable_scalar (content_of scalar.now)) }
{
    so_far && matches!(scalar, ScalarRef::Text(_) | ScalarRef::Bytes(_))
}

// Returns the greater of two depths.
fn deeper(first: u64, second: u64) -> u64
    ensures { result ≡ max first second }
{
    if first < second { second } else { first }
}
