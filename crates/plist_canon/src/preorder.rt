//! The walk in preorder from object 0.
ghost use Rattle.std.specs.Prelude.{◌≡◌, ◌∷◌, ◌++◌, ◌+◌, ◌-◌, ◌<◌, ℕ, List, suc, length, false};
ghost use Rattle.std.specs.Prelude.{IsTrue, IfErr, IfOk, IfSome, IfNone, Option, OnOk};
ghost use Rattle.plist_value.specs.declared.budget.Budget.{Budget};
ghost use Rattle.plist_object.specs.Places.{Holds};
ghost use Rattle.plist_object.specs.Views.{held_of, numbers_of};
ghost use Rattle.plist_canon.specs.Checking.{IsFlaw};
ghost use Rattle.plist_canon.specs.First.{IsWalkFlaw};
ghost use Rattle.plist_canon.specs.Preorders.{IsNoneSeen, grouped, groups_of, path_groups};
ghost use Rattle.plist_canon.specs.Remaining.{TakesLeft};
ghost use Rattle.plist_canon.specs.Steps.{ComesToNext, FrameGoesOn, SkipsScalar, PathGoesOn};
ghost use Rattle.plist_canon.specs.Steps.{Walked, WalkedAll, WalksWithinLimits};

use crate::object_rules::Flaw;
use crate::rule::Rule;
use crate::weights::Weight;
use plist_object::{Object, Refs};
use plist_value::{Budget, MAX_DEPTH, MAX_NODES};
use std::alloc::{AllocError, Global};

// The references of an array, or those of a dictionary to its keys or to its values, on the path of
// the walk. `levels` is the depth allowed for the values that they refer to; `done` of them were
// visited.
#[derive(Clone, Copy)]
struct Frame<'a> {
    owner: u64,
    levels: u64,
    refs: Refs<'a>,
    done: u64,
}

// A reference, the depth allowed for its value, and the container that contains it.
#[derive(Clone, Copy)]
struct Visit {
    owner: u64,
    levels: u64,
    reference: u64,
}

// The walk in preorder from object 0, which visits the objects in the order of their numbers.
#[derive(Drop)]
pub(crate) struct Walk<'a> {
    // One for each object visited.
    weights: Vec<Weight>,
    path: Vec<Frame<'a>>,
    // What is left of the limits, `None` once one is exceeded.
    left: Option<Budget>,
    // Set once rule 7 is broken, which ends the walk: the container with the first bad reference,
    // or 0 if an object is never visited.
    broken_at: Option<u64>,
}

impl<'a> Walk<'a> {
    // Creates a walk before object 0, in a file of `count` objects.
    pub(crate) fn new(alloc: Global, count: u64) -> Result<Walk<'a>, AllocError>
        ensures { IfOk result (λ walk. (f : List ℕ) → Walked f 0 walk) }
    {
        Ok(Walk {
            weights: Vec::with_capacity(alloc, count.min(MAX_NODES) as usize)?,
            path: Vec::new(alloc),
            left: Some(Budget::whole()),
            broken_at: None,
        })
    }

    // Visits the next object, which contains `object`.
    #[inline(always)]
    pub(crate) fn visit(&mut self, object: &Object<'a>) -> Result<(), AllocError>
        ensures { OnOk result ((f : List ℕ) (i : ℕ) → Holds f i (held_of object.now)
            → Walked f i self.old → Walked f (suc i) self.new) }
    {
        if self.broken_at.is_some() {
            return Ok(());
        }
        let levels = match next_levels(&mut self.path, &mut self.left, &self.weights) {
            Ok(levels) => levels,
            Err(owner) => {
                self.broken_at = Some(owner);
                return Ok(());
            }
        };
        let weight = Weight::of(object);
        let number = self.weights.len() as u64;
        self.left = spend(self.left, weight, levels);
        self.weights.push(weight)?;
        push_parts(object, number, levels, &mut self.path)?;
        Ok(())
    }

    // Validates rule 7 after all objects were visited: the walk visits them in the order of their
    // numbers, and only scalars again. Then validates rule 0 for the limits: the value of object 0
    // is within them.
    pub(crate) fn finish(self) -> Result<(), Flaw>
        ensures ok { OnOk result ((f : List ℕ) → WalkedAll f self.entry → WalksWithinLimits f) }
        ensures err { IfErr result (λ flaw. (f : List ℕ) → WalkedAll f self.entry → IsFlaw f flaw) }
        ensures first { IfErr result
            (λ flaw. (f : List ℕ) → WalkedAll f self.entry → IsWalkFlaw f flaw) }
    {
        let Walk {
            weights,
            mut path,
            mut left,
            broken_at,
        } = self;
        if let Some(owner) = broken_at {
            return Err(Flaw::at(Rule::Preorder, owner));
        }
        if let Some(visit) = next_visit(&mut path, &mut left, &weights) {
            return Err(Flaw::at(Rule::Preorder, visit.owner));
        }
        match left {
            Some(_) => Ok(()),
            None => Err(Flaw::at(Rule::Readable, 0)),
        }
    }
}

// Returns the depth allowed for the next object if the walk reaches it next, else the container at
// which rule 7 is broken. Starts the walk at object 0.
#[inline(always)]
fn next_levels(
    path: &mut Vec<Frame>,
    left: &mut Option<Budget>,
    weights: &[Weight],
) -> Result<u64, u64>
    ensures { ComesToNext weights.now path.old.items left.old result path.new.items left.new }
{
    if weights.is_empty() {
        return Ok(MAX_DEPTH);
    }
    let Some(visit) = next_visit(path, left, weights) else {
        return Err(0);
    };
    if visit.reference != weights.len() as u64 {
        return Err(visit.owner);
    }
    Ok(visit.levels)
}

// Pushes the references of an object that was visited with `levels` allowed; for them one less is
// allowed.
#[inline(always)]
fn push_parts<'a>(
    object: &Object<'a>,
    number: u64,
    levels: u64,
    path: &mut Vec<Frame<'a>>,
) -> Result<(), AllocError>
    ensures { OnOk result (path_groups path.new.items
        ≡ groups_of number (levels - 1) (held_of object.now) ++ path_groups path.old.items) }
{
    match object {
        Object::Scalar(_) => Ok(()),
        Object::List(items) => push_part(path, number, levels, *items),
        Object::Table(keys, values) => {
            push_part(path, number, levels, *values)?;
            push_part(path, number, levels, *keys)
        }
    }
}

// Pushes references of `owner`, none of them visited yet.
fn push_part<'a>(
    path: &mut Vec<Frame<'a>>,
    owner: u64,
    levels: u64,
    refs: Refs<'a>,
) -> Result<(), AllocError>
    ensures { OnOk result (path_groups path.new.items
        ≡ grouped owner (levels - 1) (numbers_of refs.entry) ∷ path_groups path.old.items) }
{
    path.push(Frame {
        owner,
        levels: levels.saturating_sub(1),
        refs,
        done: 0,
    })?;
    Ok(())
}

// Returns the next reference on the path that does not point to a visited scalar.
#[inline(always)]
fn next_visit(path: &mut Vec<Frame>, left: &mut Option<Budget>, weights: &[Weight]) -> Option<Visit>
    ensures goes { PathGoesOn weights.now path.old.items left.old result path.new.items left.new }
    ensures none { IfSome result (λ visit. IsNoneSeen weights.now visit.reference) }
{
    while let Some(frame) = path.last_mut() {
        if let Some((done, reference)) = first_other(frame, left, weights) {
            frame.done = done;
            return Some(Visit {
                owner: frame.owner,
                levels: frame.levels,
                reference,
            });
        }
        path.pop();
    }
    None
}

// Returns the next reference of the frame that does not point to a visited scalar, and the index
// after it.
#[inline(always)]
fn first_other(frame: &Frame, left: &mut Option<Budget>, weights: &[Weight]) -> Option<(u64, u64)>
    ensures goes { FrameGoesOn weights.now frame.now left.old result left.new }
    ensures none { IfSome result (λ p. IsNoneSeen weights.now p.1) }
{
    for index in frame.done..frame.refs.len() {
        let reference = frame.refs.get(index);
        if !skip_scalar(left, weights, reference, frame.levels) {
            return Some((index + 1, reference));
        }
    }
    None
}

// Skips a reference to a visited scalar, counts it against the limits, and returns whether it was
// one. `levels` is the depth allowed for its value.
#[inline(always)]
fn skip_scalar(left: &mut Option<Budget>, weights: &[Weight], reference: u64, levels: u64) -> bool
    ensures passed { IsTrue result → SkipsScalar weights.now levels reference left.old left.new }
    ensures stays { result ≡ false → left.new ≡ left.old }
    ensures none { result ≡ false → IsNoneSeen weights.now reference }
{
    if reference >= weights.len() as u64 {
        return false;
    }
    let weight = weights[reference as usize];
    if !weight.is_scalar() {
        return false;
    }
    *left = spend(*left, weight, levels);
    true
}

// Returns the budget left after an object of this size; `levels` is the depth still allowed.
#[inline(always)]
fn spend(left: Option<Budget>, weight: Weight, levels: u64) -> Option<Budget>
    ensures { TakesLeft levels weight left result }
{
    if levels == 0 {
        return None;
    }
    weight.spend(left?)
}
