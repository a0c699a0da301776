//! What is known of the objects of a file while it is validated.
ghost use Rattle.std.specs.Prelude.{◌≡◌, ◌+◌, ◌<◌, ◌≤◌, ℕ, Bool, List, IfSome, OnOk};
ghost use Rattle.plist_value.specs.declared.TheConstants.{MAX_NODES, MAX_DEPTH, MAX_PAYLOAD};
ghost use Rattle.plist_value.specs.Budget.{Spends};
ghost use Rattle.plist_binary.specs.States.{IsRecorded, IsValueSize, IsState, state_at_object};
ghost use Rattle.plist_binary.specs.declared.states.ObjectState.TheVariants.{Passed};

use plist_value::Budget;
use std::alloc::AllocError;

// What the value of an object takes of the limits.
#[derive(Clone, Copy)]
pub(crate) struct ValueSize {
    pub(crate) depth: u16,
    pub(crate) nodes: u32,
    pub(crate) payload: u32,
}

// What is known of an object. The depth is the first field, next to the tag, so that a state has 12
// bytes.
#[derive(Clone, Copy)]
pub(crate) enum ObjectState {
    // Not visited yet.
    Unseen,
    // A container on the path to the current object.
    Open,
    // Visited, and found to encode a value that takes this much of the limits.
    Passed {
        depth: u16,
        nodes: u32,
        payload: u32,
    },
    // Visited as a key, and found to contain a string of this payload.
    Key {
        payload: u32,
    },
}

impl ObjectState {
    // Returns what the value of the object takes of the limits, if it was visited.
    pub(crate) fn size(self) -> Option<ValueSize>
        ensures { IfSome result (λ size. (f path : List ℕ) (all : Bool) (i : ℕ)
            → IsState f path all i self → IsValueSize f all i size) }
    {
        match self {
            ObjectState::Unseen => None,
            ObjectState::Open => None,
            ObjectState::Passed {
                depth,
                nodes,
                payload,
            } => Some(ValueSize {
                depth,
                nodes,
                payload,
            }),
            ObjectState::Key { payload } => Some(ValueSize {
                depth: 1,
                nodes: 1,
                payload,
            }),
        }
    }
}

impl ValueSize {
    // Returns the difference between two budgets within the limits, with the depth.
    pub(crate) fn of(before: Budget, left: Budget, depth: u64) -> ValueSize
        requires nodes_left { left.nodes ≤ before.nodes }
        requires payload_left { left.payload ≤ before.payload }
        requires nodes_most { before.nodes ≤ MAX_NODES }
        requires payload_most { before.payload ≤ MAX_PAYLOAD }
        requires depth_most { depth ≤ MAX_DEPTH }
        ensures nodes { left.nodes + result.nodes ≡ before.nodes }
        ensures payload { left.payload + result.payload ≡ before.payload }
        ensures depth { result.depth ≡ depth }
    {
        ValueSize {
            depth: depth as u16,
            nodes: (before.nodes - left.nodes) as u32,
            payload: (before.payload - left.payload) as u32,
        }
    }

    // Returns the state of a visited object whose value takes this much.
    pub(crate) fn passed(self) -> ObjectState
        ensures { result ≡ Passed self.depth self.nodes self.payload }
    {
        ObjectState::Passed {
            depth: self.depth,
            nodes: self.nodes,
            payload: self.payload,
        }
    }

    // Returns the budget left after the value, or `None` if it does not fit.
    pub(crate) fn take(&self, left: Budget) -> Option<Budget>
        ensures { IfSome result (Spends left self.now.nodes self.now.payload) }
    {
        Some(Budget {
            nodes: left.nodes.checked_sub(u64::from(self.nodes))?,
            payload: left.payload.checked_sub(u64::from(self.payload))?,
        })
    }
}

// Enough states for most files that are refused early.
const FIRST_STATES: u64 = 4096;

// Returns the state of the object, which is `Unseen` if the vector has none for it.
pub(crate) fn state_at(states: &Vec<ObjectState>, object: u64) -> ObjectState
    ensures { result ≡ state_at_object states.now.items object }
{
    if object < states.len() as u64 {
        states[object as usize]
    } else {
        ObjectState::Unseen
    }
}

// Sets the state of the object, which is one of `count`.
pub(crate) fn mark(
    states: &mut Vec<ObjectState>,
    count: u64,
    object: u64,
    state: ObjectState,
) -> Result<(), AllocError>
    requires { object < count }
    ensures { OnOk result (IsRecorded states.old.items object state states.new.items) }
{
    if object < states.len() as u64 {
        states[object as usize] = state;
        return Ok(());
    }
    states.resize(states_for(count, object), ObjectState::Unseen)?;
    states[object as usize] = state;
    Ok(())
}

// Returns the number of states to allocate so that there is one for the object.
fn states_for(count: u64, object: u64) -> usize
    requires { object < count }
    ensures { object < result }
{
    if object < FIRST_STATES && FIRST_STATES < count {
        FIRST_STATES as usize
    } else {
        count as usize
    }
}
