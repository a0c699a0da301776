//! What is left of the limits during a traversal of a value or a file.
ghost use Rattle.std.specs.Prelude.{◌≡◌, ◌<◌, IfSome, IfNone};
ghost use Rattle.plist_value.specs.Budget.{Spends, IsOver};

use crate::{MAX_NODES, MAX_PAYLOAD};

/// The number of nodes and of payload bytes that are left. A node is a scalar, a container or a
/// key; the payload is two bytes for each UTF-16 unit of a string, and one for each byte of data.
#[derive(Clone, Copy, Debug)]
pub struct Budget {
    /// The number of nodes left.
    pub nodes: u64,
    /// The number of payload bytes left.
    pub payload: u64,
}

impl Budget {
    /// Returns the limits themselves: `MAX_NODES` nodes and `MAX_PAYLOAD` bytes of payload.
    pub fn whole() -> Budget
        ensures nodes { result.nodes ≡ MAX_NODES }
        ensures payload { result.payload ≡ MAX_PAYLOAD }
    {
        Budget {
            nodes: MAX_NODES,
            payload: MAX_PAYLOAD,
        }
    }

    /// Returns the budget left after one node, or `None` if and only if no node is left.
    pub fn take_node(self) -> Option<Budget>
        ensures left { IfSome result (Spends self 1 0) }
        ensures over { IfNone result (self.nodes ≡ 0) }
    {
        Some(Budget {
            nodes: self.nodes.checked_sub(1)?,
            payload: self.payload,
        })
    }

    /// Returns the budget left after `payload` bytes, or `None` if and only if fewer are left.
    pub fn take_payload(self, payload: u128) -> Option<Budget>
        ensures left { IfSome result (Spends self 0 payload) }
        ensures over { IfNone result (self.payload < payload) }
    {
        if payload > u128::from(self.payload) {
            return None;
        }
        Some(Budget {
            nodes: self.nodes,
            payload: self.payload - payload as u64,
        })
    }

    /// Returns the budget left after one node and its payload, or `None` if and only if no node or
    /// too little payload is left.
    pub fn spend(self, payload: u128) -> Option<Budget>
        ensures left { IfSome result (Spends self 1 payload) }
        ensures over { IfNone result (IsOver self 1 payload) }
    {
        self.take_node()?.take_payload(payload)
    }
}
