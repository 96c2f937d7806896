//! The entries of what is numbered and has lists of its own: catch chains and calls.

use crate::keys::CatchChainNo;
use jvm_model::{MethodNo, Sequence};
use op_model::{CallKind, NodeHandler, NodeRef};
use points_to_rules::PlaceNo;

/// A handler, and the place of what it takes.
#[derive(Clone, Copy, Debug, PartialEq, Eq)]
pub struct CatchClause {
    pub handler: NodeHandler,
    pub to: PlaceNo,
}

/// Where exceptions of a node go: to the first handler that takes them, or else on to the callers.
#[derive(Debug, Drop)]
pub struct CatchChain {
    pub catch_clauses: Sequence<CatchClause>,
    pub outside: PlaceNo,
}

/// A call: its node, how it chooses its target, the place of each unit of its arguments, the places of its result, and where
/// what its targets throw goes.
#[derive(Debug, Drop)]
pub struct CallSite {
    pub at: NodeRef,
    pub kind: CallKind,
    pub resolved: MethodNo,
    pub arguments: Sequence<Option<PlaceNo>>,
    pub results: Sequence<PlaceNo>,
    pub catch_chain: CatchChainNo,
}
