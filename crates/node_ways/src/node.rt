//! The ways out of a node.

ghost use Rattle.std.specs.Prelude.{◌≡◌, ◌<◌, None, Some, length, slice_get, Contains, IfOk};
ghost use Rattle.jvm_model.specs.declared.number.SiteNo.{SiteNo as RuleSiteNo};
ghost use Rattle.op_model.specs.declared.lowered.LoweredMethod.{LoweredMethod as RuleMethod};
ghost use Rattle.op_model.specs.declared.node.Node.{Node as RuleNode};
ghost use Rattle.machine_bytecode.specs.Objects.{Subject};
ghost use Rattle.machine_nodes.specs.Nodes.{IsStartCall, IsStartReturn};
ghost use Rattle.points_to_rules.specs.WholeMethods.{NamesNumbers};
ghost use Rattle.ground.specs.Findings.{HasNode, IsNodeAt};
ghost use Rattle.node_ways.specs.Parts.{AreThrownSites};
ghost use Rattle.node_ways.specs.Ways.{AreWaysOf};

use crate::described::described_targets;
use crate::entered::{called_methods, started_methods};
use crate::kinds::thrown_slot;
use crate::landings::raised_landings;
use crate::ways::NodeWays;
use ground::{Ground, NodePlace};
use jvm_model::{MethodNo, SiteNo};
use op_model::Node;
use std::alloc::{AllocError, Global};

/// The sites of the slot that a node throws, if it is a throw.
fn thrown_sites<'g>(ground: &'g Ground<'_>, at: NodePlace, node: &Node) -> &'g [SiteNo]
    requires there { HasNode ground.now at }
    requires node { IsNodeAt ground.now at node.now }
    ensures sites { (l : RuleMethod) → slice_get ground.now.methods at.method ≡ Some l → AreThrownSites ground.now l node.now result.now }
    ensures within { (site : RuleSiteNo) → Contains result.now site → site.0 < length ground.now.sites }
{
    match thrown_slot(&node.op) {
        Some(slot) => ground.sites_of_slot(at, slot),
        None => &[],
    }
}

/// Where a node leads. The sites are those of the slot that it throws.
fn ways_of<'p>(
    alloc: Global,
    ground: &Ground<'p>,
    method: Option<MethodNo>,
    node: &Node,
    thrown: &[SiteNo],
) -> Result<NodeWays<'p>, AllocError>
    requires numbers { NamesNumbers ground.now.program node.now }
    requires within { (site : RuleSiteNo) → Contains thrown.now site → site.0 < length ground.now.sites }
    ensures { IfOk result (λ ways. (x : Subject) (l : RuleMethod) → x.program ≡ ground.now.program → AreThrownSites ground.now l node.now thrown.now
        → AreWaysOf x (Contains ground.now.facts) method l node.now ways) }
{
    Ok(NodeWays {
        raised: raised_landings(alloc, ground, node, thrown)?,
        called: called_methods(alloc, ground, method, node)?,
        described: described_targets(alloc, ground, method, node)?,
        started: started_methods(alloc, ground, node)?,
    })
}

/// Where the node at a place leads.
pub fn ways_at<'p>(
    alloc: Global,
    ground: &Ground<'p>,
    at: NodePlace,
) -> Result<NodeWays<'p>, AllocError>
    requires { HasNode ground.now at }
    ensures { IfOk result (λ ways. (x : Subject) (l : RuleMethod) (n : RuleNode) → x.program ≡ ground.now.program
        → slice_get ground.now.methods at.method ≡ Some l → slice_get l.nodes at.node ≡ Some n → AreWaysOf x (Contains ground.now.facts) (Some l.method) l n ways) }
{
    ground.well_formed();
    let method = ground.method(at.method);
    let node = ground.node(at);
    let thrown = thrown_sites(ground, at, node);
    ways_of(alloc, ground, Some(method.method), node, thrown)
}

/// Where a node of the start of the program leads: its call, or its return.
pub fn ways_of_start<'p>(
    alloc: Global,
    ground: &Ground<'p>,
    node: &Node,
) -> Result<NodeWays<'p>, AllocError>
    requires { NamesNumbers ground.now.program node.now }
    ensures call { IfOk result (λ ways. (x : Subject) (l : RuleMethod) (n : RuleNode) → x.program ≡ ground.now.program → IsStartCall x node.now → IsStartCall x n
        → AreWaysOf x (Contains ground.now.facts) None l n ways) }
    ensures returning { IfOk result (λ ways. (x : Subject) (l : RuleMethod) (n : RuleNode) → x.program ≡ ground.now.program → IsStartReturn node.now → IsStartReturn n
        → AreWaysOf x (Contains ground.now.facts) None l n ways) }
{
    ways_of(alloc, ground, None, node, &[])
}
