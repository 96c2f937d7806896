//! The conditions on listed path edges.

ghost use Rattle.std.specs.Prelude.{◌≡◌, ◌↔◌, ◌≤◌, ℕ, None, Some, slice_get, IfOk, IfSome, IsTrue};
ghost use Rattle.machine_bytecode.specs.Objects.{Subject};
ghost use Rattle.stage_facts.specs.Plain.{fact_of};
ghost use Rattle.stage_transfer.specs.Settings.{Setting};
ghost use Rattle.stage_edges.specs.Edges.{IsError};
ghost use Rattle.ground_views.specs.Questions.{IsAskedOf};
ghost use Rattle.ground_views.specs.Views.{AreViewsOf};
ghost use Rattle.edge_checker.specs.Conditions.{AreInOrder, AreMetBy, FailsBy, IsFirst, number_of};
ghost use Rattle.edge_checker.specs.Failures.{IsLeastOf};
ghost use Rattle.edge_checker.specs.Parts.{AreCalm, ErrorFails, FailsAs, IsCalm, IsNotStarted, IsStarted, SomeInError};

use crate::checking::Checking;
use crate::compare::WantedEdge;
use crate::following::rejected_unless;
use crate::lesser::least;
use crate::nodes::rules_failure;
use crate::numbered_edge::NumberedEdge;
use crate::rejected::{EdgeCondition, Rejected};
use crate::search::is_listed;
use ground_views::{GroundViews, Question};
use jvm_model::Automaton;
use op_model::Spot;
use stage_facts::PlainFact;
use std::alloc::{AllocError, Global};

/// What is wrong with listed path edges first: `None` where they meet all conditions, else the first condition that they do not meet, and the first line at
/// which they do not. The edges are those of a site at a stage, and `claim` is the line of that claim. The limit of the question is not used. Memory is taken
/// for what follows from an edge to a node, and given back before the next.
pub fn edge_failure(
    alloc: Global,
    views: &GroundViews<'_>,
    question: &Question<'_, '_>,
    claim: u32,
    listed: &[NumberedEdge],
) -> Result<Option<Rejected>, AllocError>
    requires views { AreViewsOf question.now.ground.now question.now.entry views.now }
    requires site { slice_get question.now.ground.now.sites question.now.site.0 ≡ Some question.now.setting.site.now }
    requires order { AreInOrder listed.now }
    ensures met { IfOk result (λ r. r ≡ None → (x : Subject) (w : Setting) → IsAskedOf question.now x w → AreMetBy question.now x w listed.now) }
    ensures none_fails { IfOk result (λ r. r ≡ None → (x : Subject) (w : Setting) → IsAskedOf question.now x w
        → (k l : ℕ) → FailsBy question.now x w claim listed.now k l → ⊥) }
    ensures first { IfOk result (λ r. IfSome r (λ f. (x : Subject) (w : Setting) → IsAskedOf question.now x w
        → IsFirst (FailsBy question.now x w claim listed.now) (number_of f.condition) f.line)) }
{
    let checking = Checking {
        alloc,
        question,
        views,
        listed,
    };
    let start = start_failure(listed, claim);
    let rules = rules_failure(&checking)?;
    let error = error_failure(question.setting.automaton, listed);
    Ok(least(least(start, rules), error))
}

/// The claim, if the start is not listed.
fn start_failure(listed: &[NumberedEdge], claim: u32) -> Option<Rejected>
    requires { AreInOrder listed.now }
    ensures { IsLeastOf (IsStarted listed.now) (FailsAs (IsNotStarted listed.now) 4 claim) result }
{
    let none = PlainFact::NoneYet;
    let start = WantedEdge {
        method: None,
        entry: &none,
        spot: Spot::Node(0),
        fact: &none,
    };
    rejected_unless(is_listed(listed, &start), EdgeCondition::Start, claim)
}

/// The first line of an edge in which an object is in the error state.
fn error_failure(automaton: &Automaton, listed: &[NumberedEdge]) -> Option<Rejected>
    ensures { IsLeastOf (AreCalm automaton.now listed.now) (SomeInError automaton.now listed.now) result }
{
    let mut first = None;
    for a in listed {
        first = least(first, error_at(automaton, a));
    }
    first
}

/// The line of the edge, if an object is in the error state.
fn error_at(automaton: &Automaton, a: &NumberedEdge) -> Option<Rejected>
    ensures { IsLeastOf (IsCalm automaton.now a.now) (ErrorFails automaton.now a.now) result }
{
    if is_error(automaton, &a.edge.fact) {
        return Some(Rejected {
            condition: EdgeCondition::Error,
            line: a.line,
        });
    }
    None
}

/// Whether an object of the fact is in the error state.
fn is_error(automaton: &Automaton, fact: &PlainFact) -> bool
    ensures { IsTrue result ↔ IsError automaton.now (fact_of fact.now) }
{
    match fact {
        PlainFact::NoneYet => false,
        PlainFact::SomeYet => false,
        PlainFact::OfObject(tuple) => tuple.state == automaton.error,
    }
}
