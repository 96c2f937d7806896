//! Laws of listed edges, at the rules by a ground: they call nothing, and hold of each question, subject, setting and list.

ghost use Rattle.std.specs.Prelude.{ℕ, List, Contains};
ghost use Rattle.machine_bytecode.specs.Objects.{Subject};
ghost use Rattle.stage_transfer.specs.Settings.{Setting};
ghost use Rattle.ground.specs.Findings.{gives_listed};
ghost use Rattle.ground_views.specs.declared.question.Question.{Question as AnyQuestion};
ghost use Rattle.edge_checker.specs.declared.numbered_edge.NumberedEdge.{NumberedEdge};
ghost use Rattle.edge_checker.specs.Conditions.{AreMetBy};
ghost use Rattle.edge_checker.specs.Laws.{AreAccepted, AreAllListed, AreJustListed};

/// Whoever listed the edges: where they meet the conditions, each path edge is listed, and in none is an object in the error state.
pub fn met_edges_hold()
    ensures { (q : AnyQuestion) (x : Subject) (w : Setting) (listed : List NumberedEdge) → AreMetBy q x w listed
        → AreAllListed x (gives_listed q.ground.now.methods) (Contains q.ground.now.facts) w listed }
{}

/// Where just the path edges are listed, and in none is an object in the error state, the conditions are met and nothing fails.
pub fn least_edges_are_met()
    ensures { (q : AnyQuestion) (x : Subject) (w : Setting) (claim : ℕ) (listed : List NumberedEdge)
        → AreJustListed x (gives_listed q.ground.now.methods) (Contains q.ground.now.facts) w listed
        → AreAccepted x (gives_listed q.ground.now.methods) (Contains q.ground.now.facts) w claim listed }
{}
