//! The path edges of small programs.

ghost use Rattle.std.specs.Prelude.{Contains};
ghost use Rattle.ground.specs.Findings.{gives_listed};
ghost use Rattle.stage_edges.specs.Edges.{ArePathEdges, IsError, IsSettingOf};
ghost use Rattle.stage_edges.specs.Rules.{Edge};
ghost use Rattle.example_edges.specs.Reading as reading;
ghost use Rattle.example_edges.specs.Throwing as throwing;

/// An object is made, read in a loop, and then closed. At the second stage the list has each path edge once, and no object is in the error state.
pub fn reading_then_closing()
    ensures setting { IsSettingOf reading.subject (Contains reading.facts) reading.setting }
    ensures are { ArePathEdges reading.subject (gives_listed reading.methods) (Contains reading.facts) reading.setting reading.edges }
    ensures no_error { (e : Edge) → Contains reading.edges e → IsError reading.property e.fact → ⊥ }
{}

/// An object is made and read, which may throw, and a handler closes it. At the third stage the list has each path edge once, and no object is in the error
/// state.
pub fn closing_in_a_handler()
    ensures setting { IsSettingOf throwing.subject (Contains throwing.facts) throwing.setting }
    ensures are { ArePathEdges throwing.subject (gives_listed throwing.methods) (Contains throwing.facts) throwing.setting throwing.edges }
    ensures no_error { (e : Edge) → Contains throwing.edges e → IsError throwing.property e.fact → ⊥ }
{}
