//! Laws of the answers about a program: they call nothing, and stand on the definitions alone.

ghost use Rattle.std.specs.Prelude.{◌≡◌, ◌↔◌, ℕ, List, Ok, Contains};
ghost use Rattle.jvm_model.specs.declared.number.MethodNo.{MethodNo};
ghost use Rattle.jvm_model.specs.declared.site.Site.{Site};
ghost use Rattle.least_sets.specs.Rules.{IsClosedSet, IsDerivable};
ghost use Rattle.op_model.specs.declared.lowered.LoweredMethod.{LoweredMethod};
ghost use Rattle.machine_bytecode.specs.Objects.{Subject};
ghost use Rattle.lowering_supply.specs.Supplied.{IsSupplied};
ghost use Rattle.points_to_rules.specs.Facts.{Fact, may_run};
ghost use Rattle.points_to_rules.specs.Writes.{AnyInstance};
ghost use Rattle.ground.specs.Findings.{gives_listed};
ghost use Rattle.stage_transfer.specs.Settings.{Setting};
ghost use Rattle.stage_edges.specs.Edges.{IsAtLimit, IsSafeBelow, IsSettingOf, StageInstance};
ghost use Rattle.stage_edges.specs.Rules.{Edge};
ghost use Rattle.report_spec.specs.Verdicts.{AtLimitBy, SafeBy};

/// By the same facts of a folder, two settings of one site, stage and depth have the same path edges: a stage that is safe by the one is safe by the other;
/// and no stage both proves a site safe and comes to its limit at it.
pub fn answers_are_one()
    ensures safe { (x : Subject) (facts : List Fact) (w v : Setting) (limit : ℕ) → IsSettingOf x (Contains facts) w → IsSettingOf x (Contains facts) v
        → w.site ≡ v.site → w.stage ≡ v.stage → w.depth ≡ v.depth
        → IsSafeBelow x (IsSupplied x.program) (Contains facts) w limit → IsSafeBelow x (IsSupplied x.program) (Contains facts) v limit }
    ensures either { (x : Subject) (facts : List Fact) (depth limit : ℕ) (s : Site) (stage : ℕ)
        → SafeBy x (IsSupplied x.program) (Contains facts) depth limit s stage → AtLimitBy x (IsSupplied x.program) (Contains facts) depth limit s stage → ⊥ }
{}

/// By closed facts of a folder, a list of the methods that may run has the path edges of all its methods: a stage is safe, or at its limit, by the one just
/// where it is by the other.
pub fn listed_methods_suffice()
    ensures safe { (x : Subject) (facts : List Fact) (methods : List LoweredMethod) (w : Setting) (limit : ℕ)
        → IsClosedSet (AnyInstance x.program (IsSupplied x.program) (record { 0 = x.entry })) (Contains facts)
        → ((l : LoweredMethod) → Contains methods l → IsSupplied x.program l.method.0 (Ok l))
        → ((m : MethodNo) (l : LoweredMethod) → Contains facts (may_run m) → IsSupplied x.program m.0 (Ok l) → Contains methods l)
        → IsSafeBelow x (gives_listed methods) (Contains facts) w limit ↔ IsSafeBelow x (IsSupplied x.program) (Contains facts) w limit }
    ensures at_limit { (x : Subject) (facts : List Fact) (methods : List LoweredMethod) (w : Setting) (limit : ℕ)
        → IsClosedSet (AnyInstance x.program (IsSupplied x.program) (record { 0 = x.entry })) (Contains facts)
        → ((l : LoweredMethod) → Contains methods l → IsSupplied x.program l.method.0 (Ok l))
        → ((m : MethodNo) (l : LoweredMethod) → Contains facts (may_run m) → IsSupplied x.program m.0 (Ok l) → Contains methods l)
        → IsAtLimit x (gives_listed methods) (Contains facts) w limit ↔ IsAtLimit x (IsSupplied x.program) (Contains facts) w limit }
{}

/// By closed facts of a folder, a site has the same path edges at a stage by a list of the methods that may run, in one setting, as by all methods of the
/// folder in another setting.
pub fn path_edges_are_one()
    ensures { (x : Subject) (facts : List Fact) (methods : List LoweredMethod) (w v : Setting)
        → IsClosedSet (AnyInstance x.program (IsSupplied x.program) (record { 0 = x.entry })) (Contains facts)
        → ((l : LoweredMethod) → Contains methods l → IsSupplied x.program l.method.0 (Ok l))
        → ((m : MethodNo) (l : LoweredMethod) → Contains facts (may_run m) → IsSupplied x.program m.0 (Ok l) → Contains methods l)
        → IsSettingOf x (Contains facts) w → IsSettingOf x (Contains facts) v → w.site ≡ v.site → w.stage ≡ v.stage → w.depth ≡ v.depth
        → (e : Edge) → IsDerivable (StageInstance x (gives_listed methods) (Contains facts) w) e ↔ IsDerivable (StageInstance x (IsSupplied x.program) (Contains facts) v) e }
{}
