//! Laws of normal facts.

ghost use Rattle.std.specs.Prelude.{ℕ, List, take, Contains, IsTrue};
ghost use Rattle.op_model.specs.declared.lowered.LoweredMethod.{LoweredMethod};
ghost use Rattle.op_model.specs.declared.node.Node.{Node};
ghost use Rattle.op_model.specs.declared.op.Call.{Call as NodeCall};
ghost use Rattle.jvm_model.specs.declared.number.MethodNo.{MethodNo};
ghost use Rattle.std.specs.Prelude.{Option};
ghost use Rattle.access_paths.specs.Paths.{Path, comes_before, most_paths, path_key};
ghost use Rattle.access_paths.specs.Sets.{AreInOrder};
ghost use Rattle.stage_facts.specs.Facts.{SiteFact};
ghost use Rattle.stage_transfer.specs.Settings.{Setting};
ghost use Rattle.stage_transfer.specs.Calls.{Entering, Result};
ghost use Rattle.stage_transfer.specs.Stages.{transfer_of};
ghost use Rattle.stage_laws.specs.Normal.{AreNormal, IsNormal};

/// What a stage gives of a normal fact is normal: on each way, at an event, and where methods are entered and left.
pub fn transfers_are_normal()
    ensures next { (w : Setting) (l : LoweredMethod) (n : Node) (f : SiteFact) → IsNormal w.stage f → AreNormal w.stage ((transfer_of w).next l n f) }
    ensures raise { (w : Setting) (l : LoweredMethod) (n : Node) (handler : Option ℕ) (f : SiteFact) → IsNormal w.stage f
        → AreNormal w.stage ((transfer_of w).raise l n handler f) }
    ensures event { (w : Setting) (l : LoweredMethod) (n : Node) (c : NodeCall) (f : SiteFact) → IsNormal w.stage f → AreNormal w.stage ((transfer_of w).event l n c f) }
    ensures answer { (w : Setting) (l : LoweredMethod) (n : Node) (c : NodeCall) (kept : List ℕ) (result : Result) (f : SiteFact) → IsNormal w.stage f
        → AreNormal w.stage ((transfer_of w).answer l n c kept result f) }
    ensures exception { (w : Setting) (l : LoweredMethod) (n : Node) (kept : List ℕ) (handler : Option ℕ) (f : SiteFact) → IsNormal w.stage f
        → AreNormal w.stage ((transfer_of w).exception l n kept handler f) }
    ensures enter { (w : Setting) (by : Entering) (f : SiteFact) → IsNormal w.stage f → IsNormal w.stage ((transfer_of w).enter by f) }
    ensures leave { (w : Setting) (l : LoweredMethod) (n : Node) (by : Entering) (target : MethodNo) (caller exit : SiteFact)
        → IsNormal w.stage exit → IsNormal w.stage ((transfer_of w).leave l n by target caller exit) }
{}

/// A set that is limited keeps its least paths: each that it keeps comes before each that it leaves out.
pub fn limits_keep_the_least()
    ensures { (set : List Path) (x y : Path) → AreInOrder set → Contains (take most_paths set) x → Contains set y → (Contains (take most_paths set) y → ⊥)
        → IsTrue (comes_before (path_key x) (path_key y)) }
{}
