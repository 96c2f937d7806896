//! The limit on paths, and the normal forms of stages.

ghost use Rattle.std.specs.Prelude.{◌≡◌, Some, None, true, false, [], ◌∷◌};
ghost use Rattle.op_model.specs.declared.op.Op.TheVariants.{Assign};
ghost use Rattle.op_model.specs.declared.op.Source.TheVariants.{Slot};
ghost use Rattle.stage_transfer.specs.Stages.{transfer_of};
ghost use Rattle.example_transfers.specs.Small.{f, g, h, last, lowered, moving, node, one, path, setting};

/// A set keeps its six least paths, and a must path that is left out makes other cells possible.
pub fn limit()
    ensures must { (last []).next lowered (node (Assign (moving (Slot 0) 1 ∷ []))) (one (path 0 [] ∷ path 0 (f ∷ []) ∷ path 0 (g ∷ []) ∷ path 0 (h ∷ []) ∷ []) false []) ≡ one (path 0 [] ∷ path 0 (f ∷ []) ∷ path 0 (g ∷ []) ∷ path 0 (h ∷ []) ∷ path 1 [] ∷ path 1 (f ∷ []) ∷ []) true [] ∷ [] }
    ensures must_not { (last []).next lowered (node (Assign (moving (Slot 0) 1 ∷ []))) (one [] false (path 0 [] ∷ path 0 (f ∷ []) ∷ path 0 (g ∷ []) ∷ path 0 (h ∷ []) ∷ [])) ≡ one [] false (path 0 [] ∷ path 0 (f ∷ []) ∷ path 0 (g ∷ []) ∷ path 0 (h ∷ []) ∷ path 1 [] ∷ path 1 (f ∷ []) ∷ []) ∷ [] }
{}

/// The second stage knows no paths, and the third none that do not refer to the object.
pub fn normal_forms()
    ensures second { (transfer_of (setting 2 [] false)).next lowered (node (Assign (moving (Slot 0) 1 ∷ []))) (one (path 0 [] ∷ []) false (path 2 [] ∷ [])) ≡ one [] true [] ∷ [] }
    ensures third { (transfer_of (setting 3 [] false)).next lowered (node (Assign (moving (Slot 0) 1 ∷ []))) (one (path 0 [] ∷ []) false (path 2 [] ∷ [])) ≡ one (path 0 [] ∷ path 1 [] ∷ []) false [] ∷ [] }
    ensures fourth { (transfer_of (setting 4 [] false)).next lowered (node (Assign (moving (Slot 0) 1 ∷ []))) (one (path 0 [] ∷ []) false (path 2 [] ∷ [])) ≡ one (path 0 [] ∷ path 1 [] ∷ []) false (path 2 [] ∷ []) ∷ [] }
{}
