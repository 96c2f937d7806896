//! Exceptions, into a handler and out of a method.

ghost use Rattle.std.specs.Prelude.{◌≡◌, Some, None, true, false, [], ◌∷◌};
ghost use Rattle.op_model.specs.declared.op.Op.TheVariants.{Call, Probe, Throw};
ghost use Rattle.example_transfers.specs.Small.{closing, f, h, last, lowered, node, one, path, static_path, thrown_path};

/// Into a handler: the local variables stay, and the first unit of the operand stack is the thrown object.
pub fn caught()
    ensures thrown { (last []).raise lowered (node (Throw 2)) (Some 20) (one (path 0 [] ∷ path 2 [] ∷ []) false []) ≡ one (path 0 [] ∷ path 2 [] ∷ []) false [] ∷ [] }
    ensures thrown_field { (last ((0 ∷ 3 ∷ []) ∷ [])).raise lowered (node (Throw 3)) (Some 20) (one (path 0 (f ∷ []) ∷ path 3 (f ∷ []) ∷ []) false []) ≡ one (path 0 (f ∷ []) ∷ path 2 (f ∷ []) ∷ []) false [] ∷ [] }
    ensures stack_unit_is_written { (last ((2 ∷ 3 ∷ []) ∷ [])).raise lowered (node (Throw 4)) (Some 20) (one (path 3 (f ∷ []) ∷ path 4 (f ∷ []) ∷ []) false []) ≡ one (path 2 (f ∷ []) ∷ []) true [] ∷ [] }
    ensures own { (last []).raise lowered (node (Probe 2)) (Some 20) (one (path 0 [] ∷ path 2 [] ∷ []) false []) ≡ one (path 0 [] ∷ []) false [] ∷ [] }
    ensures from_a_call { (last []).raise lowered (node (Call (closing 2 (Some 3) None))) (Some 20) (one (path 0 [] ∷ thrown_path [] ∷ thrown_path (f ∷ []) ∷ []) false []) ≡ one (path 0 [] ∷ path 2 [] ∷ path 2 (f ∷ []) ∷ []) false [] ∷ [] }
    ensures thrown_before { (last []).raise lowered (node (Throw 2)) (Some 20) (one (path 2 [] ∷ thrown_path (f ∷ []) ∷ []) false []) ≡ one (path 2 [] ∷ []) true [] ∷ [] }
{}

/// Out of the method: all slots go, and the thrown object stays thrown.
pub fn uncaught()
    ensures thrown { (last []).raise lowered (node (Throw 2)) None (one (path 0 [] ∷ path 2 [] ∷ []) false []) ≡ one (thrown_path [] ∷ []) false [] ∷ [] }
    ensures thrown_field { (last []).raise lowered (node (Throw 2)) None (one (path 0 (f ∷ []) ∷ path 2 [] ∷ []) false []) ≡ one (thrown_path [] ∷ []) true [] ∷ [] }
    ensures own { (last []).raise lowered (node (Probe 2)) None (one (path 0 [] ∷ static_path h [] ∷ []) false []) ≡ one (static_path h [] ∷ []) false [] ∷ [] }
    ensures from_a_call { (last []).raise lowered (node (Call (closing 2 (Some 3) None))) None (one (path 0 [] ∷ thrown_path [] ∷ []) false []) ≡ one (thrown_path [] ∷ []) false [] ∷ [] }
{}
