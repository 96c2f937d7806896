//! Calls: events, described methods, and what is entered and left.

ghost use Rattle.std.specs.Prelude.{◌≡◌, Some, None, true, false, [], ◌∷◌};
ghost use Rattle.op_model.specs.declared.op.Op.TheVariants.{Call};
ghost use Rattle.stage_facts.specs.Facts.{none_yet, some_yet};
ghost use Rattle.stage_transfer.specs.Calls.{a_new_object, an_argument, another, by_call, by_trigger};
ghost use Rattle.stage_transfer.specs.Stages.{transfer_of};
ghost use Rattle.example_transfers.specs.Small.{closing, f, g, h, last, lowered, node, one, only_one, other_site, path, returned_path, setting, some_one, static_path, the_method, the_site, thrown_path};

/// Events: the receiver is known to be the object, or another one; or it can only be the object; or it may be either.
pub fn events()
    ensures known { (transfer_of (setting 4 [] false)).event lowered (node (Call (closing 0 None None))) (closing 0 None None) (one (path 0 [] ∷ []) false []) ≡ only_one 1 (path 0 [] ∷ []) false [] ∷ [] }
    ensures known_not { (transfer_of (setting 4 [] false)).event lowered (node (Call (closing 0 None None))) (closing 0 None None) (one (path 1 [] ∷ []) true (path 0 [] ∷ [])) ≡ one (path 1 [] ∷ []) true (path 0 [] ∷ []) ∷ [] }
    ensures no_other_cell { (transfer_of (setting 4 [] false)).event lowered (node (Call (closing 0 None None))) (closing 0 None None) (one (path 1 [] ∷ []) false []) ≡ one (path 1 [] ∷ []) false [] ∷ [] }
    ensures alone { (transfer_of (setting 4 ((0 ∷ 1 ∷ []) ∷ []) true)).event lowered (node (Call (closing 0 None None))) (closing 0 None None) (one [] true []) ≡ only_one 1 (path 0 [] ∷ path 1 [] ∷ []) true [] ∷ [] }
    ensures not_unique { (transfer_of (setting 4 [] true)).event lowered (node (Call (closing 0 None None))) (closing 0 None None) (some_one 0 [] true []) ≡ some_one 1 (path 0 [] ∷ []) true [] ∷ some_one 0 [] true (path 0 [] ∷ []) ∷ [] }
    ensures either { (transfer_of (setting 4 [] false)).event lowered (node (Call (closing 0 None None))) (closing 0 None None) (one (path 1 [] ∷ []) true []) ≡ only_one 1 (path 0 [] ∷ path 1 [] ∷ []) true [] ∷ only_one 0 (path 1 [] ∷ []) true (path 0 [] ∷ []) ∷ [] }
    ensures either_before { (transfer_of (setting 3 [] false)).event lowered (node (Call (closing 0 None None))) (closing 0 None None) (one (path 1 [] ∷ []) true []) ≡ only_one 0 (path 1 [] ∷ []) true [] ∷ only_one 1 (path 1 [] ∷ []) true [] ∷ [] }
    ensures no_object { (transfer_of (setting 4 [] false)).event lowered (node (Call (closing 0 None None))) (closing 0 None None) (some_yet) ≡ some_yet ∷ [] }
{}

/// What a method is entered with: arguments become paths of its slots, and static fields stay.
pub fn entering()
    ensures arguments { (last []).enter (by_call (closing 2 (Some 3) None)) (one (path 2 [] ∷ path 3 (f ∷ []) ∷ static_path h [] ∷ []) false []) ≡ one (path 0 [] ∷ path 1 (f ∷ []) ∷ static_path h [] ∷ []) false [] }
    ensures lost { (last []).enter (by_call (closing 2 (Some 3) None)) (one (path 0 [] ∷ path 1 (g ∷ []) ∷ path 2 [] ∷ []) false []) ≡ one (path 0 [] ∷ []) true [] }
    ensures twice { (last []).enter (by_call (closing 2 (Some 2) None)) (one (path 2 [] ∷ []) false []) ≡ one (path 0 [] ∷ path 1 [] ∷ []) false [] }
    ensures initialiser { (last []).enter (by_trigger) (one (path 0 [] ∷ static_path h [] ∷ []) false []) ≡ one (static_path h [] ∷ []) false [] }
{}

/// What a caller knows afterwards: what the exit hands on, and its own paths that begin at no argument and pass no field that may be written.
pub fn leaving()
    ensures joined { (last []).leave lowered (node (Call (closing 2 (Some 3) (Some 2)))) (by_call (closing 2 (Some 3) (Some 2))) the_method (one (path 0 [] ∷ path 0 (g ∷ []) ∷ path 2 [] ∷ []) false []) (only_one 1 (static_path h [] ∷ returned_path [] ∷ []) false []) ≡ only_one 1 (path 0 [] ∷ path 0 (g ∷ []) ∷ static_path h [] ∷ returned_path [] ∷ []) false [] }
    ensures written_field { (last []).leave lowered (node (Call (closing 2 (Some 3) (Some 2)))) (by_call (closing 2 (Some 3) (Some 2))) the_method (one (path 0 (f ∷ []) ∷ []) false []) (only_one 1 (static_path h [] ∷ []) false []) ≡ only_one 1 (static_path h [] ∷ []) true [] }
    ensures argument { (last []).leave lowered (node (Call (closing 2 (Some 3) (Some 2)))) (by_call (closing 2 (Some 3) (Some 2))) the_method (one (path 2 (g ∷ []) ∷ []) false []) (only_one 1 [] false []) ≡ only_one 1 [] true [] }
    ensures argument_doubled { (last ((0 ∷ 2 ∷ []) ∷ [])).leave lowered (node (Call (closing 2 (Some 3) (Some 2)))) (by_call (closing 2 (Some 3) (Some 2))) the_method (one (path 0 (g ∷ []) ∷ path 2 (g ∷ []) ∷ []) false []) (only_one 1 [] false []) ≡ only_one 1 (path 0 (g ∷ []) ∷ []) false [] }
    ensures not_referring { (last []).leave lowered (node (Call (closing 2 (Some 3) (Some 2)))) (by_call (closing 2 (Some 3) (Some 2))) the_method (one (path 0 [] ∷ []) false (path 1 [] ∷ path 2 [] ∷ [])) (only_one 1 [] false (returned_path [] ∷ [])) ≡ only_one 1 (path 0 [] ∷ []) false (path 1 [] ∷ returned_path [] ∷ []) }
    ensures not_there_yet { (last []).leave lowered (node (Call (closing 2 (Some 3) (Some 2)))) (by_call (closing 2 (Some 3) (Some 2))) the_method (none_yet) (only_one 1 (returned_path [] ∷ []) false []) ≡ only_one 1 (returned_path [] ∷ []) false [] }
    ensures none_there { (last []).leave lowered (node (Call (closing 2 (Some 3) (Some 2)))) (by_call (closing 2 (Some 3) (Some 2))) the_method (one (path 0 [] ∷ []) false []) (some_yet) ≡ some_yet }
    ensures initialiser { (last []).leave lowered (node (Call (closing 2 (Some 3) (Some 2)))) (by_trigger) the_method (one (path 0 [] ∷ path 2 (g ∷ []) ∷ []) false []) (only_one 1 (static_path h [] ∷ []) false []) ≡ only_one 1 (path 0 [] ∷ path 2 (g ∷ []) ∷ static_path h [] ∷ []) false [] }
    ensures initialiser_throws { (last []).leave lowered (node (Call (closing 2 (Some 3) (Some 2)))) (by_trigger) the_method (one (path 0 [] ∷ []) false []) (only_one 1 (thrown_path [] ∷ []) false []) ≡ only_one 1 (path 0 [] ∷ []) true [] }
{}

/// A described method keeps some of its arguments; then it gives one, a new object, or another one.
pub fn answers()
    ensures argument { (last ((1 ∷ 3 ∷ []) ∷ [])).answer lowered (node (Call (closing 2 (Some 3) (Some 2)))) (closing 2 (Some 3) (Some 2)) [] (an_argument 3) (one (path 1 [] ∷ path 3 [] ∷ []) false []) ≡ one (path 1 [] ∷ path 2 [] ∷ []) false [] ∷ [] }
    ensures argument_field { (last []).answer lowered (node (Call (closing 2 (Some 3) (Some 2)))) (closing 2 (Some 3) (Some 2)) [] (an_argument 3) (one (path 3 (f ∷ []) ∷ []) false []) ≡ one (path 2 (f ∷ []) ∷ []) false [] ∷ [] }
    ensures kept { (last []).answer lowered (node (Call (closing 2 (Some 3) (Some 2)))) (closing 2 (Some 3) (Some 2)) (3 ∷ []) (another) (one (path 1 [] ∷ path 3 [] ∷ []) false []) ≡ one (path 1 [] ∷ []) true [] ∷ [] }
    ensures new { (last []).answer lowered (node (Call (closing 2 (Some 3) (Some 2)))) (closing 2 (Some 3) (Some 2)) [] (a_new_object the_site) (none_yet) ≡ some_yet ∷ one (path 2 [] ∷ []) false [] ∷ [] }
    ensures new_beside { (last []).answer lowered (node (Call (closing 2 (Some 3) (Some 2)))) (closing 2 (Some 3) (Some 2)) (3 ∷ []) (a_new_object the_site) (one (path 1 [] ∷ path 3 [] ∷ []) false []) ≡ some_one 0 (path 1 [] ∷ []) true (path 2 [] ∷ []) ∷ [] }
    ensures new_of_another { (last []).answer lowered (node (Call (closing 2 (Some 3) (Some 2)))) (closing 2 (Some 3) (Some 2)) [] (a_new_object other_site) (one (path 1 [] ∷ path 2 [] ∷ []) false []) ≡ one (path 1 [] ∷ []) false [] ∷ [] }
{}

/// It keeps them, and then throws a new object.
pub fn described_exceptions()
    ensures kept { (last []).exception lowered (node (Call (closing 2 (Some 3) (Some 2)))) (3 ∷ []) (Some 20) (one (path 1 [] ∷ path 3 [] ∷ []) false []) ≡ one (path 1 [] ∷ []) true [] ∷ [] }
    ensures uncaught { (last []).exception lowered (node (Call (closing 2 (Some 3) (Some 2)))) [] None (one (path 1 [] ∷ static_path h [] ∷ []) false []) ≡ one (static_path h [] ∷ []) false [] ∷ [] }
{}
