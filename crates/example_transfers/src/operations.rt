//! Operations, on the way to a successor.

ghost use Rattle.std.specs.Prelude.{◌≡◌, Some, None, true, false, [], ◌∷◌};
ghost use Rattle.op_model.specs.declared.op.Op.TheVariants.{Assign, Call, Cast, Load, LoadElement, LoadStatic, New, Probe, Return, Store, StoreElement, StoreStatic};
ghost use Rattle.op_model.specs.declared.op.Source.TheVariants.{Null, Slot};
ghost use Rattle.stage_facts.specs.Facts.{none_yet, some_yet};
ghost use Rattle.example_transfers.specs.Small.{closing, f, g, h, last, lowered, moving, node, one, other_site, path, returned_path, some_one, static_path, the_site};

/// Moves: the paths of a source are copied to its target, whose own go. A must path of at least one field that is lost makes other cells possible,
/// unless a slot holds still what its root held.
pub fn moves()
    ensures copied { (last []).next lowered (node (Assign (moving (Slot 0) 1 ∷ []))) (one (path 0 [] ∷ path 0 (f ∷ []) ∷ []) false []) ≡ one (path 0 [] ∷ path 0 (f ∷ []) ∷ path 1 [] ∷ path 1 (f ∷ []) ∷ []) false [] ∷ [] }
    ensures copied_not { (last []).next lowered (node (Assign (moving (Slot 0) 1 ∷ []))) (one [] true (path 0 [] ∷ [])) ≡ one [] true (path 0 [] ∷ path 1 [] ∷ []) ∷ [] }
    ensures bare { (last []).next lowered (node (Assign (moving Null 1 ∷ []))) (one (path 0 [] ∷ path 1 [] ∷ []) false []) ≡ one (path 0 [] ∷ []) false [] ∷ [] }
    ensures lost { (last []).next lowered (node (Assign (moving Null 1 ∷ []))) (one (path 0 [] ∷ path 1 (f ∷ []) ∷ []) false []) ≡ one (path 0 [] ∷ []) true [] ∷ [] }
    ensures doubled { (last ((0 ∷ 1 ∷ []) ∷ [])).next lowered (node (Assign (moving Null 1 ∷ []))) (one (path 0 (f ∷ []) ∷ path 1 (f ∷ []) ∷ []) false []) ≡ one (path 0 (f ∷ []) ∷ []) false [] ∷ [] }
    ensures swapped { (last []).next lowered (node (Assign (moving (Slot 1) 0 ∷ moving (Slot 0) 1 ∷ []))) (one (path 1 (f ∷ []) ∷ []) false []) ≡ one (path 0 (f ∷ []) ∷ []) false [] ∷ [] }
    ensures both_doubled { (last ((0 ∷ 1 ∷ []) ∷ [])).next lowered (node (Assign (moving Null 0 ∷ moving Null 1 ∷ moving (Slot 0) 2 ∷ []))) (one (path 0 (f ∷ []) ∷ path 1 (f ∷ []) ∷ []) false []) ≡ one (path 2 (f ∷ []) ∷ []) false [] ∷ [] }
{}

/// Loads: the paths behind the field become paths of the target. Where another path ends in the field, the loaded object may be this one.
pub fn loads()
    ensures into_its_base { (last ((0 ∷ 2 ∷ []) ∷ [])).next lowered (node (Load 2 f 2)) (one (path 0 (f ∷ []) ∷ path 2 (f ∷ []) ∷ []) false []) ≡ one (path 0 (f ∷ []) ∷ path 2 [] ∷ []) false [] ∷ [] }
    ensures base_lost { (last []).next lowered (node (Load 2 f 3)) (one (path 2 (f ∷ []) ∷ []) false []) ≡ one (path 3 [] ∷ []) true [] ∷ [] }
    ensures deeper { (last ((0 ∷ 2 ∷ []) ∷ [])).next lowered (node (Load 2 f 3)) (one (path 0 (f ∷ g ∷ []) ∷ path 2 (f ∷ g ∷ []) ∷ []) false []) ≡ one (path 0 (f ∷ g ∷ []) ∷ path 3 (g ∷ []) ∷ []) false [] ∷ [] }
    ensures other_path { (last []).next lowered (node (Load 2 f 3)) (one (path 1 (g ∷ f ∷ []) ∷ []) false []) ≡ one (path 1 (g ∷ f ∷ []) ∷ []) true [] ∷ [] }
    ensures other_field { (last []).next lowered (node (Load 2 f 3)) (one (path 1 (g ∷ []) ∷ []) false []) ≡ one (path 1 (g ∷ []) ∷ []) false [] ∷ [] }
{}

/// Stores: the paths of the value become paths of the field, by each slot of the object's variable; the path of the object's own slot goes with it.
pub fn stores()
    ensures stored { (last ((0 ∷ 2 ∷ []) ∷ (1 ∷ 3 ∷ []) ∷ [])).next lowered (node (Store 2 f 3)) (one (path 1 [] ∷ path 3 [] ∷ []) false []) ≡ one (path 0 (f ∷ []) ∷ path 1 [] ∷ []) false [] ∷ [] }
    ensures stored_not { (last ((0 ∷ 2 ∷ []) ∷ (1 ∷ 3 ∷ []) ∷ [])).next lowered (node (Store 2 f 3)) (one [] true (path 1 [] ∷ path 3 [] ∷ [])) ≡ one [] true (path 0 (f ∷ []) ∷ path 1 [] ∷ []) ∷ [] }
    ensures only_by_its_slot { (last ((1 ∷ 3 ∷ []) ∷ [])).next lowered (node (Store 2 f 3)) (one (path 1 [] ∷ path 3 [] ∷ []) false []) ≡ one (path 1 [] ∷ []) true [] ∷ [] }
    ensures into_itself { (last ((0 ∷ 2 ∷ 3 ∷ []) ∷ [])).next lowered (node (Store 2 f 3)) (one (path 0 [] ∷ path 2 [] ∷ path 3 [] ∷ []) false []) ≡ one (path 0 [] ∷ path 0 (f ∷ []) ∷ []) false [] ∷ [] }
    ensures overwritten { (last ((0 ∷ 2 ∷ []) ∷ [])).next lowered (node (Store 2 f 3)) (one (path 0 (f ∷ []) ∷ path 1 [] ∷ []) false []) ≡ one (path 1 [] ∷ []) false [] ∷ [] }
    ensures behind_it { (last ((0 ∷ 2 ∷ []) ∷ [])).next lowered (node (Store 2 f 3)) (one (path 0 (f ∷ g ∷ []) ∷ path 1 [] ∷ []) false []) ≡ one (path 1 [] ∷ []) true [] ∷ [] }
    ensures of_another { (last []).next lowered (node (Store 2 f 3)) (one (path 0 [] ∷ path 1 (f ∷ []) ∷ []) false []) ≡ one (path 0 [] ∷ []) true [] ∷ [] }
    ensures too_long { (last ((0 ∷ 2 ∷ []) ∷ (1 ∷ 3 ∷ []) ∷ [])).next lowered (node (Store 2 f 3)) (one (path 1 (g ∷ h ∷ g ∷ []) ∷ path 3 (g ∷ h ∷ g ∷ []) ∷ []) false []) ≡ one (path 1 (g ∷ h ∷ g ∷ []) ∷ []) true [] ∷ [] }
{}

/// Static fields are copied from and to. One that is stored to goes before.
pub fn statics()
    ensures loaded { (last []).next lowered (node (LoadStatic h 2)) (one (static_path h [] ∷ []) false []) ≡ one (path 2 [] ∷ static_path h [] ∷ []) false [] ∷ [] }
    ensures stored { (last ((0 ∷ 2 ∷ []) ∷ [])).next lowered (node (StoreStatic h 2)) (one (path 0 [] ∷ path 2 [] ∷ []) false []) ≡ one (path 0 [] ∷ static_path h [] ∷ []) false [] ∷ [] }
    ensures gone { (last []).next lowered (node (StoreStatic h 2)) (one (path 0 [] ∷ static_path h (f ∷ []) ∷ []) false []) ≡ one (path 0 [] ∷ []) true [] ∷ [] }
{}

/// An array may hold what is put into it; no path leads there, or from there.
pub fn arrays()
    ensures put { (last []).next lowered (node (StoreElement 2 3)) (one (path 1 [] ∷ path 3 [] ∷ []) false []) ≡ one (path 1 [] ∷ []) true [] ∷ [] }
    ensures another_put { (last []).next lowered (node (StoreElement 2 3)) (one (path 1 [] ∷ []) false []) ≡ one (path 1 [] ∷ []) false [] ∷ [] }
    ensures taken { (last []).next lowered (node (LoadElement 2 2)) (one (path 0 [] ∷ path 2 [] ∷ []) false []) ≡ one (path 0 [] ∷ []) false [] ∷ [] }
{}

/// A new object of the site, and of another one.
pub fn allocations()
    ensures first { (last []).next lowered (node (New the_site 2)) (none_yet) ≡ some_yet ∷ one (path 2 [] ∷ []) false [] ∷ [] }
    ensures next { (last []).next lowered (node (New the_site 2)) (some_yet) ≡ some_yet ∷ some_one 0 (path 2 [] ∷ []) false [] ∷ [] }
    ensures beside { (last []).next lowered (node (New the_site 2)) (one (path 0 [] ∷ path 2 [] ∷ []) false []) ≡ some_one 0 (path 0 [] ∷ []) false (path 2 [] ∷ []) ∷ [] }
    ensures of_another { (last []).next lowered (node (New other_site 2)) (one (path 0 [] ∷ path 2 [] ∷ []) false []) ≡ one (path 0 [] ∷ []) false [] ∷ [] }
    ensures none_of_another { (last []).next lowered (node (New other_site 2)) (none_yet) ≡ none_yet ∷ [] }
{}

/// A cast keeps its slot, and a probe does not.
pub fn tests()
    ensures cast { (last []).next lowered (node (Cast [] 2)) (one (path 0 [] ∷ path 2 [] ∷ []) false []) ≡ one (path 0 [] ∷ path 2 [] ∷ []) false [] ∷ [] }
    ensures probe { (last []).next lowered (node (Probe 2)) (one (path 0 [] ∷ path 2 [] ∷ []) false []) ≡ one (path 0 [] ∷ []) false [] ∷ [] }
{}

/// A return copies its value, and then all slots go.
pub fn returns()
    ensures value { (last []).next lowered (node (Return (Some 0))) (one (path 0 [] ∷ static_path h [] ∷ []) false []) ≡ one (static_path h [] ∷ returned_path [] ∷ []) false [] ∷ [] }
    ensures field { (last []).next lowered (node (Return (Some 0))) (one (path 0 (f ∷ []) ∷ []) false []) ≡ one (returned_path (f ∷ []) ∷ []) true [] ∷ [] }
    ensures nothing { (last []).next lowered (node (Return None)) (one (path 0 [] ∷ []) false []) ≡ one [] false [] ∷ [] }
{}

/// After a call what was returned is copied to the slot of its result.
pub fn results()
    ensures received { (last []).next lowered (node (Call (closing 2 (Some 3) (Some 2)))) (one (path 0 [] ∷ returned_path [] ∷ returned_path (f ∷ []) ∷ []) false []) ≡ one (path 0 [] ∷ path 2 [] ∷ path 2 (f ∷ []) ∷ []) false [] ∷ [] }
    ensures dropped { (last []).next lowered (node (Call (closing 2 (Some 3) None))) (one (path 0 [] ∷ returned_path (f ∷ []) ∷ []) false []) ≡ one (path 0 [] ∷ []) true [] ∷ [] }
{}
