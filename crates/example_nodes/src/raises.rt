//! Exceptions that instructions raise: new objects of a listed class.

ghost use Rattle.std.specs.Prelude.{codes};
ghost use Rattle.jvm_model.specs.declared.site.SiteKind.TheVariants.{Thrown};
ghost use Rattle.example_machine.specs.Excepting.{calls_null};
ghost use Rattle.example_machine.specs.Taking.{HasObject};
ghost use Rattle.example_machine.specs.Within.{misfit, null_throw, division, string_cast, first_number, null_field};
ghost use Rattle.example_nodes.specs.Raising.{runs, Steps, misfit_nodes, null_throw_nodes, division_nodes, string_cast_nodes, first_number_nodes, null_field_nodes, runs_call, given_call};
ghost use Rattle.example_nodes.specs.Taking.{TakesNode, RaisingNode};
ghost use Rattle.example_nodes.specs.Within.{given_main};

/// aastore raises an ArrayStoreException for a value that does not fit.
pub fn a_misfit_is_not_stored()
    ensures { Steps misfit misfit_nodes (λ s t. RaisingNode (runs misfit) (given_main misfit_nodes) (codes "java/lang/ArrayStoreException") s t × HasObject 4 Thrown (codes "java/lang/ArrayStoreException") t) }
{}

/// athrow of null raises a NullPointerException.
pub fn a_throw_of_null_raises()
    ensures { Steps null_throw null_throw_nodes (λ s t. RaisingNode (runs null_throw) (given_main null_throw_nodes) (codes "java/lang/NullPointerException") s t × HasObject 3 Thrown (codes "java/lang/NullPointerException") t) }
{}

/// A division may raise an ArithmeticException.
pub fn a_division_raises()
    ensures { Steps division division_nodes (λ s t. RaisingNode (runs division) (given_main division_nodes) (codes "java/lang/ArithmeticException") s t × HasObject 3 Thrown (codes "java/lang/ArithmeticException") t) }
{}

/// A cast of an object that does not fit raises a ClassCastException.
pub fn a_cast_raises()
    ensures { Steps string_cast string_cast_nodes (λ s t. RaisingNode (runs string_cast) (given_main string_cast_nodes) (codes "java/lang/ClassCastException") s t × HasObject 3 Thrown (codes "java/lang/ClassCastException") t) }
{}

/// An index may raise an ArrayIndexOutOfBoundsException.
pub fn an_index_raises()
    ensures { Steps first_number first_number_nodes (λ s t. RaisingNode (runs first_number) (given_main first_number_nodes) (codes "java/lang/ArrayIndexOutOfBoundsException") s t × HasObject 4 Thrown (codes "java/lang/ArrayIndexOutOfBoundsException") t) }
{}

/// The size of a new array may raise a NegativeArraySizeException.
pub fn a_size_raises()
    ensures { Steps first_number first_number_nodes (λ s t. RaisingNode (runs first_number) (given_main first_number_nodes) (codes "java/lang/NegativeArraySizeException") s t × HasObject 3 Thrown (codes "java/lang/NegativeArraySizeException") t) }
{}

/// getfield on null raises a NullPointerException.
pub fn a_field_of_null_raises()
    ensures { Steps null_field null_field_nodes (λ s t. RaisingNode (runs null_field) (given_main null_field_nodes) (codes "java/lang/NullPointerException") s t × HasObject 3 Thrown (codes "java/lang/NullPointerException") t) }
{}

/// A call on null raises a NullPointerException.
pub fn a_call_on_null_raises()
    ensures { TakesNode (runs_call calls_null) given_call (λ s t. RaisingNode (runs_call calls_null) given_call (codes "java/lang/NullPointerException") s t × HasObject 3 Thrown (codes "java/lang/NullPointerException") t) }
{}
