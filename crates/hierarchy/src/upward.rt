//! Walks up the superclasses of a class: to the first class that answers, or over all of them. Each rule that goes from a class to its
//! superclass, and so on, is one of the two (JVMS 5.4.3.2, 5.4.3.3, 5.5, 6.5.invokevirtual).

ghost use Rattle.std.specs.Prelude.{◌≡◌, Option, Some, slice_get};
ghost use Rattle.jvm_model.specs.Programs.{Class, Program as LinkedProgram};
ghost use Rattle.program_model.specs.Numbers.{name_at, IsClassNumber};
ghost use Rattle.hierarchy.specs.Upward.{IsFirstUpward, IsFoldedUpward};

use jvm_model::ClassNo;
use program_model::program::Program;

/// What a walk up the superclasses asks of each class.
pub trait Step {
    /// What a class answers.
    type Answer;

    /// Whether the step may be made in the program.
    ghost fits: { Self → LinkedProgram → Type 0 };

    /// Whether a class answers so. An answer ends the walk; without one it goes on to the superclass.
    ghost answers: { Self → LinkedProgram → Class → Option Self.Answer → Type 0 };

    /// What the class answers, if it does.
    fn at(&self, program: &Program, class: ClassNo) -> Option<Self::Answer>
        requires class { IsClassNumber program.now class.0 }
        requires fits { fits self.now program.now }
        ensures { (c : Class) → slice_get program.now.classes class.0 ≡ Some c → answers self.now program.now c result };
}

/// What the first class answers that does, from a class upward through its superclasses; `None` if no class answers. So a member is
/// looked for in a class, then in its superclass, and so on (JVMS 5.4.3.3).
///
/// It asks each of these classes once at most, so time is linear in them, and takes no memory of its own.
pub fn first_upward<S: Step>(program: &Program, class: ClassNo, step: &S) -> Option<S::Answer>
    requires class { IsClassNumber program.now class.0 }
    requires fits { S.fits step.now program.now }
    ensures { IsFirstUpward program.now (S.answers step.now program.now) (name_at program.now class.0) result }
{
    program.well_formed();
    let mut current = class;
    'upward: for _passed in 0..program.class_count() {
        if let Some(answer) = step.at(program, current) {
            return Some(answer);
        }
        let Some(above) = program.super_class(current) else {
            return None;
        };
        current = above;
    }
    unreachable!()
}

/// What a walk up the superclasses makes of a value at each class.
pub trait Fold {
    /// What is carried from class to class. Where a step may fail it is a `Result`, and a failure is handed on from class to class.
    type Value;

    /// Whether a class makes the second value of the first.
    ghost makes: { Self → LinkedProgram → Class → Self.Value → Self.Value → Type 0 };

    /// What the class makes of the value.
    fn at(&self, program: &Program, class: ClassNo, value: Self::Value) -> Self::Value
        requires { IsClassNumber program.now class.0 }
        ensures { (c : Class) → slice_get program.now.classes class.0 ≡ Some c → makes self.now program.now c value result };
}

/// What a class and then its superclasses, one after the other, make of a value. So the methods are gathered that a class inherits from
/// the superinterfaces of all of them (JVMS 5.4.3.3).
///
/// It asks each of these classes once, so time is linear in them, and takes no memory of its own.
pub fn fold_upward<F: Fold>(
    program: &Program,
    class: ClassNo,
    fold: &F,
    start: F::Value,
) -> F::Value
    requires { IsClassNumber program.now class.0 }
    ensures { IsFoldedUpward program.now (F.makes fold.now program.now) (name_at program.now class.0) start result }
{
    program.well_formed();
    let mut current = class;
    let mut value = start;
    'upward: for _passed in 0..program.class_count() {
        value = fold.at(program, current, value);
        let Some(above) = program.super_class(current) else {
            return value;
        };
        current = above;
    }
    unreachable!()
}
