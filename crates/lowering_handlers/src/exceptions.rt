//! The classes of the exceptions that an instruction may itself throw (JVMS 2.10, 5.5, 6.5).

ghost use Rattle.std.specs.Prelude.{◌≡◌, ℕ, List, Option, ◌++◌, map, IfOk, IfSome, OnOk};
ghost use Rattle.jvm_model.specs.RowViews.{raise_view};
ghost use Rattle.program_model.specs.Numbers.{IsClassNumber};
ghost use Rattle.machine_bytecode.specs.Machine.{exception_class};
ghost use Rattle.machine_nodes.specs.Nodes.{AreThrownAt};
ghost use Rattle.lowering_handlers.specs.Exceptions.{AddsClass, AreRaised, IsThrownList, IsTriggerOf, number_named, numbers_named};

use crate::initialisers::has_initialiser;
use jvm_model::ClassNo;
use jvm_model::opcode::Raise;
use program_model::program::Program;
use std::alloc::{AllocError, Global};

/// The classes of the program of which an instruction may throw a new object: those that it raises, and those of failed
/// initialisation where the class whose initialisation it may start has an initialiser.
pub fn thrown_classes(
    alloc: Global,
    program: &Program,
    raises: &[Raise],
    trigger: Option<ClassNo>,
) -> Result<Vec<ClassNo>, AllocError>
    requires { IfSome trigger (λ class. IsClassNumber program.now class.0) }
    ensures thrown { IfOk result (λ thrown. (name : Option (List ℕ)) → IsTriggerOf program.now trigger name
        → AreThrownAt program.now (map (λ r. raise_view r) raises.now) name thrown.items) }
    ensures order { IfOk result (λ thrown. (name : Option (List ℕ)) → IsTriggerOf program.now trigger name
        → IsThrownList program.now (map (λ r. raise_view r) raises.now) name thrown.items) }
{
    let mut thrown = raised_classes(alloc, program, raises)?;
    let Some(class) = trigger else {
        return Ok(thrown);
    };
    if has_initialiser(program, class) {
        add_class(
            program,
            &mut thrown,
            b"java/lang/ExceptionInInitializerError",
        )?;
        add_class(program, &mut thrown, b"java/lang/NoClassDefFoundError")?;
    }
    Ok(thrown)
}

/// The classes that an instruction raises.
fn raised_classes(
    alloc: Global,
    program: &Program,
    raises: &[Raise],
) -> Result<Vec<ClassNo>, AllocError>
    ensures raised { IfOk result (λ raised. AreRaised program.now (map (λ r. raise_view r) raises.now) raised.items) }
    ensures order { IfOk result (λ raised. raised.items ≡ numbers_named program.now (map (λ raise. exception_class raise) (map (λ r. raise_view r) raises.now))) }
{
    let mut raised = Vec::new(alloc);
    for raise in raises {
        add_class(program, &mut raised, class_of(*raise))?;
    }
    Ok(raised)
}

/// Adds the class of a name, if it is in the program.
fn add_class(program: &Program, classes: &mut Vec<ClassNo>, name: &[u8]) -> Result<(), AllocError>
    ensures added { OnOk result (AddsClass program.now name.now classes.old.items classes.new.items) }
    ensures order { OnOk result (classes.new.items ≡ classes.old.items ++ number_named program.now name.now) }
{
    program.well_formed();
    if let Some(class) = program.find(name) {
        classes.push(class)?;
    }
    Ok(())
}

/// The name of the class of an exception that an instruction raises (JVMS 6.5).
fn class_of(raise: Raise) -> &'static [u8]
    ensures { result.now ≡ exception_class (raise_view raise) }
{
    match raise {
        Raise::NullPointer => b"java/lang/NullPointerException",
        Raise::ArrayIndex => b"java/lang/ArrayIndexOutOfBoundsException",
        Raise::ArrayStore => b"java/lang/ArrayStoreException",
        Raise::Arithmetic => b"java/lang/ArithmeticException",
        Raise::ClassCast => b"java/lang/ClassCastException",
        Raise::NegativeSize => b"java/lang/NegativeArraySizeException",
    }
}
