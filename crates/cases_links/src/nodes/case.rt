//! A case: a folder of class files, with or without a stub file.

ghost use Rattle.std.specs.Prelude.{◌≡◌};
ghost use Rattle.program_model.specs.Numbers.{IsClassNumber, IsMethodNumber};

use crate::nodes::code::lowered;
use crate::nodes::node::node_text;
use anyhow::Result;
use cases_files::{Linked, MemberName, Names, read_case, signature_of, tell_failure};
use failure::Failure;
use jvm_model::{ClassNo, MethodNo, reason_word};
use lowering_supply::FolderSupply;
use op_model::LoweredMethod;
use program_model::program::Program;
use std::alloc::{AllocError, Global};
use ts_outside::Tree;

/// Prints the methods of a case, each as nodes or with its first refusal; or why the files have no program.
pub fn tell_case<R: Print, T: Tree>(rt: &R, alloc: Global, tree: &mut T) -> Result<()> {
    match read_case(alloc, tree) {
        Ok(linked) => tell_linked(rt, alloc, &linked),
        Err(failure) => tell_failure(rt, failure),
    }
}

/// Prints the methods of a program.
fn tell_linked<R: Print>(rt: &R, alloc: Global, linked: &Linked) -> Result<()> {
    let names = Names::of(alloc, &linked.program, &linked.members)?;
    tell_classes(rt, alloc, &linked.program, &linked.members.methods, &names)
}

/// Prints the methods of the classes, in the order of their numbers.
fn tell_classes<R: Print>(
    rt: &R,
    alloc: Global,
    program: &Program,
    methods: &[MemberName],
    names: &Names,
) -> Result<()> {
    let mut supply = FolderSupply::new(alloc, program);
    for number in 0..program.class_count() {
        if let Ok(number) = u32::try_from(number) {
            let class = ClassNo(number);
            tell_class(rt, alloc, program, &mut supply, class, methods, names)?;
        }
    }
    Ok(())
}

/// Prints the methods of a class, in the order of their numbers, which is that of its file.
fn tell_class<R: Print>(
    rt: &R,
    alloc: Global,
    program: &Program,
    supply: &mut FolderSupply<'_>,
    class: ClassNo,
    methods: &[MemberName],
    names: &Names,
) -> Result<()>
    requires class { IsClassNumber program.now class.0 }
    requires supply { supply.old ≡ program.now }
    ensures { supply.new ≡ supply.old }
{
    for member in methods {
        if member.class.as_bytes() == program.class_name(class)
            && let Some(method) = program.declared_method(class, signature_of(member))
        {
            tell_method(rt, alloc, supply, method, names)?;
        }
    }
    Ok(())
}

/// Prints a method, if a class file has code for it.
fn tell_method<R: Print>(
    rt: &R,
    alloc: Global,
    supply: &mut FolderSupply<'_>,
    method: MethodNo,
    names: &Names,
) -> Result<()>
    requires { IsMethodNumber supply.old method.0 }
    ensures { supply.new ≡ supply.old }
{
    let name = names.method(method);
    match lowered(alloc, supply, method) {
        Ok(Some(lowered)) => {
            println!(rt; "{name}")?;
            tell_nodes(rt, alloc, &lowered, names)
        }
        Ok(None) => Ok(()),
        Err(Failure::Cause(refusal)) => {
            let file = refusal.file.as_str();
            let offset = refusal.offset;
            let reason = reason_word(refusal.reason);
            println!(rt; "{name}")?;
            println!(rt; "refused {file} {offset} {reason}")?;
            Ok(())
        }
        Err(Failure::OutOfMemory) => Err(AllocError.into()),
    }
}

/// Prints the sizes of a method, and its nodes.
fn tell_nodes<R: Print>(
    rt: &R,
    alloc: Global,
    method: &LoweredMethod,
    names: &Names,
) -> Result<()> {
    let slots = method.slots;
    let stack = method.stack;
    let params = method.params;
    println!(rt; "slots {slots} stack {stack} params {params}")?;
    for node in method.nodes.as_slice() {
        let text = node_text(alloc, names, node)?;
        println!(rt; "{text}")?;
    }
    Ok(())
}
