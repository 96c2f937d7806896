//! The names of the classes, the methods and the fields of a program by number.

ghost use Rattle.std.specs.Prelude.{IfSome};
ghost use Rattle.program_model.specs.Numbers.{IsMethodNumber};

use crate::members::{MemberName, Members, field_text, method_text, shown, signature_of};
use jvm_model::{ClassNo, FieldNo, MethodNo};
use program_model::program::Program;
use std::alloc::{AllocError, Global};

/// The names of a program: each list has an empty text at a number that has no name.
#[derive(Drop)]
pub struct Names {
    classes: Vec<String>,
    methods: Vec<String>,
    fields: Vec<String>,
}

impl Names {
    /// The names of a program, which has these members.
    pub fn of(alloc: Global, program: &Program, members: &Members) -> Result<Names, AllocError> {
        let mut names = Names {
            classes: Vec::new(alloc),
            methods: Vec::new(alloc),
            fields: Vec::new(alloc),
        };
        names.fill(alloc, program, members)?;
        Ok(names)
    }

    /// Adds all names.
    fn fill(
        &mut self,
        alloc: Global,
        program: &Program,
        members: &Members,
    ) -> Result<(), AllocError> {
        add_classes(alloc, program, &mut self.classes)?;
        add_methods(alloc, program, &members.methods, &mut self.methods)?;
        add_fields(alloc, program, &members.fields, &mut self.fields)
    }

    /// The name of a class.
    pub fn class(&self, class: ClassNo) -> &str {
        name_of(&self.classes, class.0)
    }

    /// The class of a method, a full stop, and its name and descriptor.
    pub fn method(&self, method: MethodNo) -> &str {
        name_of(&self.methods, method.0)
    }

    /// The class of a field, a full stop, its name, a colon and its descriptor.
    pub fn field(&self, field: FieldNo) -> &str {
        name_of(&self.fields, field.0)
    }
}

/// The name that has a number; `?` if none has.
fn name_of(names: &[String], number: u32) -> &str {
    match names.get(number as usize) {
        Some(name) if !name.is_empty() => name.as_str(),
        _ => "?",
    }
}

/// Gives a number its name.
fn put(
    alloc: Global,
    names: &mut Vec<String>,
    number: u32,
    name: String,
) -> Result<(), AllocError> {
    let number = number as usize;
    for _ in names.len()..=number {
        names.push(String::new(alloc))?;
    }
    if let Some(place) = names.get_mut(number) {
        *place = name;
    }
    Ok(())
}

/// Adds the names of the classes.
fn add_classes(
    alloc: Global,
    program: &Program,
    names: &mut Vec<String>,
) -> Result<(), AllocError> {
    for number in 0..program.class_count() {
        if let Ok(number) = u32::try_from(number) {
            let name = shown(program.class_name(ClassNo(number)));
            put(alloc, names, number, String::from_str(alloc, name)?)?;
        }
    }
    Ok(())
}

/// Adds the names of the methods.
fn add_methods(
    alloc: Global,
    program: &Program,
    members: &[MemberName],
    names: &mut Vec<String>,
) -> Result<(), AllocError> {
    for member in members {
        if let Some(MethodNo(number)) = method_of(program, member) {
            put(alloc, names, number, method_text(alloc, member)?)?;
        }
    }
    Ok(())
}

/// Adds the names of the fields.
fn add_fields(
    alloc: Global,
    program: &Program,
    members: &[MemberName],
    names: &mut Vec<String>,
) -> Result<(), AllocError> {
    for member in members {
        if let Some(FieldNo(number)) = field_of(program, member) {
            put(alloc, names, number, field_text(alloc, member)?)?;
        }
    }
    Ok(())
}

/// The method of a name.
pub fn method_of(program: &Program, member: &MemberName) -> Option<MethodNo>
    ensures { IfSome result (λ method. IsMethodNumber program.now method.0) }
{
    let class = program.find(member.class.as_bytes())?;
    program.declared_method(class, signature_of(member))
}

/// The field of a name.
fn field_of(program: &Program, member: &MemberName) -> Option<FieldNo> {
    let class = program.find(member.class.as_bytes())?;
    program.declared_field(class, signature_of(member))
}
