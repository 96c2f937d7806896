//! The rows of the table of base stubs, as constants can hold them, and the stubs that they say.

ghost use Rattle.std.specs.Prelude.{◌≡◌, map, IfOk};
ghost use Rattle.stub_file.specs.BaseRead.{base_class, base_field, base_method, base_result, base_text};

use jvm_model::{
    Bytes, Name, Sequence, StubArgument, StubClass, StubField, StubMethod, StubResult,
};
use std::alloc::{AllocError, Global};

/// One result that a call may have.
pub(crate) enum BaseResult {
    Primitive,
    Void,
    Null,
    This,
    New(&'static str),
    Kept,
}

/// A method.
pub(crate) struct BaseMethod {
    pub(crate) name: &'static str,
    pub(crate) descriptor: &'static str,
    pub(crate) is_static: bool,
    pub(crate) is_abstract: bool,
    pub(crate) returns: &'static [BaseResult],
    pub(crate) throws: &'static [&'static str],
    pub(crate) keeps: &'static [StubArgument],
}

/// A static field, and the class of the object that it holds from the start.
pub(crate) struct BaseField {
    pub(crate) name: &'static str,
    pub(crate) descriptor: &'static str,
    pub(crate) holds: &'static str,
}

/// A class or an interface.
pub(crate) struct BaseClass {
    pub(crate) name: &'static str,
    pub(crate) super_class: &'static str,
    pub(crate) interfaces: &'static [&'static str],
    pub(crate) is_interface: bool,
    pub(crate) methods: &'static [BaseMethod],
    pub(crate) fields: &'static [BaseField],
}

/// A method that lists nothing yet.
pub(crate) const METHOD: BaseMethod = BaseMethod {
    name: "",
    descriptor: "",
    is_static: false,
    is_abstract: false,
    returns: &[],
    throws: &[],
    keeps: &[],
};

/// An abstract method.
pub(crate) const ABSTRACT: BaseMethod = BaseMethod {
    is_abstract: true,
    ..METHOD
};

/// A class that extends `java/lang/Object` and has nothing else yet.
pub(crate) const CLASS: BaseClass = BaseClass {
    name: "",
    super_class: "java/lang/Object",
    interfaces: &[],
    is_interface: false,
    methods: &[],
    fields: &[],
};

/// An interface that has nothing yet.
pub(crate) const INTERFACE: BaseClass = BaseClass {
    is_interface: true,
    ..CLASS
};

/// A row, and what it says.
pub(crate) trait Row {
    /// What a row says.
    type Stub: Drop;

    ghost says: { Self → Self.Stub };

    /// What this row says, as a value of its own.
    fn make(&self, alloc: Global) -> Result<Self::Stub, AllocError>
        ensures { IfOk result (λ made. made ≡ says self.now) };
}

/// What the rows say, in order.
pub(crate) fn all_of<R: Row>(alloc: Global, rows: &[R]) -> Result<Vec<R::Stub>, AllocError>
    ensures { IfOk result (λ made. made.items ≡ map R.says rows.now) }
{
    let mut all = Vec::new(alloc);
    for row in rows {
        all.push(row.make(alloc)?)?;
    }
    Ok(all)
}

/// A name.
impl Row for &'static str {
    type Stub = Bytes;

    ghost says = { base_text };

    fn make(&self, alloc: Global) -> Result<Bytes, AllocError> {
        Ok(Bytes::from_vec(Vec::from_slice(alloc, self.as_bytes())?))
    }
}

impl Row for BaseResult {
    type Stub = StubResult;

    ghost says = { base_result };

    fn make(&self, alloc: Global) -> Result<StubResult, AllocError> {
        match self {
            BaseResult::Primitive => Ok(StubResult::Primitive),
            BaseResult::Void => Ok(StubResult::Void),
            BaseResult::Null => Ok(StubResult::Null),
            BaseResult::This => Ok(StubResult::Given(StubArgument::This)),
            BaseResult::New(name) => Ok(StubResult::New(name.make(alloc)?)),
            BaseResult::Kept => Ok(StubResult::Kept),
        }
    }
}

impl Row for BaseMethod {
    type Stub = StubMethod;

    ghost says = { base_method };

    fn make(&self, alloc: Global) -> Result<StubMethod, AllocError> {
        Ok(StubMethod {
            name: self.name.make(alloc)?,
            descriptor: self.descriptor.make(alloc)?,
            is_static: self.is_static,
            is_abstract: self.is_abstract,
            returns: Sequence::from_vec(all_of(alloc, self.returns)?),
            throws: Sequence::from_vec(all_of(alloc, self.throws)?),
            keeps: Sequence::from_vec(Vec::from_slice(alloc, self.keeps)?),
        })
    }
}

impl Row for BaseField {
    type Stub = StubField;

    ghost says = { base_field };

    fn make(&self, alloc: Global) -> Result<StubField, AllocError> {
        Ok(StubField {
            name: self.name.make(alloc)?,
            descriptor: self.descriptor.make(alloc)?,
            is_static: true,
            holds: Some(self.holds.make(alloc)?),
        })
    }
}

impl Row for BaseClass {
    type Stub = StubClass;

    ghost says = { base_class };

    fn make(&self, alloc: Global) -> Result<StubClass, AllocError> {
        Ok(StubClass {
            file: Name::from_string(String::from_str(alloc, "-")?),
            name: self.name.make(alloc)?,
            super_class: self.super_class.make(alloc)?,
            interfaces: Sequence::from_vec(all_of(alloc, self.interfaces)?),
            is_interface: self.is_interface,
            is_patch: false,
            methods: Sequence::from_vec(all_of(alloc, self.methods)?),
            fields: Sequence::from_vec(all_of(alloc, self.fields)?),
        })
    }
}
