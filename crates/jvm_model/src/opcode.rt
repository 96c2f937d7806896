//! The instruction table (JVMS 6.5), as the code has it: a row for each opcode. It is the table of specs/, row by row.

ghost use Rattle.std.specs.Prelude.{◌≡◌, ◌+◌, ◌<◌, ◌≤◌, length, map, take, drop, option_map};
ghost use Rattle.jvm_model.specs.RowViews.{row_view};
ghost use Rattle.jvm_model.specs.Table.{row_of, rows};

mod rows;

/// `aload_0`: pushes the local variable 0, a reference. The local variables 1 to 3 have the opcodes after it (JVMS 6.5.aload_n).
pub const ALOAD_0: u8 = 42;

/// `astore_0`: pops a reference into the local variable 0. The local variables 1 to 3 have the opcodes after it
/// (JVMS 6.5.astore_n).
pub const ASTORE_0: u8 = 75;

/// `dup`: pushes the unit at the top once more (JVMS 6.5.dup).
pub const DUP: u8 = 89;

/// `return`: leaves a method without a result (JVMS 6.5.return).
pub const RETURN: u8 = 177;

/// `invokevirtual` (JVMS 6.5.invokevirtual).
pub const INVOKE_VIRTUAL: u8 = 182;

/// `invokespecial` (JVMS 6.5.invokespecial).
pub const INVOKE_SPECIAL: u8 = 183;

/// `new` (JVMS 6.5.new).
pub const NEW: u8 = 187;

/// What an index of the constant pool has to lead to.
#[derive(Clone, Copy, PartialEq, Eq)]
pub enum PoolTarget {
    /// What `ldc` loads: a number of one unit, a text, a class, a method handle or a method type.
    Loadable,
    /// What `ldc2_w` loads: a number of two units.
    WideNumber,
    Field,
    ClassMethod,
    /// A method of a class or of an interface.
    AnyMethod,
    InterfaceMethod,
    /// What `invokedynamic` names.
    CallSite,
    /// A class, an interface or an array.
    AnyClass,
    /// A class or an interface.
    NoArray,
    Array,
}

/// What stands after an opcode. Numbers in the names are bytes.
#[derive(Clone, Copy, PartialEq, Eq)]
pub enum Operands {
    Nothing,
    /// None: the opcode itself says which local variable.
    Implied(u8),
    Value1,
    Value2,
    /// The code of a primitive type, of one byte.
    TypeCode,
    Local1,
    Pool1(PoolTarget),
    Pool2(PoolTarget),
    Offset2,
    Offset4,
    /// A local variable and a constant, of one byte each.
    LocalAndValue,
    /// An index of two bytes, a count and a zero.
    Pool2AndCount,
    Pool2AndZeros,
    Pool2AndDimensions,
    /// Padding, and a table of branch offsets.
    TableOfOffsets,
    /// Padding, and pairs of keys and branch offsets.
    PairsWithOffsets,
    /// Another instruction, whose operands are widened.
    Widened,
}

/// What a popped unit has to be.
#[derive(Clone, Copy, PartialEq, Eq)]
pub enum UnitKind {
    Any,
    Primitive,
    Reference,
}

/// Where a unit that is written comes from.
#[derive(Clone, Copy, PartialEq, Eq)]
pub enum UnitSource {
    /// A popped unit, counted from the lowest one.
    Popped(u8),
    /// The local variable that the operand names.
    Local,
    Null,
    Primitive,
    /// What the instruction's action makes.
    Made,
}

/// Where an instruction goes on.
#[derive(Clone, Copy, Debug, PartialEq, Eq)]
pub enum Flow {
    Onward,
    /// At its target, or at any of its targets.
    Jump,
    /// At the next one, or at its target.
    Branch,
    BranchIfNull,
    BranchIfObject,
    BranchIfSame,
    BranchIfOther,
    /// Nowhere in its method.
    Leave,
    Subroutine,
}

/// What an instruction does beside popping and writing units.
#[derive(Clone, Copy, PartialEq, Eq)]
pub enum Action {
    Plain,
    LoadConstant,
    /// On an array of references.
    LoadElement,
    StoreElement,
    /// It looks at an object that must be there: at an element of an array of primitives.
    ProbeElement,
    /// At an array.
    ProbeArray,
    /// At any object.
    ProbeObject,
    GetStatic,
    PutStatic,
    GetField,
    PutField,
    InvokeVirtual,
    InvokeSpecial,
    InvokeStatic,
    InvokeInterface,
    MakeObject,
    MakeArray,
    ThrowObject,
    Cast,
    LeaveMethod,
    /// `jsr`, `ret`, `invokedynamic`, and the prefix `wide`.
    Refused,
}

/// An exception that an instruction itself raises.
#[derive(Clone, Copy, Debug, PartialEq, Eq)]
pub enum Raise {
    NullPointer,
    ArrayIndex,
    ArrayStore,
    Arithmetic,
    ClassCast,
    NegativeSize,
}

/// A row of the table: the units that the instruction pops, those that it pushes, and those that it stores into the
/// local variables from its operand on. What a call, an access to a field and `ldc` pop and push depends on the
/// constant pool, and what `multianewarray` pops on its dimensions; that does not stand here.
#[derive(Clone, Copy)]
pub struct Row {
    pub mnemonic: &'static str,
    pub operands: Operands,
    pub pops: &'static [UnitKind],
    pub pushes: &'static [UnitSource],
    pub stores: &'static [UnitSource],
    pub flow: Flow,
    pub action: Action,
    pub raises: &'static [Raise],
}

/// The row of an opcode; `None` past 201.
pub fn row_of_opcode(opcode: u8) -> Option<&'static Row>
    ensures { option_map (λ r. row_view r.now) result ≡ row_of opcode }
{
    match opcode {
        0..=20 => row_in(rows::constants(), 0, opcode),
        21..=53 => row_in(rows::loads(), 21, opcode),
        54..=86 => row_in(rows::stores(), 54, opcode),
        87..=95 => row_in(rows::stack(), 87, opcode),
        96..=132 => row_in(rows::arithmetic(), 96, opcode),
        133..=152 => row_in(rows::conversions(), 133, opcode),
        153..=177 => row_in(rows::branches(), 153, opcode),
        178..=201 => row_in(rows::objects(), 178, opcode),
        _ => None,
    }
}

/// The row of an opcode in a part of the table, whose first row has another opcode.
fn row_in(part: &'static [Row], first: u8, opcode: u8) -> Option<&'static Row>
    requires rows { map (λ r. row_view r) part.now ≡ take (length part.now) (drop first rows) }
    requires from { first ≤ opcode }
    requires until { opcode < first + length part.now }
    ensures { option_map (λ r. row_view r.now) result ≡ row_of opcode }
{
    part.get((opcode - first) as usize)
}
