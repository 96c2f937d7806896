//! The rows of the instruction table, in the order of their opcodes. A row is written as the manual writes it: mnemonic,
//! operands, and the units that are popped => those that are pushed, the topmost one last; then, where there is any, what
//! is stored into local variables, where it goes on if not at the next instruction, what it does beside, and what it raises.
//!
//! The table stands in parts, each of which is compared with the definition by itself: that takes a tenth of the time.

ghost use Rattle.std.specs.Prelude.{◌≡◌, length, map, take, drop};
ghost use Rattle.jvm_model.specs.RowViews.{row_view};
ghost use Rattle.jvm_model.specs.Table.{rows};

use super::Operands::{
    Implied, Local1, LocalAndValue, Nothing, Offset2, Offset4, PairsWithOffsets, Pool1, Pool2,
    Pool2AndCount, Pool2AndDimensions, Pool2AndZeros, TableOfOffsets, TypeCode, Value1, Value2,
    Widened,
};
use super::PoolTarget::{AnyClass, AnyMethod, ClassMethod, Field, Loadable, NoArray, WideNumber};
use super::UnitSource::{Local, Made, Null, Popped, Primitive};
use super::{Action, Flow, Raise, Row, UnitKind};

/// What a row says where its line is silent.
const PLAIN: Row = Row {
    mnemonic: "",
    operands: Nothing,
    pops: &[],
    pushes: &[],
    stores: &[],
    flow: Flow::Onward,
    action: Action::Plain,
    raises: &[],
};

/// A row, from its line.
macro_rules! row {
    ($mnemonic:literal, $operands:expr, [$($popped:ident),*] => [$($pushed:expr),*]
        $(, stores [$($stored:expr),*])? $(, goes $flow:ident)? $(, does $action:ident)?
        $(, raises [$($raise:ident),*])?) => {
        Row {
            mnemonic: $mnemonic,
            operands: $operands,
            pops: &[$(UnitKind::$popped),*],
            pushes: &[$($pushed),*],
            $(stores: &[$($stored),*],)?
            $(flow: Flow::$flow,)?
            $(action: Action::$action,)?
            $(raises: &[$(Raise::$raise),*],)?
            ..PLAIN
        }
    };
}

/// The rows that push constants. The first one has the opcode 0.
pub fn constants() -> &'static [Row]
    ensures rows { map (λ r. row_view r) result.now ≡ take (length result.now) (drop 0 rows) }
    ensures count { length result.now ≡ 21 }
{
    &CONSTANTS
}

/// The rows that load local variables, and elements of arrays. The first one has the opcode 21.
pub fn loads() -> &'static [Row]
    ensures rows { map (λ r. row_view r) result.now ≡ take (length result.now) (drop 21 rows) }
    ensures count { length result.now ≡ 33 }
{
    &LOADS
}

/// The rows that store into local variables, and into elements of arrays. The first one has the opcode 54.
pub fn stores() -> &'static [Row]
    ensures rows { map (λ r. row_view r) result.now ≡ take (length result.now) (drop 54 rows) }
    ensures count { length result.now ≡ 33 }
{
    &STORES
}

/// The rows that rearrange the operand stack. The first one has the opcode 87.
pub fn stack() -> &'static [Row]
    ensures rows { map (λ r. row_view r) result.now ≡ take (length result.now) (drop 87 rows) }
    ensures count { length result.now ≡ 9 }
{
    &STACK
}

/// The rows of arithmetic. The first one has the opcode 96.
pub fn arithmetic() -> &'static [Row]
    ensures rows { map (λ r. row_view r) result.now ≡ take (length result.now) (drop 96 rows) }
    ensures count { length result.now ≡ 37 }
{
    &ARITHMETIC
}

/// The rows of conversions and of comparisons. The first one has the opcode 133.
pub fn conversions() -> &'static [Row]
    ensures rows { map (λ r. row_view r) result.now ≡ take (length result.now) (drop 133 rows) }
    ensures count { length result.now ≡ 20 }
{
    &CONVERSIONS
}

/// The rows of branches, switches and returns. The first one has the opcode 153.
pub fn branches() -> &'static [Row]
    ensures rows { map (λ r. row_view r) result.now ≡ take (length result.now) (drop 153 rows) }
    ensures count { length result.now ≡ 25 }
{
    &BRANCHES
}

/// The rows of fields, calls, objects and arrays, and the last ones. The first one has the opcode 178.
pub fn objects() -> &'static [Row]
    ensures rows { map (λ r. row_view r) result.now ≡ take (length result.now) (drop 178 rows) }
    ensures count { length result.now ≡ 24 }
{
    &OBJECTS
}

static CONSTANTS: [Row; 21] = [
    // 0: constants
    row!("nop", Nothing, [] => []),
    row!("aconst_null", Nothing, [] => [Null]),
    row!("iconst_m1", Nothing, [] => [Primitive]),
    row!("iconst_0", Nothing, [] => [Primitive]),
    row!("iconst_1", Nothing, [] => [Primitive]),
    row!("iconst_2", Nothing, [] => [Primitive]),
    row!("iconst_3", Nothing, [] => [Primitive]),
    row!("iconst_4", Nothing, [] => [Primitive]),
    row!("iconst_5", Nothing, [] => [Primitive]),
    row!("lconst_0", Nothing, [] => [Primitive, Primitive]),
    // 10
    row!("lconst_1", Nothing, [] => [Primitive, Primitive]),
    row!("fconst_0", Nothing, [] => [Primitive]),
    row!("fconst_1", Nothing, [] => [Primitive]),
    row!("fconst_2", Nothing, [] => [Primitive]),
    row!("dconst_0", Nothing, [] => [Primitive, Primitive]),
    row!("dconst_1", Nothing, [] => [Primitive, Primitive]),
    row!("bipush", Value1, [] => [Primitive]),
    row!("sipush", Value2, [] => [Primitive]),
    row!("ldc", Pool1(Loadable), [] => [], does LoadConstant),
    row!("ldc_w", Pool2(Loadable), [] => [], does LoadConstant),
    // 20
    row!("ldc2_w", Pool2(WideNumber), [] => [Primitive, Primitive]),
];

static LOADS: [Row; 33] = [
    // 21: loads
    row!("iload", Local1, [] => [Primitive]),
    row!("lload", Local1, [] => [Primitive, Primitive]),
    row!("fload", Local1, [] => [Primitive]),
    row!("dload", Local1, [] => [Primitive, Primitive]),
    row!("aload", Local1, [] => [Local]),
    row!("iload_0", Implied(0), [] => [Primitive]),
    row!("iload_1", Implied(1), [] => [Primitive]),
    row!("iload_2", Implied(2), [] => [Primitive]),
    row!("iload_3", Implied(3), [] => [Primitive]),
    // 30
    row!("lload_0", Implied(0), [] => [Primitive, Primitive]),
    row!("lload_1", Implied(1), [] => [Primitive, Primitive]),
    row!("lload_2", Implied(2), [] => [Primitive, Primitive]),
    row!("lload_3", Implied(3), [] => [Primitive, Primitive]),
    row!("fload_0", Implied(0), [] => [Primitive]),
    row!("fload_1", Implied(1), [] => [Primitive]),
    row!("fload_2", Implied(2), [] => [Primitive]),
    row!("fload_3", Implied(3), [] => [Primitive]),
    row!("dload_0", Implied(0), [] => [Primitive, Primitive]),
    row!("dload_1", Implied(1), [] => [Primitive, Primitive]),
    // 40
    row!("dload_2", Implied(2), [] => [Primitive, Primitive]),
    row!("dload_3", Implied(3), [] => [Primitive, Primitive]),
    row!("aload_0", Implied(0), [] => [Local]),
    row!("aload_1", Implied(1), [] => [Local]),
    row!("aload_2", Implied(2), [] => [Local]),
    row!("aload_3", Implied(3), [] => [Local]),
    row!("iaload", Nothing, [Reference, Primitive] => [Primitive], does ProbeElement, raises [NullPointer, ArrayIndex]),
    row!("laload", Nothing, [Reference, Primitive] => [Primitive, Primitive], does ProbeElement, raises [NullPointer, ArrayIndex]),
    row!("faload", Nothing, [Reference, Primitive] => [Primitive], does ProbeElement, raises [NullPointer, ArrayIndex]),
    row!("daload", Nothing, [Reference, Primitive] => [Primitive, Primitive], does ProbeElement, raises [NullPointer, ArrayIndex]),
    // 50
    row!("aaload", Nothing, [Reference, Primitive] => [Made], does LoadElement, raises [NullPointer, ArrayIndex]),
    row!("baload", Nothing, [Reference, Primitive] => [Primitive], does ProbeElement, raises [NullPointer, ArrayIndex]),
    row!("caload", Nothing, [Reference, Primitive] => [Primitive], does ProbeElement, raises [NullPointer, ArrayIndex]),
    row!("saload", Nothing, [Reference, Primitive] => [Primitive], does ProbeElement, raises [NullPointer, ArrayIndex]),
];

static STORES: [Row; 33] = [
    // 54: stores
    row!("istore", Local1, [Primitive] => [], stores [Primitive]),
    row!("lstore", Local1, [Primitive, Primitive] => [], stores [Primitive, Primitive]),
    row!("fstore", Local1, [Primitive] => [], stores [Primitive]),
    row!("dstore", Local1, [Primitive, Primitive] => [], stores [Primitive, Primitive]),
    row!("astore", Local1, [Any] => [], stores [Popped(0)]),
    row!("istore_0", Implied(0), [Primitive] => [], stores [Primitive]),
    // 60
    row!("istore_1", Implied(1), [Primitive] => [], stores [Primitive]),
    row!("istore_2", Implied(2), [Primitive] => [], stores [Primitive]),
    row!("istore_3", Implied(3), [Primitive] => [], stores [Primitive]),
    row!("lstore_0", Implied(0), [Primitive, Primitive] => [], stores [Primitive, Primitive]),
    row!("lstore_1", Implied(1), [Primitive, Primitive] => [], stores [Primitive, Primitive]),
    row!("lstore_2", Implied(2), [Primitive, Primitive] => [], stores [Primitive, Primitive]),
    row!("lstore_3", Implied(3), [Primitive, Primitive] => [], stores [Primitive, Primitive]),
    row!("fstore_0", Implied(0), [Primitive] => [], stores [Primitive]),
    row!("fstore_1", Implied(1), [Primitive] => [], stores [Primitive]),
    row!("fstore_2", Implied(2), [Primitive] => [], stores [Primitive]),
    // 70
    row!("fstore_3", Implied(3), [Primitive] => [], stores [Primitive]),
    row!("dstore_0", Implied(0), [Primitive, Primitive] => [], stores [Primitive, Primitive]),
    row!("dstore_1", Implied(1), [Primitive, Primitive] => [], stores [Primitive, Primitive]),
    row!("dstore_2", Implied(2), [Primitive, Primitive] => [], stores [Primitive, Primitive]),
    row!("dstore_3", Implied(3), [Primitive, Primitive] => [], stores [Primitive, Primitive]),
    row!("astore_0", Implied(0), [Any] => [], stores [Popped(0)]),
    row!("astore_1", Implied(1), [Any] => [], stores [Popped(0)]),
    row!("astore_2", Implied(2), [Any] => [], stores [Popped(0)]),
    row!("astore_3", Implied(3), [Any] => [], stores [Popped(0)]),
    row!("iastore", Nothing, [Reference, Primitive, Primitive] => [], does ProbeElement, raises [NullPointer, ArrayIndex]),
    // 80
    row!("lastore", Nothing, [Reference, Primitive, Primitive, Primitive] => [], does ProbeElement, raises [NullPointer, ArrayIndex]),
    row!("fastore", Nothing, [Reference, Primitive, Primitive] => [], does ProbeElement, raises [NullPointer, ArrayIndex]),
    row!("dastore", Nothing, [Reference, Primitive, Primitive, Primitive] => [], does ProbeElement, raises [NullPointer, ArrayIndex]),
    row!("aastore", Nothing, [Reference, Primitive, Reference] => [], does StoreElement, raises [NullPointer, ArrayIndex, ArrayStore]),
    row!("bastore", Nothing, [Reference, Primitive, Primitive] => [], does ProbeElement, raises [NullPointer, ArrayIndex]),
    row!("castore", Nothing, [Reference, Primitive, Primitive] => [], does ProbeElement, raises [NullPointer, ArrayIndex]),
    row!("sastore", Nothing, [Reference, Primitive, Primitive] => [], does ProbeElement, raises [NullPointer, ArrayIndex]),
];

static STACK: [Row; 9] = [
    // 87: the operand stack
    row!("pop", Nothing, [Any] => []),
    row!("pop2", Nothing, [Any, Any] => []),
    row!("dup", Nothing, [Any] => [Popped(0), Popped(0)]),
    // 90
    row!("dup_x1", Nothing, [Any, Any] => [Popped(1), Popped(0), Popped(1)]),
    row!("dup_x2", Nothing, [Any, Any, Any] => [Popped(2), Popped(0), Popped(1), Popped(2)]),
    row!("dup2", Nothing, [Any, Any] => [Popped(0), Popped(1), Popped(0), Popped(1)]),
    row!("dup2_x1", Nothing, [Any, Any, Any] => [Popped(1), Popped(2), Popped(0), Popped(1), Popped(2)]),
    row!("dup2_x2", Nothing, [Any, Any, Any, Any] => [Popped(2), Popped(3), Popped(0), Popped(1), Popped(2), Popped(3)]),
    row!("swap", Nothing, [Any, Any] => [Popped(1), Popped(0)]),
];

static ARITHMETIC: [Row; 37] = [
    // 96: arithmetic
    row!("iadd", Nothing, [Primitive, Primitive] => [Primitive]),
    row!("ladd", Nothing, [Primitive, Primitive, Primitive, Primitive] => [Primitive, Primitive]),
    row!("fadd", Nothing, [Primitive, Primitive] => [Primitive]),
    row!("dadd", Nothing, [Primitive, Primitive, Primitive, Primitive] => [Primitive, Primitive]),
    // 100
    row!("isub", Nothing, [Primitive, Primitive] => [Primitive]),
    row!("lsub", Nothing, [Primitive, Primitive, Primitive, Primitive] => [Primitive, Primitive]),
    row!("fsub", Nothing, [Primitive, Primitive] => [Primitive]),
    row!("dsub", Nothing, [Primitive, Primitive, Primitive, Primitive] => [Primitive, Primitive]),
    row!("imul", Nothing, [Primitive, Primitive] => [Primitive]),
    row!("lmul", Nothing, [Primitive, Primitive, Primitive, Primitive] => [Primitive, Primitive]),
    row!("fmul", Nothing, [Primitive, Primitive] => [Primitive]),
    row!("dmul", Nothing, [Primitive, Primitive, Primitive, Primitive] => [Primitive, Primitive]),
    row!("idiv", Nothing, [Primitive, Primitive] => [Primitive], raises [Arithmetic]),
    row!("ldiv", Nothing, [Primitive, Primitive, Primitive, Primitive] => [Primitive, Primitive], raises [Arithmetic]),
    // 110
    row!("fdiv", Nothing, [Primitive, Primitive] => [Primitive]),
    row!("ddiv", Nothing, [Primitive, Primitive, Primitive, Primitive] => [Primitive, Primitive]),
    row!("irem", Nothing, [Primitive, Primitive] => [Primitive], raises [Arithmetic]),
    row!("lrem", Nothing, [Primitive, Primitive, Primitive, Primitive] => [Primitive, Primitive], raises [Arithmetic]),
    row!("frem", Nothing, [Primitive, Primitive] => [Primitive]),
    row!("drem", Nothing, [Primitive, Primitive, Primitive, Primitive] => [Primitive, Primitive]),
    row!("ineg", Nothing, [Primitive] => [Primitive]),
    row!("lneg", Nothing, [Primitive, Primitive] => [Primitive, Primitive]),
    row!("fneg", Nothing, [Primitive] => [Primitive]),
    row!("dneg", Nothing, [Primitive, Primitive] => [Primitive, Primitive]),
    // 120
    row!("ishl", Nothing, [Primitive, Primitive] => [Primitive]),
    row!("lshl", Nothing, [Primitive, Primitive, Primitive] => [Primitive, Primitive]),
    row!("ishr", Nothing, [Primitive, Primitive] => [Primitive]),
    row!("lshr", Nothing, [Primitive, Primitive, Primitive] => [Primitive, Primitive]),
    row!("iushr", Nothing, [Primitive, Primitive] => [Primitive]),
    row!("lushr", Nothing, [Primitive, Primitive, Primitive] => [Primitive, Primitive]),
    row!("iand", Nothing, [Primitive, Primitive] => [Primitive]),
    row!("land", Nothing, [Primitive, Primitive, Primitive, Primitive] => [Primitive, Primitive]),
    row!("ior", Nothing, [Primitive, Primitive] => [Primitive]),
    row!("lor", Nothing, [Primitive, Primitive, Primitive, Primitive] => [Primitive, Primitive]),
    // 130
    row!("ixor", Nothing, [Primitive, Primitive] => [Primitive]),
    row!("lxor", Nothing, [Primitive, Primitive, Primitive, Primitive] => [Primitive, Primitive]),
    row!("iinc", LocalAndValue, [] => [], stores [Primitive]),
];

static CONVERSIONS: [Row; 20] = [
    // 133: conversions
    row!("i2l", Nothing, [Primitive] => [Primitive, Primitive]),
    row!("i2f", Nothing, [Primitive] => [Primitive]),
    row!("i2d", Nothing, [Primitive] => [Primitive, Primitive]),
    row!("l2i", Nothing, [Primitive, Primitive] => [Primitive]),
    row!("l2f", Nothing, [Primitive, Primitive] => [Primitive]),
    row!("l2d", Nothing, [Primitive, Primitive] => [Primitive, Primitive]),
    row!("f2i", Nothing, [Primitive] => [Primitive]),
    // 140
    row!("f2l", Nothing, [Primitive] => [Primitive, Primitive]),
    row!("f2d", Nothing, [Primitive] => [Primitive, Primitive]),
    row!("d2i", Nothing, [Primitive, Primitive] => [Primitive]),
    row!("d2l", Nothing, [Primitive, Primitive] => [Primitive, Primitive]),
    row!("d2f", Nothing, [Primitive, Primitive] => [Primitive]),
    row!("i2b", Nothing, [Primitive] => [Primitive]),
    row!("i2c", Nothing, [Primitive] => [Primitive]),
    row!("i2s", Nothing, [Primitive] => [Primitive]),
    // 148: comparisons
    row!("lcmp", Nothing, [Primitive, Primitive, Primitive, Primitive] => [Primitive]),
    row!("fcmpl", Nothing, [Primitive, Primitive] => [Primitive]),
    // 150
    row!("fcmpg", Nothing, [Primitive, Primitive] => [Primitive]),
    row!("dcmpl", Nothing, [Primitive, Primitive, Primitive, Primitive] => [Primitive]),
    row!("dcmpg", Nothing, [Primitive, Primitive, Primitive, Primitive] => [Primitive]),
];

static BRANCHES: [Row; 25] = [
    // 153: branches
    row!("ifeq", Offset2, [Primitive] => [], goes Branch),
    row!("ifne", Offset2, [Primitive] => [], goes Branch),
    row!("iflt", Offset2, [Primitive] => [], goes Branch),
    row!("ifge", Offset2, [Primitive] => [], goes Branch),
    row!("ifgt", Offset2, [Primitive] => [], goes Branch),
    row!("ifle", Offset2, [Primitive] => [], goes Branch),
    row!("if_icmpeq", Offset2, [Primitive, Primitive] => [], goes Branch),
    // 160
    row!("if_icmpne", Offset2, [Primitive, Primitive] => [], goes Branch),
    row!("if_icmplt", Offset2, [Primitive, Primitive] => [], goes Branch),
    row!("if_icmpge", Offset2, [Primitive, Primitive] => [], goes Branch),
    row!("if_icmpgt", Offset2, [Primitive, Primitive] => [], goes Branch),
    row!("if_icmple", Offset2, [Primitive, Primitive] => [], goes Branch),
    row!("if_acmpeq", Offset2, [Reference, Reference] => [], goes BranchIfSame),
    row!("if_acmpne", Offset2, [Reference, Reference] => [], goes BranchIfOther),
    row!("goto", Offset2, [] => [], goes Jump),
    row!("jsr", Offset2, [] => [Primitive], goes Subroutine, does Refused),
    row!("ret", Local1, [] => [], goes Subroutine, does Refused),
    // 170: switches
    row!("tableswitch", TableOfOffsets, [Primitive] => [], goes Jump),
    row!("lookupswitch", PairsWithOffsets, [Primitive] => [], goes Jump),
    // 172: returns
    row!("ireturn", Nothing, [Primitive] => [], goes Leave, does LeaveMethod),
    row!("lreturn", Nothing, [Primitive, Primitive] => [], goes Leave, does LeaveMethod),
    row!("freturn", Nothing, [Primitive] => [], goes Leave, does LeaveMethod),
    row!("dreturn", Nothing, [Primitive, Primitive] => [], goes Leave, does LeaveMethod),
    row!("areturn", Nothing, [Reference] => [], goes Leave, does LeaveMethod),
    row!("return", Nothing, [] => [], goes Leave, does LeaveMethod),
];

static OBJECTS: [Row; 24] = [
    // 178: fields
    row!("getstatic", Pool2(Field), [] => [], does GetStatic),
    row!("putstatic", Pool2(Field), [] => [], does PutStatic),
    // 180
    row!("getfield", Pool2(Field), [] => [], does GetField, raises [NullPointer]),
    row!("putfield", Pool2(Field), [] => [], does PutField, raises [NullPointer]),
    // 182: calls
    row!("invokevirtual", Pool2(ClassMethod), [] => [], does InvokeVirtual, raises [NullPointer]),
    row!("invokespecial", Pool2(AnyMethod), [] => [], does InvokeSpecial, raises [NullPointer]),
    row!("invokestatic", Pool2(AnyMethod), [] => [], does InvokeStatic),
    row!("invokeinterface", Pool2AndCount, [] => [], does InvokeInterface, raises [NullPointer]),
    row!("invokedynamic", Pool2AndZeros, [] => [], does Refused),
    // 187: objects and arrays
    row!("new", Pool2(NoArray), [] => [Made], does MakeObject),
    row!("newarray", TypeCode, [Primitive] => [Made], does MakeArray, raises [NegativeSize]),
    row!("anewarray", Pool2(AnyClass), [Primitive] => [Made], does MakeArray, raises [NegativeSize]),
    // 190
    row!("arraylength", Nothing, [Reference] => [Primitive], does ProbeArray, raises [NullPointer]),
    row!("athrow", Nothing, [Reference] => [], goes Leave, does ThrowObject, raises [NullPointer]),
    row!("checkcast", Pool2(AnyClass), [Reference] => [Popped(0)], does Cast, raises [ClassCast]),
    row!("instanceof", Pool2(AnyClass), [Reference] => [Primitive]),
    row!("monitorenter", Nothing, [Reference] => [], does ProbeObject, raises [NullPointer]),
    row!("monitorexit", Nothing, [Reference] => [], does ProbeObject, raises [NullPointer]),
    // 196: the rest
    row!("wide", Widened, [] => [], does Refused),
    row!("multianewarray", Pool2AndDimensions, [] => [Made], does MakeArray, raises [NegativeSize]),
    row!("ifnull", Offset2, [Reference] => [], goes BranchIfNull),
    row!("ifnonnull", Offset2, [Reference] => [], goes BranchIfObject),
    // 200
    row!("goto_w", Offset4, [] => [], goes Jump),
    row!("jsr_w", Offset4, [] => [Primitive], goes Subroutine, does Refused),
];
