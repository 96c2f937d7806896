//! The exceptions and errors of the base stubs.

ghost use Rattle.std.specs.Prelude.{◌≡◌, map};
ghost use Rattle.stub_file.specs.BaseExceptions.{base_exceptions};
ghost use Rattle.stub_file.specs.BaseRead.{base_class};

use crate::base_row::{BaseClass, BaseMethod, BaseResult, CLASS, METHOD};
use jvm_model::StubArgument;

/// The constructor without parameters.
const PLAIN: BaseMethod = BaseMethod {
    name: "<init>",
    descriptor: "()V",
    returns: &[BaseResult::Void],
    ..METHOD
};

/// The constructor that keeps a message.
const MESSAGE: BaseMethod = BaseMethod {
    name: "<init>",
    descriptor: "(Ljava/lang/String;)V",
    returns: &[BaseResult::Void],
    keeps: &[StubArgument::Argument(1)],
    ..METHOD
};

/// The constructor that keeps a message and a cause.
const CAUSE: BaseMethod = BaseMethod {
    name: "<init>",
    descriptor: "(Ljava/lang/String;Ljava/lang/Throwable;)V",
    returns: &[BaseResult::Void],
    keeps: &[StubArgument::Argument(1), StubArgument::Argument(2)],
    ..METHOD
};

/// The rows of the exceptions.
pub(super) fn rows() -> &'static [BaseClass]
    ensures { map base_class result.now ≡ base_exceptions }
{
    &EXCEPTIONS
}

/// The exceptions and errors.
const EXCEPTIONS: [BaseClass; 26] = [
    BaseClass {
        name: "java/lang/Exception",
        super_class: "java/lang/Throwable",
        methods: &[PLAIN, MESSAGE, CAUSE],
        ..CLASS
    },
    BaseClass {
        name: "java/lang/Error",
        super_class: "java/lang/Throwable",
        methods: &[PLAIN, MESSAGE, CAUSE],
        ..CLASS
    },
    BaseClass {
        name: "java/lang/RuntimeException",
        super_class: "java/lang/Exception",
        methods: &[PLAIN, MESSAGE, CAUSE],
        ..CLASS
    },
    BaseClass {
        name: "java/lang/InterruptedException",
        super_class: "java/lang/Exception",
        methods: &[PLAIN, MESSAGE],
        ..CLASS
    },
    BaseClass {
        name: "java/lang/CloneNotSupportedException",
        super_class: "java/lang/Exception",
        methods: &[PLAIN, MESSAGE],
        ..CLASS
    },
    BaseClass {
        name: "java/io/IOException",
        super_class: "java/lang/Exception",
        methods: &[PLAIN, MESSAGE, CAUSE],
        ..CLASS
    },
    BaseClass {
        name: "java/io/FileNotFoundException",
        super_class: "java/io/IOException",
        methods: &[PLAIN, MESSAGE],
        ..CLASS
    },
    BaseClass {
        name: "java/lang/NullPointerException",
        super_class: "java/lang/RuntimeException",
        methods: &[PLAIN, MESSAGE],
        ..CLASS
    },
    BaseClass {
        name: "java/lang/ArithmeticException",
        super_class: "java/lang/RuntimeException",
        methods: &[PLAIN, MESSAGE],
        ..CLASS
    },
    BaseClass {
        name: "java/lang/ClassCastException",
        super_class: "java/lang/RuntimeException",
        methods: &[PLAIN, MESSAGE],
        ..CLASS
    },
    BaseClass {
        name: "java/lang/ArrayStoreException",
        super_class: "java/lang/RuntimeException",
        methods: &[PLAIN, MESSAGE],
        ..CLASS
    },
    BaseClass {
        name: "java/lang/NegativeArraySizeException",
        super_class: "java/lang/RuntimeException",
        methods: &[PLAIN, MESSAGE],
        ..CLASS
    },
    BaseClass {
        name: "java/lang/IndexOutOfBoundsException",
        super_class: "java/lang/RuntimeException",
        methods: &[PLAIN, MESSAGE],
        ..CLASS
    },
    BaseClass {
        name: "java/lang/IllegalArgumentException",
        super_class: "java/lang/RuntimeException",
        methods: &[PLAIN, MESSAGE, CAUSE],
        ..CLASS
    },
    BaseClass {
        name: "java/lang/IllegalStateException",
        super_class: "java/lang/RuntimeException",
        methods: &[PLAIN, MESSAGE, CAUSE],
        ..CLASS
    },
    BaseClass {
        name: "java/lang/UnsupportedOperationException",
        super_class: "java/lang/RuntimeException",
        methods: &[PLAIN, MESSAGE],
        ..CLASS
    },
    BaseClass {
        name: "java/lang/SecurityException",
        super_class: "java/lang/RuntimeException",
        methods: &[PLAIN, MESSAGE],
        ..CLASS
    },
    BaseClass {
        name: "java/util/NoSuchElementException",
        super_class: "java/lang/RuntimeException",
        methods: &[PLAIN, MESSAGE],
        ..CLASS
    },
    BaseClass {
        name: "java/util/ConcurrentModificationException",
        super_class: "java/lang/RuntimeException",
        methods: &[PLAIN, MESSAGE],
        ..CLASS
    },
    BaseClass {
        name: "java/lang/ArrayIndexOutOfBoundsException",
        super_class: "java/lang/IndexOutOfBoundsException",
        methods: &[PLAIN, MESSAGE],
        ..CLASS
    },
    BaseClass {
        name: "java/lang/StringIndexOutOfBoundsException",
        super_class: "java/lang/IndexOutOfBoundsException",
        methods: &[PLAIN, MESSAGE],
        ..CLASS
    },
    BaseClass {
        name: "java/lang/NumberFormatException",
        super_class: "java/lang/IllegalArgumentException",
        methods: &[PLAIN, MESSAGE],
        ..CLASS
    },
    BaseClass {
        name: "java/lang/AssertionError",
        super_class: "java/lang/Error",
        methods: &[PLAIN],
        ..CLASS
    },
    BaseClass {
        name: "java/lang/LinkageError",
        super_class: "java/lang/Error",
        methods: &[PLAIN, MESSAGE],
        ..CLASS
    },
    BaseClass {
        name: "java/lang/ExceptionInInitializerError",
        super_class: "java/lang/LinkageError",
        methods: &[PLAIN, MESSAGE],
        ..CLASS
    },
    BaseClass {
        name: "java/lang/NoClassDefFoundError",
        super_class: "java/lang/LinkageError",
        methods: &[PLAIN, MESSAGE],
        ..CLASS
    },
];
