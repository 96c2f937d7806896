//! Nodes as text, one line each.

use crate::nodes::operations::write_operation;
use cases_files::Names;
use jvm_model::ClassNo;
use op_model::{Node, NodeHandler};
use std::alloc::{AllocError, Global};

/// A node: its offset and operation, where it goes on, the handlers that cover it, the class whose initialisation it may start, and
/// the classes of which it may throw a new object.
pub fn node_text(alloc: Global, names: &Names, node: &Node) -> Result<String, AllocError> {
    let mut text = String::new(alloc);
    let offset = node.offset;
    write!(text, "{offset}: ")?;
    write_operation(&mut text, names, &node.op)?;
    write_successors(&mut text, node.successors.as_slice())?;
    write_handlers(&mut text, names, node.handlers.as_slice())?;
    if let Some(class) = node.trigger {
        let class = names.class(class);
        write!(text, " init {class}")?;
    }
    write_thrown(&mut text, names, node.throws.as_slice())?;
    Ok(text)
}

/// The offsets at which a node goes on.
fn write_successors(text: &mut String, successors: &[u32]) -> Result<(), AllocError> {
    if !successors.is_empty() {
        text.push_str(" >")?;
    }
    for successor in successors {
        write!(text, " {successor}")?;
    }
    Ok(())
}

/// The handlers that cover a node.
fn write_handlers(
    text: &mut String,
    names: &Names,
    handlers: &[NodeHandler],
) -> Result<(), AllocError> {
    if !handlers.is_empty() {
        text.push_str(" !")?;
    }
    for handler in handlers {
        let target = handler.target;
        let class = caught(names, handler.catch);
        write!(text, " {target}/{class}")?;
    }
    Ok(())
}

/// The class that a handler takes; `*` for each.
fn caught(names: &Names, catch: Option<ClassNo>) -> &str {
    match catch {
        Some(class) => names.class(class),
        None => "*",
    }
}

/// The classes of which a node may throw a new object.
fn write_thrown(text: &mut String, names: &Names, thrown: &[ClassNo]) -> Result<(), AllocError> {
    if !thrown.is_empty() {
        text.push_str(" throws")?;
    }
    for class in thrown {
        let class = names.class(*class);
        write!(text, " {class}")?;
    }
    Ok(())
}
