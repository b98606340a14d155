//! Elements that are open.

use crate::net::{NetConnection, NetFile, NetParameter};
use cal_ast::{Ident, PrefixOp, TypeArg, TypeExpr};
use fnl_expr::{MeasuredExpr, MeasuredExprs, Pending};

/// The class of an instance.
#[derive(Drop)]
pub struct Class {
    pub name: String,
    /// The offset of its element.
    pub at: u32,
}

/// An element that is open, and what was read of it.
#[derive(Drop)]
pub enum Frame {
    /// What stands before the network, or behind it.
    Outside(Option<NetFile>),
    Network(NetFile),
    Port {
        input: bool,
        name: String,
        shape: Option<TypeExpr>,
        at: u32,
    },
    Decl {
        param: bool,
        name: String,
        shape: Option<TypeExpr>,
        value: Option<MeasuredExpr>,
        at: u32,
    },
    Instance {
        id: String,
        class: Option<Class>,
        parameters: Vec<NetParameter>,
        at: u32,
    },
    Parameter {
        name: String,
        value: Option<MeasuredExpr>,
        at: u32,
    },
    Connection(NetConnection),
    /// An attribute `bufferSize` of a connection.
    Size {
        value: Option<MeasuredExpr>,
        at: u32,
    },
    Type {
        name: Ident,
        args: Vec<TypeArg>,
        at: u32,
    },
    /// An entry of a type that is an expression.
    Value {
        name: Ident,
        value: Option<MeasuredExpr>,
    },
    /// An entry of a type that is a type.
    Shape {
        name: Ident,
        shape: Option<TypeExpr>,
    },
    List {
        items: MeasuredExprs,
        at: u32,
    },
    Unary {
        op: Option<PrefixOp>,
        operand: Option<MeasuredExpr>,
        at: u32,
    },
    /// A `BinOpSeq`: the operands that wait, the last one at the end, and the one that no operator
    /// followed yet.
    Sequence {
        waiting: Vec<Pending>,
        operand: Option<MeasuredExpr>,
        at: u32,
    },
    /// An element that has nothing inside.
    Empty,
    /// An attribute that is passed over, or what stands in it.
    Passed,
}
