//! Networks as they are read.

use cal_ast::{Expr, TypeExpr};

/// A network.
#[derive(Drop)]
pub struct NetFile {
    pub name: String,
    /// Its ports, declarations, instances and connections, each in the order of the text.
    pub ports: Vec<NetPort>,
    pub decls: Vec<NetDecl>,
    pub instances: Vec<NetInstance>,
    pub connections: Vec<NetConnection>,
    /// The offset of the first byte of its element; so it is below.
    pub at: u32,
}

/// A port of the network.
#[derive(Drop)]
pub struct NetPort {
    /// Whether tokens come in by it.
    pub input: bool,
    pub shape: TypeExpr,
    pub name: String,
    pub at: u32,
}

/// A parameter of the network, or a variable.
#[derive(Drop)]
pub struct NetDecl {
    pub param: bool,
    pub shape: TypeExpr,
    pub name: String,
    /// A parameter's default, if it has one; the value of a variable, which always has one.
    pub value: Option<Expr>,
    pub at: u32,
}

/// An instance of an actor or of a network.
#[derive(Drop)]
pub struct NetInstance {
    pub id: String,
    /// Names with a dot between each two.
    pub class: String,
    pub class_at: u32,
    pub parameters: Vec<NetParameter>,
    pub at: u32,
}

/// The value of a parameter of an instance.
#[derive(Drop)]
pub struct NetParameter {
    pub name: String,
    pub value: Expr,
    pub at: u32,
}

/// A connection between two ports. Where `src` or `dst` is empty, the port is the network's own.
#[derive(Drop)]
pub struct NetConnection {
    pub src: String,
    pub src_port: String,
    pub dst: String,
    pub dst_port: String,
    /// One for each `bufferSize`.
    pub sizes: Vec<NetSize>,
    pub at: u32,
}

/// A capacity that is asked for.
#[derive(Drop)]
pub struct NetSize {
    pub value: Expr,
    pub at: u32,
}
