//! An actor that was checked, with its parameters bound.

use crate::kind::Shape;
use crate::value::Value;
use cal_ast::{Expr, Stmt};
use rvc_base::Scalar;

/// An actor whose names, kinds and sizes were checked, with the values of its parameters and constants.
///
/// A name that a file other than the actor's own declares is the class of its unit, a dot and the name. Each size in
/// a type and each bound of a comprehension is written with numbers and `-` alone.
#[derive(Drop)]
pub struct Bound {
    /// Its dotted name.
    pub class: String,
    pub ins: Vec<Port>,
    pub outs: Vec<Port>,
    /// The parameters, the constants of units and the state variables.
    pub vars: Vec<BoundVar>,
    pub funs: Vec<BoundFun>,
    pub procs: Vec<BoundProc>,
    /// In text order, `initialize` included.
    pub actions: Vec<BoundAction>,
    /// The names of the schedule's states in order of first appearance, the initial one first; none if there is no
    /// schedule.
    pub states: Vec<String>,
    pub moves: Vec<BoundMove>,
    /// Which action a declared priority puts above which.
    pub pairs: Vec<(u16, u16)>,
}

/// A port of an actor.
#[derive(Drop)]
pub struct Port {
    pub name: String,
    pub kind: Scalar,
}

/// A parameter, a constant of a unit or a state variable, with the value that it begins with.
#[derive(Drop)]
pub struct BoundVar {
    pub name: String,
    pub shape: Shape,
    pub value: Value,
    /// Whether it may be assigned.
    pub changes: bool,
}

/// A formal or a local of a function, a procedure or an action.
#[derive(Drop)]
pub struct BoundLocal {
    pub name: String,
    pub shape: Shape,
    /// If it is absent, the local begins with 0, false or a list of these.
    pub start: Option<Expr>,
    /// Whether it may be assigned.
    pub changes: bool,
}

/// A function.
#[derive(Drop)]
pub struct BoundFun {
    pub name: String,
    pub formals: Vec<BoundLocal>,
    pub locals: Vec<BoundLocal>,
    pub result: Scalar,
    pub body: Expr,
}

/// A procedure.
#[derive(Drop)]
pub struct BoundProc {
    pub name: String,
    pub formals: Vec<BoundLocal>,
    pub locals: Vec<BoundLocal>,
    pub body: Vec<Stmt>,
}

/// What an action takes from one input port.
#[derive(Drop)]
pub struct BoundPattern {
    /// The number of the port among the inputs.
    pub port: u32,
    pub names: Vec<String>,
    /// The length of the lists that the names stand for; if it is absent, they stand for single tokens.
    pub repeat: Option<u32>,
}

/// What an action sends to one output port.
#[derive(Drop)]
pub struct BoundOutput {
    /// The number of the port among the outputs.
    pub port: u32,
    pub values: Vec<Expr>,
    /// The length of the lists that are sent interleaved; if it is absent, single values are sent.
    pub repeat: Option<u32>,
}

/// An action, or an `initialize`.
#[derive(Drop)]
pub struct BoundAction {
    /// The parts of its tag; none if it is untagged.
    pub tag: Vec<String>,
    pub patterns: Vec<BoundPattern>,
    pub outputs: Vec<BoundOutput>,
    pub guards: Vec<Expr>,
    pub locals: Vec<BoundLocal>,
    pub body: Vec<Stmt>,
    pub initialize: bool,
}

/// The schedule leads from a state by an action to a state.
#[derive(Drop)]
pub struct BoundMove {
    pub from: u16,
    pub action: u16,
    pub to: u16,
}
