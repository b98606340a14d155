//! What becomes of an element where one inside it ends.

ghost use Rattle.std.specs.Prelude.{◌≡◌};
ghost use Rattle.cal_ast.specs.View.{type_arg_tree, type_tree};
ghost use Rattle.fnl_frames.specs.Attaching as meant;
ghost use Rattle.fnl_frames.specs.Answers.{Becomes};
ghost use Rattle.fnl_frames.specs.Views.{class_of, connection_of, decl_of, frame_of, instance_of, net_of, parameter_of, port_of, size_of};
ghost use Rattle.fnl_expr.specs.Views.{tall_tree};
ghost use Rattle.fnl_frames.specs.declared.frame.Frame.TheVariants as frames;

use crate::frame::{Class, Frame};
use crate::net::{NetConnection, NetDecl, NetFile, NetInstance, NetParameter, NetPort, NetSize};
use cal_ast::{TypeArg, TypeExpr};
use fnl_expr::{MeasuredExpr, MeasuredExprs, Stop, with_item};

/// An instance with its class.
pub fn with_class(round: Frame, class: Class) -> Frame
    ensures { frame_of result ≡ meant.with_class (class_of class) (frame_of round) }
{
    match round {
        Frame::Instance {
            id,
            parameters,
            at,
            ..
        } => Frame::Instance {
            id,
            class: Some(class),
            parameters,
            at,
        },
        other => other,
    }
}

/// An element with an expression that ends in it.
///
/// # Errors
///
/// An allocation was refused.
pub fn with_expr(round: Frame, value: MeasuredExpr) -> Result<Frame, Stop>
    ensures { Becomes (meant.with_expr (tall_tree value) (frame_of round)) result }
{
    match round {
        Frame::Decl {
            param,
            name,
            shape,
            at,
            ..
        } => Ok(Frame::Decl {
            param,
            name,
            shape,
            value: Some(value),
            at,
        }),
        Frame::Parameter { name, at, .. } => Ok(Frame::Parameter {
            name,
            value: Some(value),
            at,
        }),
        Frame::Size { at, .. } => Ok(Frame::Size {
            value: Some(value),
            at,
        }),
        Frame::Value { name, .. } => Ok(Frame::Value {
            name,
            value: Some(value),
        }),
        Frame::List { items, at } => with_item_in(items, value, at),
        Frame::Unary { op, at, .. } => Ok(Frame::Unary {
            op,
            operand: Some(value),
            at,
        }),
        Frame::Sequence { waiting, at, .. } => Ok(Frame::Sequence {
            waiting,
            operand: Some(value),
            at,
        }),
        other => Ok(other),
    }
}

/// A list at an offset with one item more.
fn with_item_in(items: MeasuredExprs, value: MeasuredExpr, at: u32) -> Result<Frame, Stop>
    ensures { Becomes (meant.with_expr (tall_tree value) (frame_of (frames.List items at))) result }
{
    let items = with_item(items, value)?;
    Ok(Frame::List { items, at })
}

/// An element with a type that ends in it.
pub fn with_type(round: Frame, shape: TypeExpr) -> Frame
    ensures { frame_of result ≡ meant.with_type (type_tree shape) (frame_of round) }
{
    match round {
        Frame::Port {
            input,
            name,
            at,
            ..
        } => Frame::Port {
            input,
            name,
            shape: Some(shape),
            at,
        },
        Frame::Decl {
            param,
            name,
            value,
            at,
            ..
        } => Frame::Decl {
            param,
            name,
            shape: Some(shape),
            value,
            at,
        },
        Frame::Shape { name, .. } => Frame::Shape {
            name,
            shape: Some(shape),
        },
        other => other,
    }
}

/// A type with one argument more.
///
/// # Errors
///
/// An allocation was refused.
pub fn with_arg(round: Frame, arg: TypeArg) -> Result<Frame, Stop>
    ensures { Becomes (meant.with_arg (type_arg_tree arg) (frame_of round)) result }
{
    match round {
        Frame::Type { name, args, at } => {
            let mut args = args;
            args.push(arg)?;
            Ok(Frame::Type { name, args, at })
        }
        other => Ok(other),
    }
}

/// What stands outside, with the network.
pub fn with_net(round: Frame, net: NetFile) -> Frame
    ensures { frame_of result ≡ meant.with_net (net_of net) (frame_of round) }
{
    match round {
        Frame::Outside(_) => Frame::Outside(Some(net)),
        other => other,
    }
}

/// A network with one port more.
///
/// # Errors
///
/// An allocation was refused.
pub fn with_port(round: Frame, port: NetPort) -> Result<Frame, Stop>
    ensures { Becomes (meant.with_port (port_of port) (frame_of round)) result }
{
    match round {
        Frame::Network(net) => {
            let mut net = net;
            net.ports.push(port)?;
            Ok(Frame::Network(net))
        }
        other => Ok(other),
    }
}

/// A network with one declaration more.
///
/// # Errors
///
/// An allocation was refused.
pub fn with_decl(round: Frame, decl: NetDecl) -> Result<Frame, Stop>
    ensures { Becomes (meant.with_decl (decl_of decl) (frame_of round)) result }
{
    match round {
        Frame::Network(net) => {
            let mut net = net;
            net.decls.push(decl)?;
            Ok(Frame::Network(net))
        }
        other => Ok(other),
    }
}

/// A network with one instance more.
///
/// # Errors
///
/// An allocation was refused.
pub fn with_instance(round: Frame, instance: NetInstance) -> Result<Frame, Stop>
    ensures { Becomes (meant.with_instance (instance_of instance) (frame_of round)) result }
{
    match round {
        Frame::Network(net) => {
            let mut net = net;
            net.instances.push(instance)?;
            Ok(Frame::Network(net))
        }
        other => Ok(other),
    }
}

/// A network with one connection more.
///
/// # Errors
///
/// An allocation was refused.
pub fn with_connection(round: Frame, connection: NetConnection) -> Result<Frame, Stop>
    ensures { Becomes (meant.with_connection (connection_of connection) (frame_of round)) result }
{
    match round {
        Frame::Network(net) => {
            let mut net = net;
            net.connections.push(connection)?;
            Ok(Frame::Network(net))
        }
        other => Ok(other),
    }
}

/// An instance with one parameter more.
///
/// # Errors
///
/// An allocation was refused.
pub fn with_parameter(round: Frame, parameter: NetParameter) -> Result<Frame, Stop>
    ensures { Becomes (meant.with_parameter (parameter_of parameter) (frame_of round)) result }
{
    match round {
        Frame::Instance {
            id,
            class,
            parameters,
            at,
        } => {
            let mut parameters = parameters;
            parameters.push(parameter)?;
            Ok(Frame::Instance {
                id,
                class,
                parameters,
                at,
            })
        }
        other => Ok(other),
    }
}

/// A connection with one size more.
///
/// # Errors
///
/// An allocation was refused.
pub fn with_size(round: Frame, size: NetSize) -> Result<Frame, Stop>
    ensures { Becomes (meant.with_size (size_of size) (frame_of round)) result }
{
    match round {
        Frame::Connection(connection) => {
            let mut connection = connection;
            connection.sizes.push(size)?;
            Ok(Frame::Connection(connection))
        }
        other => Ok(other),
    }
}
