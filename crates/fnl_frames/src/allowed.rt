//! Which elements may stand in which.

ghost use Rattle.std.specs.Prelude.{◌≡◌};
ghost use Rattle.fnl_frames.specs.Allowed as meant;
ghost use Rattle.fnl_frames.specs.Views.{frame_of};

use crate::element::Element;
use crate::frame::Frame;

/// Whether an element may stand next in what is open.
pub fn allows(frame: &Frame, e: Element) -> bool
    ensures { result ≡ meant.allows (frame_of frame.now) e }
{
    match frame {
        Frame::Outside(net) => net.is_none() && is_xdf(e),
        Frame::Network(_) => in_a_network(e),
        Frame::Port { shape, .. } => shape.is_none() && is_type(e),
        Frame::Decl { shape, value, .. } => {
            if is_type(e) {
                shape.is_none()
            } else {
                value.is_none() && is_expr(e)
            }
        }
        Frame::Instance { class, .. } => {
            if is_class(e) {
                class.is_none()
            } else {
                in_an_instance(e)
            }
        }
        Frame::Parameter { value, .. } => value.is_none() && is_expr(e),
        Frame::Connection(_) => is_attribute(e),
        Frame::Size { value, .. } => value.is_none() && is_expr(e),
        Frame::Type { .. } => is_entry(e),
        Frame::Value { value, .. } => value.is_none() && is_expr(e),
        Frame::Shape { shape, .. } => shape.is_none() && is_type(e),
        Frame::List { .. } => is_expr(e),
        Frame::Unary { op: None, .. } => is_op(e),
        Frame::Unary { operand, .. } => operand.is_none() && is_expr(e),
        Frame::Sequence { operand: None, .. } => is_expr(e),
        Frame::Sequence { .. } => is_op(e),
        Frame::Empty => false,
        Frame::Passed => true,
    }
}

fn in_a_network(e: Element) -> bool
    ensures { result ≡ meant.in_a_network e }
{
    match e {
        Element::Port
        | Element::Decl
        | Element::Instance
        | Element::Connection
        | Element::Attribute => true,
        _ => false,
    }
}

fn in_an_instance(e: Element) -> bool
    ensures { result ≡ meant.in_an_instance e }
{
    match e {
        Element::Parameter | Element::Attribute => true,
        _ => false,
    }
}

fn is_xdf(e: Element) -> bool
    ensures { result ≡ meant.is_xdf e }
{
    match e {
        Element::Xdf => true,
        _ => false,
    }
}

fn is_type(e: Element) -> bool
    ensures { result ≡ meant.is_type e }
{
    match e {
        Element::Type => true,
        _ => false,
    }
}

fn is_expr(e: Element) -> bool
    ensures { result ≡ meant.is_expr e }
{
    match e {
        Element::Expr => true,
        _ => false,
    }
}

fn is_class(e: Element) -> bool
    ensures { result ≡ meant.is_class e }
{
    match e {
        Element::Class => true,
        _ => false,
    }
}

fn is_op(e: Element) -> bool
    ensures { result ≡ meant.is_op e }
{
    match e {
        Element::Op => true,
        _ => false,
    }
}

fn is_attribute(e: Element) -> bool
    ensures { result ≡ meant.is_attribute e }
{
    match e {
        Element::Attribute => true,
        _ => false,
    }
}

fn is_entry(e: Element) -> bool
    ensures { result ≡ meant.is_entry e }
{
    match e {
        Element::Entry => true,
        _ => false,
    }
}
