//! The elements.

ghost use Rattle.std.specs.Prelude.{◌≡◌};
ghost use Rattle.fnl_frames.specs.Allowed.{element_named};

use fnl_expr::is;

/// The elements of networks.
#[derive(Clone, Copy)]
pub enum Element {
    /// A network.
    Xdf,
    Port,
    Decl,
    Instance,
    Class,
    Parameter,
    Connection,
    Attribute,
    Type,
    /// An entry of a type.
    Entry,
    Expr,
    /// An operator.
    Op,
}

/// The element of a name.
pub fn element_named(name: &[u8]) -> Option<Element>
    ensures { result ≡ element_named name.now }
{
    if is(name, "XDF") {
        Some(Element::Xdf)
    } else if is(name, "Port") {
        Some(Element::Port)
    } else if is(name, "Decl") {
        Some(Element::Decl)
    } else if is(name, "Instance") {
        Some(Element::Instance)
    } else if is(name, "Class") {
        Some(Element::Class)
    } else if is(name, "Parameter") {
        Some(Element::Parameter)
    } else if is(name, "Connection") {
        Some(Element::Connection)
    } else if is(name, "Attribute") {
        Some(Element::Attribute)
    } else if is(name, "Type") {
        Some(Element::Type)
    } else if is(name, "Entry") {
        Some(Element::Entry)
    } else if is(name, "Expr") {
        Some(Element::Expr)
    } else if is(name, "Op") {
        Some(Element::Op)
    } else {
        None
    }
}
