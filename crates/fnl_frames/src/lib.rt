//! Open elements of a network file: what was read of each, and what may come next.
//!
//! Elements of a network file that are open: what was read of each, which elements may come next in it, and what
//! becomes of it where one inside it ends.
//!
//! What tags bring is `fnl_read`'s; the networks that are read are given on by it too.
#![tactic(auto)]

mod allowed;
mod attaching;
mod element;
mod frame;
mod net;

pub use allowed::allows;
pub use attaching::{
    with_arg, with_class, with_connection, with_decl, with_expr, with_instance, with_net,
    with_parameter, with_port, with_size, with_type,
};
pub use element::{Element, element_named};
pub use frame::{Class, Frame};
pub use net::{NetConnection, NetDecl, NetFile, NetInstance, NetParameter, NetPort, NetSize};
