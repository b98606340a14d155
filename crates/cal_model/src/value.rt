//! Values.

use rvc_base::Num;

/// A number, a truth value, or a list of values of one kind.
#[derive(Debug, Drop)]
#[cycle(value)]
pub enum Value {
    Num(Num),
    Bool(bool),
    List(Values),
}

/// A list of values.
#[derive(Debug, Drop)]
#[cycle(value)]
pub struct Values {
    pub items: Vec<Value>,
}
