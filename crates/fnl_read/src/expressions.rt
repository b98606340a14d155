//! Expressions and operators, where each begins.

ghost use Rattle.std.specs.Prelude.{None, Some};
ghost use Rattle.fnl_frames.specs.declared.frame.Frame.TheVariants as frames;
ghost use Rattle.fnl_read.specs.Opening as meant;
ghost use Rattle.fnl_read.specs.Stepped.{Opens, Operates};

use crate::reader::Reader;
use fnl_expr::{
    ExprKind, Form, MeasuredExpr, Pending, Stop, before_operator, binary_given, expr_of_literal,
    kind_given, literal_given, long, no_exprs, prefix_given, text_given, unknown, variable, wrong,
};
use fnl_frames::{Frame, with_expr};
use fnl_markup::Attribute;

impl Reader {
    pub(crate) fn open_expr(&mut self, attributes: &[Attribute], at: u32) -> Result<(), Stop>
        ensures { Opens meant.open_expr attributes.now at self.old self.new result }
    {
        let Some(kind) = kind_given(attributes) else {
            return Err(wrong(at));
        };
        let alloc = self.alloc;
        match kind {
            ExprKind::Literal => self.open_literal(attributes, at),
            ExprKind::Var => self.open_variable(attributes, at),
            ExprKind::List => {
                let items = no_exprs(alloc);
                self.enter(Frame::List { items, at }, None, at)
            }
            ExprKind::Unary => {
                let unary = Frame::Unary {
                    op: None,
                    operand: None,
                    at,
                };
                self.enter(unary, None, at)
            }
            ExprKind::Sequence => {
                let sequence = Frame::Sequence {
                    waiting: Vec::new(alloc),
                    operand: None,
                    at,
                };
                self.enter(sequence, None, at)
            }
        }
    }

    fn open_literal(&mut self, attributes: &[Attribute], at: u32) -> Result<(), Stop>
        ensures { Opens meant.open_literal attributes.now at self.old self.new result }
    {
        let Some(literal) = literal_given(attributes) else {
            return Err(wrong(at));
        };
        let value = expr_of_literal(self.alloc, literal, at)?;
        let round = with_expr(self.take_top(), value)?;
        self.enter_empty(round, None, at)
    }

    fn open_variable(&mut self, attributes: &[Attribute], at: u32) -> Result<(), Stop>
        ensures { Opens meant.open_variable attributes.now at self.old self.new result }
    {
        let Some(name) = text_given(self.alloc, attributes, "name", Form::Name)? else {
            return Err(wrong(at));
        };
        let place = long(&name);
        let value = variable(name.text, at);
        let round = with_expr(self.take_top(), value)?;
        self.enter_empty(round, place, at)
    }

    pub(crate) fn open_op(&mut self, attributes: &[Attribute], at: u32) -> Result<(), Stop>
        ensures { Opens meant.open_op attributes.now at self.old self.new result }
    {
        match self.take_top() {
            Frame::Unary {
                operand,
                at: there,
                ..
            } => self.open_prefix(attributes, operand, there, at),
            Frame::Sequence {
                waiting,
                operand,
                at: there,
            } => match operand {
                Some(operand) => self.open_binary(attributes, waiting, operand, there, at),
                None => Err(unknown(at)),
            },
            other => {
                self.set_top(other);
                Err(unknown(at))
            }
        }
    }

    /// The operator of a prefix operation that stands there.
    fn open_prefix(
        &mut self,
        attributes: &[Attribute],
        operand: Option<MeasuredExpr>,
        there: u32,
        at: u32,
    ) -> Result<(), Stop>
        ensures { Operates (frames.Unary None operand there) attributes.now at
            self.old self.new result }
    {
        let Some(op) = prefix_given(attributes) else {
            return Err(wrong(at));
        };
        let unary = Frame::Unary {
            op: Some(op),
            operand,
            at: there,
        };
        self.enter_empty(unary, None, at)
    }

    /// An operator of a row that stands there.
    fn open_binary(
        &mut self,
        attributes: &[Attribute],
        waiting: Vec<Pending>,
        operand: MeasuredExpr,
        there: u32,
        at: u32,
    ) -> Result<(), Stop>
        ensures { Operates (frames.Sequence waiting (Some operand) there) attributes.now at
            self.old self.new result }
    {
        let Some(op) = binary_given(attributes) else {
            return Err(wrong(at));
        };
        let waiting = before_operator(self.alloc, op, waiting, operand, there)?;
        let sequence = Frame::Sequence {
            waiting,
            operand: None,
            at: there,
        };
        self.enter_empty(sequence, None, at)
    }
}
