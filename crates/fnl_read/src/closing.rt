//! Where elements end.

ghost use Rattle.std.specs.Prelude.{◌≡◌, option_map};
ghost use Rattle.cal_ast.specs.View.{expr_tree};
ghost use Rattle.fnl_read.specs.Closing as meant;
ghost use Rattle.fnl_frames.specs.Attaching.{with_expr};
ghost use Rattle.fnl_expr.specs.Stack.{stack};
ghost use Rattle.fnl_read.specs.Stepped.{Ends, Leaves, Stepped};
ghost use Rattle.fnl_frames.specs.Views.{frame_of};
ghost use Rattle.fnl_read.specs.Views.{state_of};
ghost use Rattle.fnl_expr.specs.Views.{tall_tree};
ghost use Rattle.fnl_frames.specs.declared.frame.Frame.TheVariants as frames;

use crate::reader::Reader;
use cal_ast::{Expr, Ident, PrefixOp, TypeArg, TypeExpr};
use fnl_expr::{MeasuredExpr, MeasuredExprs, Pending, Stop, grouped, list, prefix, stuck};
use fnl_frames::{
    Class, Frame, NetConnection, NetDecl, NetFile, NetInstance, NetParameter, NetPort, NetSize,
    with_arg, with_connection, with_decl, with_expr, with_instance, with_net, with_parameter,
    with_port, with_size, with_type,
};

impl Reader {
    /// The innermost element ends, by a tag with its `/` at this offset.
    pub(crate) fn close(&mut self, at: u32) -> Result<(), Stop>
        ensures { Stepped (meant.closed at (state_of self.old)) self.new result }
    {
        match self.take_top() {
            Frame::Outside(_) => Err(stuck(at)),
            Frame::Network(net) => self.end_network(net, at),
            Frame::Port {
                input,
                name,
                shape,
                at: there,
            } => self.end_port(input, name, shape, there, at),
            Frame::Decl {
                param,
                name,
                shape,
                value,
                at: there,
            } => self.end_decl(param, name, shape, value, there, at),
            Frame::Instance {
                id,
                class,
                parameters,
                at: there,
            } => self.end_instance(id, class, parameters, there, at),
            Frame::Parameter {
                name,
                value,
                at: there,
            } => self.end_parameter(name, value, there, at),
            Frame::Connection(connection) => self.end_connection(connection, at),
            Frame::Size { value, at: there } => self.end_size(value, there, at),
            Frame::Type {
                name,
                args,
                at: there,
            } => self.end_type(name, args, there, at),
            Frame::Value { name, value } => self.end_value(name, value, at),
            Frame::Shape { name, shape } => self.end_shape(name, shape, at),
            Frame::List { items, at: there } => self.end_list(items, there, at),
            Frame::Unary {
                op,
                operand,
                at: there,
            } => self.end_unary(op, operand, there, at),
            Frame::Sequence {
                waiting,
                operand,
                at: there,
            } => self.end_sequence(waiting, operand, there, at),
            Frame::Empty => self.end_empty(at),
            Frame::Passed => self.end_empty(at),
        }
    }

    /// The element round the innermost one, which is taken away.
    #[tactic(auto, using(fnl_expr::proofs::Stacks::stack_push))]
    fn leave(&mut self, at: u32) -> Result<Frame, Stop>
        ensures { Leaves (stack frame_of self.old.below.items)
            (stack frame_of self.new.below.items) at result }
    {
        match self.below.pop() {
            Some(round) => Ok(round),
            None => Err(stuck(at)),
        }
    }

    fn end_empty(&mut self, at: u32) -> Result<(), Stop>
        ensures { Stepped (meant.leave meant.unchanged at (state_of self.old)) self.new result }
    {
        let round = self.leave(at)?;
        self.set_top(round);
        Ok(())
    }

    fn end_network(&mut self, net: NetFile, at: u32) -> Result<(), Stop>
        ensures { Ends (frames.Network net) at self.old self.new result }
    {
        let round = self.leave(at)?;
        self.set_top(with_net(round, net));
        Ok(())
    }

    fn end_port(
        &mut self,
        input: bool,
        name: String,
        shape: Option<TypeExpr>,
        there: u32,
        at: u32,
    ) -> Result<(), Stop>
        ensures { Ends (frames.Port input name shape there) at self.old self.new result }
    {
        let Some(shape) = shape else {
            return Err(stuck(at));
        };
        let port = NetPort {
            input,
            shape,
            name,
            at: there,
        };
        let round = self.leave(at)?;
        self.set_top(with_port(round, port)?);
        Ok(())
    }

    fn end_decl(
        &mut self,
        param: bool,
        name: String,
        shape: Option<TypeExpr>,
        value: Option<MeasuredExpr>,
        there: u32,
        at: u32,
    ) -> Result<(), Stop>
        ensures { Ends (frames.Decl param name shape value there) at self.old self.new result }
    {
        let Some(shape) = shape else {
            return Err(stuck(at));
        };
        if !param && value.is_none() {
            return Err(stuck(at));
        }
        let decl = NetDecl {
            param,
            shape,
            name,
            value: expr_of(value),
            at: there,
        };
        let round = self.leave(at)?;
        self.set_top(with_decl(round, decl)?);
        Ok(())
    }

    fn end_instance(
        &mut self,
        id: String,
        class: Option<Class>,
        parameters: Vec<NetParameter>,
        there: u32,
        at: u32,
    ) -> Result<(), Stop>
        ensures { Ends (frames.Instance id class parameters there) at self.old self.new result }
    {
        let Some(class) = class else {
            return Err(stuck(at));
        };
        let instance = NetInstance {
            id,
            class: class.name,
            class_at: class.at,
            parameters,
            at: there,
        };
        let round = self.leave(at)?;
        self.set_top(with_instance(round, instance)?);
        Ok(())
    }

    fn end_parameter(
        &mut self,
        name: String,
        value: Option<MeasuredExpr>,
        there: u32,
        at: u32,
    ) -> Result<(), Stop>
        ensures { Ends (frames.Parameter name value there) at self.old self.new result }
    {
        let Some(value) = value else {
            return Err(stuck(at));
        };
        let parameter = NetParameter {
            name,
            value: value.expr,
            at: there,
        };
        let round = self.leave(at)?;
        self.set_top(with_parameter(round, parameter)?);
        Ok(())
    }

    fn end_connection(&mut self, connection: NetConnection, at: u32) -> Result<(), Stop>
        ensures { Ends (frames.Connection connection) at self.old self.new result }
    {
        let round = self.leave(at)?;
        self.set_top(with_connection(round, connection)?);
        Ok(())
    }

    fn end_size(&mut self, value: Option<MeasuredExpr>, there: u32, at: u32) -> Result<(), Stop>
        ensures { Ends (frames.Size value there) at self.old self.new result }
    {
        let Some(value) = value else {
            return Err(stuck(at));
        };
        let size = NetSize {
            value: value.expr,
            at: there,
        };
        let round = self.leave(at)?;
        self.set_top(with_size(round, size)?);
        Ok(())
    }

    fn end_type(&mut self, name: Ident, args: Vec<TypeArg>, there: u32, at: u32) -> Result<(), Stop>
        ensures { Ends (frames.Type name args there) at self.old self.new result }
    {
        let shape = TypeExpr {
            name,
            args,
            at: there,
        };
        let round = self.leave(at)?;
        self.set_top(with_type(round, shape));
        Ok(())
    }

    fn end_value(&mut self, name: Ident, value: Option<MeasuredExpr>, at: u32) -> Result<(), Stop>
        ensures { Ends (frames.Value name value) at self.old self.new result }
    {
        let Some(value) = value else {
            return Err(stuck(at));
        };
        let value = value.expr;
        let round = self.leave(at)?;
        self.set_top(with_arg(round, TypeArg::Value { name, value })?);
        Ok(())
    }

    fn end_shape(&mut self, name: Ident, shape: Option<TypeExpr>, at: u32) -> Result<(), Stop>
        ensures { Ends (frames.Shape name shape) at self.old self.new result }
    {
        let Some(shape) = shape else {
            return Err(stuck(at));
        };
        let round = self.leave(at)?;
        self.set_top(with_arg(round, TypeArg::Shape { name, shape })?);
        Ok(())
    }

    /// An expression ends.
    fn end_expr(&mut self, value: MeasuredExpr, at: u32) -> Result<(), Stop>
        ensures { Stepped (meant.leave (with_expr (tall_tree value)) at (state_of self.old))
            self.new result }
    {
        let round = self.leave(at)?;
        self.set_top(with_expr(round, value)?);
        Ok(())
    }

    fn end_list(&mut self, items: MeasuredExprs, there: u32, at: u32) -> Result<(), Stop>
        ensures { Ends (frames.List items there) at self.old self.new result }
    {
        if items.exprs.is_empty() {
            return Err(stuck(at));
        }
        let value = list(items, there)?;
        self.end_expr(value, at)
    }

    fn end_unary(
        &mut self,
        op: Option<PrefixOp>,
        operand: Option<MeasuredExpr>,
        there: u32,
        at: u32,
    ) -> Result<(), Stop>
        ensures { Ends (frames.Unary op operand there) at self.old self.new result }
    {
        let Some(op) = op else {
            return Err(stuck(at));
        };
        let Some(operand) = operand else {
            return Err(stuck(at));
        };
        let value = prefix(self.alloc, op, operand, there)?;
        self.end_expr(value, at)
    }

    fn end_sequence(
        &mut self,
        waiting: Vec<Pending>,
        operand: Option<MeasuredExpr>,
        there: u32,
        at: u32,
    ) -> Result<(), Stop>
        ensures { Ends (frames.Sequence waiting operand there) at self.old self.new result }
    {
        let Some(operand) = operand else {
            return Err(stuck(at));
        };
        if waiting.is_empty() {
            return Err(stuck(at));
        }
        let value = grouped(self.alloc, waiting, operand, there)?;
        self.end_expr(value, at)
    }
}

/// An expression without its height.
fn expr_of(value: Option<MeasuredExpr>) -> Option<Expr>
    ensures { option_map expr_tree result ≡ option_map tall_tree value }
{
    match value {
        None => None,
        Some(value) => Some(value.expr),
    }
}
