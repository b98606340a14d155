//! What actors and units declare, but for their actions.

use crate::writer::{Shown, Writer, show_next};
use cal_ast::{Function, Member, Param, PortDecl, Procedure};

impl Shown for Member {
    fn show(&self, out: &mut Writer) {
        match self {
            Member::Var(var) => var.show(out),
            Member::Function(function) => function.show(out),
            Member::Procedure(procedure) => procedure.show(out),
            Member::Action(action) => action.show(out),
            Member::Schedule(schedule) => schedule.show(out),
            Member::Priority(priority) => priority.show(out),
        }
    }
}

impl Shown for Param {
    fn show(&self, out: &mut Writer) {
        out.put("(");
        self.shape.show(out);
        show_next(&self.name, out);
        show_next(&self.start, out);
        out.put(")");
        out.put_at(self.at);
    }
}

impl Shown for PortDecl {
    fn show(&self, out: &mut Writer) {
        out.put("(");
        self.shape.show(out);
        show_next(&self.name, out);
        out.put(")");
        out.put_at(self.at);
    }
}

impl Shown for Function {
    fn show(&self, out: &mut Writer) {
        out.put("(function");
        show_next(&self.name, out);
        show_next(&self.formals, out);
        show_next(&self.result, out);
        show_next(&self.vars, out);
        show_next(&self.body, out);
        out.put(")");
        out.put_at(self.at);
    }
}

impl Shown for Procedure {
    fn show(&self, out: &mut Writer) {
        out.put("(procedure");
        show_next(&self.name, out);
        show_next(&self.formals, out);
        show_next(&self.vars, out);
        show_next(&self.body, out);
        out.put(")");
        out.put_at(self.at);
    }
}
