//! Statements, and the variables before them.

use crate::writer::{Shown, Writer, show_next};
use cal_ast::{Expr, Stmt, StmtForm, VarDecl};

impl Shown for VarDecl {
    fn show(&self, out: &mut Writer) {
        out.put("(var ");
        self.shape.show(out);
        show_next(&self.name, out);
        out.put(if self.changes { " :=" } else { " =" });
        if let Some(start) = &self.start {
            show_next(start, out);
        }
        out.put(")");
        out.put_at(self.at);
    }
}

impl Shown for Stmt {
    fn show(&self, out: &mut Writer) {
        show_stmt(self, out)
    }
}

#[cycle(show_stmt)]
fn show_stmt(stmt: &Stmt, out: &mut Writer) {
    out.put("(");
    show_form(&stmt.form, out);
    out.put(")");
    out.put_at(stmt.at);
}

#[cycle(show_stmt)]
fn show_form(form: &StmtForm, out: &mut Writer) {
    match form {
        StmtForm::Assign {
            name,
            places,
            value,
        } => {
            out.put(":=");
            show_next(name, out);
            show_next(places, out);
            show_next(value, out);
        }
        StmtForm::Call { name, args } => {
            out.put("call");
            show_next(name, out);
            show_each(args, out);
        }
        StmtForm::If { test, yes, no } => {
            out.put("if");
            show_next(test, out);
            show_stmts(yes, out);
            if let Some(no) = no {
                show_stmts(no, out);
            }
        }
        StmtForm::While { test, body } => {
            out.put("while");
            show_next(test, out);
            show_stmts(body, out);
        }
        StmtForm::Foreach {
            shape,
            name,
            from,
            to,
            body,
        } => {
            out.put("foreach");
            show_next(shape, out);
            show_next(name, out);
            show_next(from, out);
            show_next(to, out);
            show_stmts(body, out);
        }
        StmtForm::Block { vars, body } => {
            out.put("begin");
            show_next(vars, out);
            show_stmts(body, out);
        }
    }
}

/// The arguments of a call, each behind a blank.
fn show_each(args: &[Expr], out: &mut Writer) {
    for arg in args {
        show_next(arg, out);
    }
}

#[cycle(show_stmt)]
fn show_stmts(stmts: &[Stmt], out: &mut Writer) {
    out.put(" [");
    show_between(stmts, out);
    out.put("]");
}

/// Statements with a blank between each two.
#[cycle(show_stmt)]
fn show_between(stmts: &[Stmt], out: &mut Writer) {
    let Some((first, others)) = stmts.split_first() else {
        return;
    };
    show_stmt(first, out);
    for stmt in others {
        out.put(" ");
        show_stmt(stmt, out);
    }
}
