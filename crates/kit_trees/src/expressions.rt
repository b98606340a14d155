//! Expressions and types, each with where it stands: `(- (- 1@0 2@4)@0 3@8)@0`.

use crate::writer::{Shown, Writer, show_next};
use cal_ast::{BinOp, Expr, ExprForm, Gen, PrefixOp, TypeArg, TypeExpr};

impl Shown for Expr {
    fn show(&self, out: &mut Writer) {
        show_expr(self, out)
    }
}

impl Shown for TypeExpr {
    fn show(&self, out: &mut Writer) {
        show_type(self, out)
    }
}

#[cycle(show_expr)]
fn show_expr(e: &Expr, out: &mut Writer) {
    show_form(&e.form, out);
    out.put_at(e.at);
}

#[cycle(show_expr)]
fn show_form(form: &ExprForm, out: &mut Writer) {
    match form {
        ExprForm::Number(value) => out.put_number(*value),
        ExprForm::Bool(true) => out.put("true"),
        ExprForm::Bool(false) => out.put("false"),
        ExprForm::Name(name) => out.put(name.as_str()),
        ExprForm::Call { name, args } => {
            out.put("(call ");
            out.put(name.as_str());
            show_more(args, out);
            out.put(")");
        }
        ExprForm::Paren(inner) => show_one("paren", inner, out),
        ExprForm::If { test, yes, no } => {
            out.put("(if");
            show_behind(test, out);
            show_behind(yes, out);
            show_behind(no, out);
            out.put(")");
        }
        ExprForm::List(items) => {
            out.put("(list");
            show_more(items, out);
            out.put(")");
        }
        ExprForm::Comp { item, gens } => {
            out.put("(comp");
            show_behind(item, out);
            show_gens(gens, out);
            out.put(")");
        }
        ExprForm::Index { base, place } => {
            out.put("(index");
            show_behind(base, out);
            show_behind(place, out);
            out.put(")");
        }
        ExprForm::Prefix { op, of } => show_one(prefix(*op), of, out),
        ExprForm::Binary { op, left, right } => {
            out.put("(");
            out.put(binary(*op));
            show_behind(left, out);
            show_behind(right, out);
            out.put(")");
        }
    }
}

#[cycle(show_expr)]
fn show_one(head: &str, part: &Expr, out: &mut Writer) {
    out.put("(");
    out.put(head);
    show_behind(part, out);
    out.put(")");
}

#[cycle(show_expr)]
fn show_behind(e: &Expr, out: &mut Writer) {
    out.put(" ");
    show_expr(e, out);
}

#[cycle(show_expr)]
fn show_more(exprs: &[Expr], out: &mut Writer) {
    for e in exprs {
        show_behind(e, out);
    }
}

#[cycle(show_expr)]
fn show_gens(gens: &[Gen], out: &mut Writer) {
    for generator in gens {
        show_gen(generator, out);
    }
}

#[cycle(show_expr)]
fn show_gen(generator: &Gen, out: &mut Writer) {
    out.put(" (for ");
    show_type(&generator.shape, out);
    show_next(&generator.name, out);
    show_behind(&generator.from, out);
    show_behind(&generator.to, out);
    out.put(")");
    out.put_at(generator.at);
}

#[cycle(show_expr)]
fn show_type(shape: &TypeExpr, out: &mut Writer) {
    out.put("(");
    shape.name.show(out);
    show_type_args(&shape.args, out);
    out.put(")");
    out.put_at(shape.at);
}

#[cycle(show_expr)]
fn show_type_args(args: &[TypeArg], out: &mut Writer) {
    for arg in args {
        show_type_arg(arg, out);
    }
}

#[cycle(show_expr)]
fn show_type_arg(arg: &TypeArg, out: &mut Writer) {
    match arg {
        TypeArg::Shape { name, shape } => {
            show_next(name, out);
            out.put(":");
            show_type(shape, out);
        }
        TypeArg::Value { name, value } => {
            show_next(name, out);
            out.put("=");
            show_expr(value, out);
        }
    }
}

/// How an operator before its operand is spelled.
fn prefix(op: PrefixOp) -> &'static str {
    match op {
        PrefixOp::Not => "not",
        PrefixOp::Neg => "-",
        PrefixOp::BitNot => "~",
    }
}

/// How an operator between two operands is spelled.
fn binary(op: BinOp) -> &'static str {
    match op {
        BinOp::Or => "or",
        BinOp::And => "and",
        BinOp::BitOr => "|",
        BinOp::BitXor => "^",
        BinOp::BitAnd => "&",
        BinOp::Eq => "=",
        BinOp::Ne => "!=",
        BinOp::Lt => "<",
        BinOp::Le => "<=",
        BinOp::Gt => ">",
        BinOp::Ge => ">=",
        BinOp::Shl => "<<",
        BinOp::Shr => ">>",
        BinOp::Add => "+",
        BinOp::Sub => "-",
        BinOp::Mul => "*",
        BinOp::Div => "div",
        BinOp::Mod => "mod",
    }
}
