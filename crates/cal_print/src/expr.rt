//! Expressions, types and generators.

ghost use Rattle.std.specs.Prelude.{◌++◌, ◌∷◌, [], map};
ghost use Rattle.cal_ast.specs.Tree.{listed};
ghost use Rattle.cal_ast.specs.View.{expr_tree, gen_tree, type_tree, type_arg_tree};
ghost use Rattle.cal_lexer.specs.Lexeme.{Lexeme};
ghost use Rattle.cal_print.specs.Tokens.{words, joined, is_loose, paired, where_any};
ghost use Rattle.cal_print.specs.Writes.{Writes};
ghost use Rattle.cal_lexer.specs.Words.{lexeme_of};

use crate::name::print_ident;
use crate::operators::{binary_word, prefix_word, stands_in_parens};
use crate::part::Part;
use crate::writer::Writer;
use cal_ast::{Expr, ExprForm, Gen, TypeArg, TypeExpr};
use cal_lexer::Word;

/// Prints an expression.
#[cycle(print_expr)]
pub fn print_expr(e: &Expr, out: &mut Writer)
    ensures { Writes out.old (words (expr_tree e.now)) out.new }
{
    match &e.form {
        ExprForm::Number(value) => out.put_number(*value),
        ExprForm::Bool(true) => out.put(Word::True),
        ExprForm::Bool(false) => out.put(Word::False),
        ExprForm::Name(text) => out.put_name(text.as_str()),
        ExprForm::Call { name, args } => {
            out.put_name(name.as_str());
            print_listed(Word::LeftParen, args, Word::RightParen, out);
        }
        ExprForm::Paren(inner) => print_between(Word::LeftParen, inner, Word::RightParen, out),
        ExprForm::If { test, yes, no } => {
            out.put(Word::If);
            print_expr(test, out);
            out.put(Word::Then);
            print_expr(yes, out);
            out.put(Word::Else);
            print_expr(no, out);
            out.put(Word::End);
        }
        ExprForm::List(items) => print_listed(Word::LeftBracket, items, Word::RightBracket, out),
        ExprForm::Comp { item, gens } => {
            out.put(Word::LeftBracket);
            print_expr(item, out);
            out.put(Word::Colon);
            print_gens(gens, out);
            out.put(Word::RightBracket);
        }
        ExprForm::Index { base, place } => {
            print_operand(base, out);
            print_between(Word::LeftBracket, place, Word::RightBracket, out);
        }
        ExprForm::Prefix { op, of } => {
            out.put(prefix_word(*op));
            print_operand(of, out);
        }
        ExprForm::Binary { op, left, right } => {
            print_operand(left, out);
            out.put(binary_word(*op));
            print_operand(right, out);
        }
    }
}

/// Prints an operand or the base of an index, in parentheses if it is an operation or an `if`.
#[cycle(print_expr)]
fn print_operand(e: &Expr, out: &mut Writer)
    ensures { Writes out.old (paired (is_loose (expr_tree e.now)) (words (expr_tree e.now))) out.new }
{
    if stands_in_parens(e) {
        print_between(Word::LeftParen, e, Word::RightParen, out)
    } else {
        print_expr(e, out)
    }
}

/// Prints an expression between two words.
#[cycle(print_expr)]
pub(crate) fn print_between(opening: Word, e: &Expr, closing: Word, out: &mut Writer)
    ensures { Writes out.old (lexeme_of opening ∷ words (expr_tree e.now) ++
        (lexeme_of closing ∷ [])) out.new }
{
    out.put(opening);
    print_expr(e, out);
    out.put(closing);
}

/// Prints expressions between two words, with a comma between each two expressions.
#[cycle(print_expr)]
pub(crate) fn print_listed(opening: Word, exprs: &[Expr], closing: Word, out: &mut Writer)
    ensures { Writes out.old (lexeme_of opening ∷ joined Lexeme.Comma
        (listed (map expr_tree exprs.now)) ++ (lexeme_of closing ∷ [])) out.new }
{
    out.put(opening);
    print_exprs(exprs, out);
    out.put(closing);
}

/// Prints expressions with a comma between each two.
#[cycle(print_expr)]
pub(crate) fn print_exprs(exprs: &[Expr], out: &mut Writer)
    ensures { Writes out.old (joined Lexeme.Comma (listed (map expr_tree exprs.now))) out.new }
{
    let Some((first, others)) = exprs.split_first() else {
        return;
    };
    print_expr(first, out);
    for e in others {
        out.put(Word::Comma);
        print_expr(e, out);
    }
}

/// Prints generators with a comma between each two.
#[cycle(print_expr)]
fn print_gens(gens: &[Gen], out: &mut Writer)
    ensures { Writes out.old (joined Lexeme.Comma (listed (map gen_tree gens.now))) out.new }
{
    let Some((first, others)) = gens.split_first() else {
        return;
    };
    print_gen(first, out);
    for generator in others {
        out.put(Word::Comma);
        print_gen(generator, out);
    }
}

/// Prints `for shape name in from .. to`.
#[cycle(print_expr)]
fn print_gen(generator: &Gen, out: &mut Writer)
    ensures { Writes out.old (words (gen_tree generator.now)) out.new }
{
    out.put(Word::For);
    print_type(&generator.shape, out);
    print_ident(&generator.name, out);
    out.put(Word::In);
    print_expr(&generator.from, out);
    out.put(Word::DotDot);
    print_expr(&generator.to, out);
}

/// Prints a type.
#[cycle(print_expr)]
pub fn print_type(shape: &TypeExpr, out: &mut Writer)
    ensures { Writes out.old (words (type_tree shape.now)) out.new }
{
    print_ident(&shape.name, out);
    print_type_args(&shape.args, out);
}

/// Prints the arguments of a type in parentheses, with a comma between each two, or nothing if there are none.
#[cycle(print_expr)]
fn print_type_args(args: &[TypeArg], out: &mut Writer)
    ensures { Writes out.old (where_any (listed (map type_arg_tree args.now))
        (Lexeme.LeftParen ∷ joined Lexeme.Comma (listed (map type_arg_tree args.now)) ++
        (Lexeme.RightParen ∷ []))) out.new }
{
    let Some((first, others)) = args.split_first() else {
        return;
    };
    out.put(Word::LeftParen);
    print_type_arg(first, out);
    for arg in others {
        out.put(Word::Comma);
        print_type_arg(arg, out);
    }
    out.put(Word::RightParen);
}

/// Prints `name : shape` or `name = value`.
#[cycle(print_expr)]
fn print_type_arg(arg: &TypeArg, out: &mut Writer)
    ensures { Writes out.old (words (type_arg_tree arg.now)) out.new }
{
    match arg {
        TypeArg::Shape { name, shape } => {
            print_ident(name, out);
            out.put(Word::Colon);
            print_type(shape, out);
        }
        TypeArg::Value { name, value } => {
            print_ident(name, out);
            out.put(Word::Equal);
            print_expr(value, out);
        }
    }
}

impl Part for Expr {
    ghost tree = { expr_tree };

    fn print(&self, out: &mut Writer) {
        print_expr(self, out)
    }
}
