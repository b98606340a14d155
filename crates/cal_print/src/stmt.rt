//! Statements.

ghost use Rattle.std.specs.Prelude.{◌++◌, ◌∷◌, [], map};
ghost use Rattle.cal_ast.specs.Tree.{listed, assign, call_stmt};
ghost use Rattle.cal_ast.specs.View.{body_tree, expr_tree, ident_tree, stmt_tree, type_tree, var_tree};
ghost use Rattle.cal_lexer.specs.Lexeme.{Lexeme};
ghost use Rattle.cal_print.specs.Tokens.{words, joined, each_place, under, where_any};
ghost use Rattle.cal_print.specs.Writes.{Writes};
ghost use Rattle.cal_lexer.specs.Words.{lexeme_of};

use crate::expr::{print_between, print_expr, print_listed, print_type};
use crate::name::print_ident;
use crate::part::print_joined;
use crate::writer::Writer;
use cal_ast::{Expr, Ident, Stmt, StmtForm, TypeExpr, VarDecl};
use cal_lexer::Word;

/// Prints a statement.
#[cycle(print_stmt)]
pub(crate) fn print_stmt(stmt: &Stmt, out: &mut Writer)
    ensures { Writes out.old (words (stmt_tree stmt.now)) out.new }
{
    match &stmt.form {
        StmtForm::Assign {
            name,
            places,
            value,
        } => print_assign(name, places, value, out),
        StmtForm::Call { name, args } => print_call(name, args, out),
        StmtForm::If { test, yes, no } => {
            print_between(Word::If, test, Word::Then, out);
            print_stmts(yes, out);
            print_body(Word::Else, no, out);
            out.put(Word::End);
        }
        StmtForm::While { test, body } => {
            print_between(Word::While, test, Word::Do, out);
            print_stmts(body, out);
            out.put(Word::End);
        }
        StmtForm::Foreach {
            shape,
            name,
            from,
            to,
            body,
        } => {
            print_foreach(shape, name, from, to, out);
            print_stmts(body, out);
            out.put(Word::End);
        }
        StmtForm::Block { vars, body } => {
            out.put(Word::Begin);
            print_block_vars(vars, out);
            print_stmts(body, out);
            out.put(Word::End);
        }
    }
}

/// Prints statements one behind the other.
#[cycle(print_stmt)]
pub(crate) fn print_stmts(stmts: &[Stmt], out: &mut Writer)
    ensures { Writes out.old (words (listed (map stmt_tree stmts.now))) out.new }
{
    for stmt in stmts {
        print_stmt(stmt, out);
    }
}

/// Prints statements behind a word, or nothing if they are missing.
#[cycle(print_stmt)]
pub(crate) fn print_body(word: Word, body: &Option<Vec<Stmt>>, out: &mut Writer)
    ensures { Writes out.old (under (lexeme_of word) (body_tree body.now)) out.new }
{
    if let Some(stmts) = body {
        out.put(word);
        print_stmts(stmts, out);
    }
}

/// Prints `name [ place ] .. := value ;`.
fn print_assign(name: &Ident, places: &[Expr], value: &Expr, out: &mut Writer)
    ensures { Writes out.old (words (assign (ident_tree name.now)
        (listed (map expr_tree places.now)) (expr_tree value.now) 0)) out.new }
{
    print_ident(name, out);
    print_places(places, out);
    print_between(Word::Assign, value, Word::Semicolon, out);
}

/// Prints each index of an assigned place in brackets.
fn print_places(places: &[Expr], out: &mut Writer)
    ensures { Writes out.old (each_place (listed (map expr_tree places.now))) out.new }
{
    for place in places {
        print_between(Word::LeftBracket, place, Word::RightBracket, out);
    }
}

/// Prints `name ( args ) ;`.
fn print_call(name: &Ident, args: &[Expr], out: &mut Writer)
    ensures { Writes out.old (words (call_stmt (ident_tree name.now)
        (listed (map expr_tree args.now)) 0)) out.new }
{
    print_ident(name, out);
    print_listed(Word::LeftParen, args, Word::RightParen, out);
    out.put(Word::Semicolon);
}

/// Prints `foreach shape name in from .. to do`.
fn print_foreach(shape: &TypeExpr, name: &Ident, from: &Expr, to: &Expr, out: &mut Writer)
    ensures { Writes out.old (Lexeme.Foreach ∷ words (type_tree shape.now) ++ words
        (ident_tree name.now) ++ (Lexeme.In ∷ words (expr_tree from.now) ++
        (Lexeme.DotDot ∷ words (expr_tree to.now) ++ (Lexeme.Do ∷ [])))) out.new }
{
    out.put(Word::Foreach);
    print_type(shape, out);
    print_ident(name, out);
    print_between(Word::In, from, Word::DotDot, out);
    print_expr(to, out);
    out.put(Word::Do);
}

/// Prints `var vars do`, or nothing if there are no variables.
fn print_block_vars(vars: &[VarDecl], out: &mut Writer)
    ensures { Writes out.old (where_any (listed (map var_tree vars.now))
        (Lexeme.Var ∷ joined Lexeme.Comma (listed (map var_tree vars.now)) ++ (Lexeme.Do ∷ []))) out.new }
{
    if vars.is_empty() {
        return;
    }
    out.put(Word::Var);
    print_joined(vars, Word::Comma, out);
    out.put(Word::Do);
}
