//! Parameters, ports, variables, functions, procedures, and members in their order.

ghost use Rattle.std.specs.Prelude.{◌≡◌, ◌∷◌, [], map, if◌then◌else◌};
ghost use Rattle.cal_ast.specs.Tree.{listed};
ghost use Rattle.cal_ast.specs.View.{function_tree, member_tree, param_tree, port_tree, procedure_tree, var_tree};
ghost use Rattle.cal_lexer.specs.Lexeme.{Lexeme};
ghost use Rattle.cal_print.specs.Tokens.{words, each_member};
ghost use Rattle.cal_print.specs.Writes.{Writes};
ghost use Rattle.cal_lexer.specs.Words.{lexeme_of};

use crate::action::{print_action, print_priority, print_schedule};
use crate::expr::{print_expr, print_type};
use crate::name::print_ident;
use crate::part::{Part, print_introduced, print_joined, print_under};
use crate::stmt::print_stmts;
use crate::writer::Writer;
use cal_ast::{Function, Member, Param, PortDecl, Procedure, VarDecl};
use cal_lexer::Word;

impl Part for Param {
    ghost tree = { param_tree };

    fn print(&self, out: &mut Writer) {
        print_type(&self.shape, out);
        print_ident(&self.name, out);
        print_under(Word::Equal, &self.start, out);
    }
}

impl Part for PortDecl {
    ghost tree = { port_tree };

    fn print(&self, out: &mut Writer) {
        print_type(&self.shape, out);
        print_ident(&self.name, out);
    }
}

impl Part for VarDecl {
    ghost tree = { var_tree };

    fn print(&self, out: &mut Writer) {
        print_type(&self.shape, out);
        print_ident(&self.name, out);
        print_under(start_sign(self.changes), &self.start, out);
    }
}

/// The sign before the start of a variable: `:=` if it can change, else `=`.
fn start_sign(changes: bool) -> Word
    ensures { lexeme_of result ≡ (if changes then Lexeme.Assign else Lexeme.Equal) }
{
    if changes { Word::Assign } else { Word::Equal }
}

/// Prints a function.
fn print_function(f: &Function, out: &mut Writer)
    ensures { Writes out.old (words (function_tree f.now)) out.new }
{
    out.put(Word::Function);
    print_ident(&f.name, out);
    out.put(Word::LeftParen);
    print_joined(&f.formals, Word::Comma, out);
    out.put(Word::RightParen);
    out.put(Word::LongArrow);
    print_type(&f.result, out);
    print_introduced(Word::Var, &f.vars, out);
    out.put(Word::Colon);
    print_expr(&f.body, out);
    out.put(Word::End);
}

/// Prints a procedure.
fn print_procedure(p: &Procedure, out: &mut Writer)
    ensures { Writes out.old (words (procedure_tree p.now)) out.new }
{
    out.put(Word::Procedure);
    print_ident(&p.name, out);
    out.put(Word::LeftParen);
    print_joined(&p.formals, Word::Comma, out);
    out.put(Word::RightParen);
    print_introduced(Word::Var, &p.vars, out);
    out.put(Word::Begin);
    print_stmts(&p.body, out);
    out.put(Word::End);
}

/// Prints members one behind the other, each variable with a `;` behind it.
pub fn print_members(members: &[Member], out: &mut Writer)
    ensures { Writes out.old (each_member (listed (map member_tree members.now))) out.new }
{
    for member in members {
        print_member(member, out);
    }
}

/// Prints a member, a variable with a `;` behind it.
fn print_member(member: &Member, out: &mut Writer)
    ensures { Writes out.old (each_member (listed (member_tree member.now ∷ []))) out.new }
{
    match member {
        Member::Var(v) => {
            v.print(out);
            out.put(Word::Semicolon);
        }
        Member::Function(f) => print_function(f, out),
        Member::Procedure(p) => print_procedure(p, out),
        Member::Action(a) => print_action(a, out),
        Member::Schedule(s) => print_schedule(s, out),
        Member::Priority(p) => print_priority(p, out),
    }
}
