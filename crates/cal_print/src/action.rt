//! Actions, schedules and priorities.

ghost use Rattle.std.specs.Prelude.{map};
ghost use Rattle.cal_ast.specs.Tree.{listed};
ghost use Rattle.cal_ast.specs.View.{action_tree, chain_tree, move_tree, output_tree, pattern_tree, priority_tree, schedule_tree};
ghost use Rattle.cal_print.specs.Tokens.{words, each_chain};
ghost use Rattle.cal_print.specs.Inputs.{input_words};
ghost use Rattle.cal_print.specs.Writes.{Writes};

use crate::expr::print_listed;
use crate::name::print_ident;
use crate::part::{Part, print_each, print_introduced, print_joined, print_label, print_under};
use crate::stmt::print_body;
use crate::writer::Writer;
use cal_ast::{Action, Move, Output, Pattern, Priority, Schedule, Tag};
use cal_lexer::Word;

/// Prints an action or an `initialize`.
pub(crate) fn print_action(action: &Action, out: &mut Writer)
    ensures { Writes out.old (words (action_tree action.now)) out.new }
{
    print_label(&action.tag, out);
    print_inputs(action, out);
    out.put(Word::LongDoubleArrow);
    print_joined(&action.outputs, Word::Comma, out);
    print_introduced(Word::Guard, &action.guards, out);
    print_introduced(Word::Var, &action.vars, out);
    print_body(Word::Do, &action.body, out);
    out.put(Word::End);
}

/// Prints `action` and the patterns, or `initialize`, which has none.
fn print_inputs(action: &Action, out: &mut Writer)
    ensures { Writes out.old (input_words action.now.initialize
        (listed (map pattern_tree action.now.patterns.items))) out.new }
{
    if action.initialize {
        out.put(Word::Initialize);
        return;
    }
    out.put(Word::Action);
    print_joined(&action.patterns, Word::Comma, out);
}

impl Part for Pattern {
    ghost tree = { pattern_tree };

    fn print(&self, out: &mut Writer) {
        print_label(&self.port, out);
        out.put(Word::LeftBracket);
        print_joined(&self.names, Word::Comma, out);
        out.put(Word::RightBracket);
        print_under(Word::Repeat, &self.repeat, out);
    }
}

impl Part for Output {
    ghost tree = { output_tree };

    fn print(&self, out: &mut Writer) {
        print_label(&self.port, out);
        print_listed(Word::LeftBracket, &self.values, Word::RightBracket, out);
        print_under(Word::Repeat, &self.repeat, out);
    }
}

/// Prints a schedule.
pub(crate) fn print_schedule(schedule: &Schedule, out: &mut Writer)
    ensures { Writes out.old (words (schedule_tree schedule.now)) out.new }
{
    out.put(Word::Schedule);
    out.put(Word::Fsm);
    print_ident(&schedule.start, out);
    out.put(Word::Colon);
    print_each(&schedule.moves, out);
    out.put(Word::End);
}

impl Part for Move {
    ghost tree = { move_tree };

    fn print(&self, out: &mut Writer) {
        print_ident(&self.from, out);
        out.put(Word::LeftParen);
        print_joined(&self.tags, Word::Comma, out);
        out.put(Word::RightParen);
        out.put(Word::LongArrow);
        print_ident(&self.to, out);
        out.put(Word::Semicolon);
    }
}

/// Prints chains of priorities.
pub(crate) fn print_priority(priority: &Priority, out: &mut Writer)
    ensures { Writes out.old (words (priority_tree priority.now)) out.new }
{
    out.put(Word::Priority);
    print_chains(&priority.chains, out);
    out.put(Word::End);
}

/// Prints chains, each with a `;` behind it.
fn print_chains(chains: &[Vec<Tag>], out: &mut Writer)
    ensures { Writes out.old (each_chain (listed (map chain_tree chains.now))) out.new }
{
    for chain in chains {
        print_joined(chain, Word::Greater, out);
        out.put(Word::Semicolon);
    }
}
