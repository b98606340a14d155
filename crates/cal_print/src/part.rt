//! Lists of parts, and parts that may be missing.

ghost use Rattle.std.specs.Prelude.{◌∷◌, map, option_map};
ghost use Rattle.cal_ast.specs.Tree.{listed};
ghost use Rattle.cal_ast.specs.View.{optional, optional_expr};
ghost use Rattle.cal_lexer.specs.Lexeme.{Lexeme};
ghost use Rattle.cal_print.specs.Tokens.{words, joined, where_any, label, under};
ghost use Rattle.cal_print.specs.Writes.{Writes};
ghost use Rattle.cal_lexer.specs.Words.{lexeme_of};

use crate::expr::print_expr;
use crate::writer::Writer;
use cal_ast::Expr;
use cal_lexer::Word;

/// A part of a tree, which lists of parts hold.
pub trait Part {
    ghost use Rattle.cal_ast.specs.Tree.{Tree};
    ghost use Rattle.cal_print.specs.Tokens.{words};
    ghost use Rattle.cal_print.specs.Writes.{Writes};

    ghost tree: { Self → Tree };

    /// Prints the part.
    fn print(&self, out: &mut Writer)
        ensures { Writes out.old (words (tree self.now)) out.new };
}

/// Prints parts one behind the other.
pub(crate) fn print_each<T: Part>(parts: &[T], out: &mut Writer)
    ensures { Writes out.old (words (listed (map T.tree parts.now))) out.new }
{
    for part in parts {
        part.print(out);
    }
}

/// Prints parts with a mark between each two.
pub fn print_joined<T: Part>(parts: &[T], mark: Word, out: &mut Writer)
    ensures { Writes out.old (joined (lexeme_of mark) (listed (map T.tree parts.now))) out.new }
{
    let Some((first, others)) = parts.split_first() else {
        return;
    };
    first.print(out);
    for part in others {
        out.put(mark);
        part.print(out);
    }
}

/// Prints parts behind a word with a comma between each two, or nothing if there are none.
pub(crate) fn print_introduced<T: Part>(word: Word, parts: &[T], out: &mut Writer)
    ensures { Writes out.old (where_any (listed (map T.tree parts.now))
        (lexeme_of word ∷ joined Lexeme.Comma (listed (map T.tree parts.now)))) out.new }
{
    if parts.is_empty() {
        return;
    }
    out.put(word);
    print_joined(parts, Word::Comma, out);
}

/// Prints a part and a colon, or nothing if it is missing.
pub(crate) fn print_label<T: Part>(part: &Option<T>, out: &mut Writer)
    ensures { Writes out.old (label (optional (option_map T.tree part.now))) out.new }
{
    if let Some(part) = part {
        part.print(out);
        out.put(Word::Colon);
    }
}

/// Prints an expression behind a word, or nothing if it is missing.
pub(crate) fn print_under(word: Word, e: &Option<Expr>, out: &mut Writer)
    ensures { Writes out.old (under (lexeme_of word) (optional_expr e.now)) out.new }
{
    if let Some(e) = e {
        out.put(word);
        print_expr(e, out);
    }
}
