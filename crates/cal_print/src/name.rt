//! Names and dotted names.

ghost use Rattle.cal_ast.specs.View.{ident_tree, tag_tree};
ghost use Rattle.cal_print.specs.Tokens.{words};
ghost use Rattle.cal_print.specs.Writes.{Writes};

use crate::part::{Part, print_joined};
use crate::writer::Writer;
use cal_ast::{Ident, Tag};
use cal_lexer::Word;

/// Prints a name.
pub fn print_ident(name: &Ident, out: &mut Writer)
    ensures { Writes out.old (words (ident_tree name.now)) out.new }
{
    out.put_name(name.text.as_str())
}

impl Part for Ident {
    ghost tree = { ident_tree };

    fn print(&self, out: &mut Writer) {
        print_ident(self, out)
    }
}

/// Prints a dotted name.
pub fn print_tag(tag: &Tag, out: &mut Writer)
    ensures { Writes out.old (words (tag_tree tag.now)) out.new }
{
    print_joined(&tag.parts, Word::Dot, out)
}

impl Part for Tag {
    ghost tree = { tag_tree };

    fn print(&self, out: &mut Writer) {
        print_tag(self, out)
    }
}
