//! Laws of canonical text. Each is a function that does nothing: its contract is what is proved.

ghost use Rattle.std.specs.Prelude.{◌≡◌, ℕ, List};
ghost use Rattle.cal_ast.specs.Apart.{IsEqualApart};
ghost use Rattle.cal_ast.specs.Tree.{Tree};
ghost use Rattle.cal_lexer.specs.Lexeme.{Placed};
ghost use Rattle.cal_lexer.specs.Lexes.{lexes};
ghost use Rattle.cal_grammar.specs.Spells.{spells};
ghost use Rattle.cal_print.specs.Canon.{canon};
ghost use Rattle.law_canon.specs.ReadBack.{IsReadBack};

use cal_grammar::one_tree;
use cal_lexer::one_list;

/// Canonical text is read back. If a tree is that of a text, ignoring offsets, its canonical text has tokens, and these
/// spell the same tree again, ignoring offsets, and as high.
///
/// So if the tree isn't too high and its canonical text is short enough to be read, `cal_lexer::lex` answers these
/// tokens and `cal_parser::parse_file` that tree, unless out of memory.
pub fn canonical_text_is_read_back()
    ensures { (source : List ℕ) (tokens : List Placed) (x t : Tree) → lexes source tokens
        → spells tokens x → IsEqualApart t x → IsReadBack t }
{}

/// The trees of two texts have the same canonical text only if they are equal, ignoring offsets.
pub fn one_canonical_text()
    ensures { (source other : List ℕ) (tokens others : List Placed) (x y : Tree)
        → lexes source tokens → spells tokens x → lexes other others → spells others y
        → canon x ≡ canon y → IsEqualApart x y }
{
    one_list();
    one_tree();
}

/// Offsets don't show in canonical text: trees that are equal, ignoring offsets, have the same.
pub fn offsets_do_not_show()
    ensures { (x y : Tree) → IsEqualApart x y → canon x ≡ canon y }
{}
