//! What holds of the grammar.

ghost use Rattle.std.specs.Prelude.{◌≡◌, List};
ghost use Rattle.cal_ast.specs.Tree.{Tree};
ghost use Rattle.cal_lexer.specs.Lexeme.{Placed};
ghost use Rattle.cal_grammar.specs.Spells.{spells};

/// A list of tokens spells at most one file.
pub fn one_tree()
    ensures { (ts : List Placed) (x y : Tree) → spells ts x → spells ts y → x ≡ y }
{}
