//! What holds of the grammar, as functions that do nothing.

ghost use Rattle.std.specs.Prelude.{◌≡◌, ℕ, List};
ghost use Rattle.rvc_base.specs.declared.refusal.Rule.{Rule};
ghost use Rattle.cal_lexer.specs.Lexeme.{Placed};
ghost use Rattle.fnl_frames.specs.Net.{Net};
ghost use Rattle.nl_grammar.specs.Laws.{BreaksText, IsTextNetwork};
ghost use Rattle.nl_grammar.specs.Spells.{spells_nl};

/// Tokens spell at most one network, and so does a text.
pub fn one_network()
    ensures tokens { (ts : List Placed) (n other : Net) (high more : ℕ) → spells_nl ts n high
        → spells_nl ts other more → n ≡ other }
    ensures text { (text : List ℕ) (n other : Net) → IsTextNetwork text n
        → IsTextNetwork text other → n ≡ other }
{}

/// The text of a network breaks no rule.
pub fn no_network_breaks_a_rule()
    ensures { (text : List ℕ) (n : Net) (rule : Rule) (at : ℕ) → IsTextNetwork text n
        → BreaksText text rule at → ⊥ }
{}
