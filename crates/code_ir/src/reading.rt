//! The tokens that code may read.

ghost use Rattle.std.specs.Prelude.{◌<◌, ℕ, ℤ, List, length};
ghost use Rattle.std.specs.Bool.{MatchBool};
ghost use Rattle.code_ir.specs.Reading.{AllNameTokens, AreBelow, NamesTokens};
ghost use Rattle.code_ir.specs.Running.{HasItsTokens};

use crate::admitted::Admitted;
use crate::instr::Instr;
use crate::tokens::Tokens;

/// Whether the places `k`, `k + m` and so on, `n` of them, are below a count.
fn are_below(count: u32, k: u32, m: u32, n: u32) -> bool
    ensures { MatchBool result (AreBelow count k m n) (¬ AreBelow count k m n) }
{
    if n == 0 {
        return true;
    }
    u64::from(k) + u64::from(n - 1) * u64::from(m) < u64::from(count)
}

/// Whether each token that the instruction may read is there.
fn names_tokens<T: Tokens>(instr: &Instr, tokens: &T) -> bool
    ensures { MatchBool result (NamesTokens (T.tokens tokens.now) instr.now)
        (¬ NamesTokens (T.tokens tokens.now) instr.now) }
{
    match *instr {
        Instr::Token(p, k) => k < tokens.count(p),
        Instr::TokenAt(p, k, m, n) => are_below(tokens.count(p), k, m, n),
        Instr::TokenList(_, p, k, m, n) => are_below(tokens.count(p), k, m, n),
        _ => true,
    }
}

/// Whether each token is there that an instruction of the code may read, whatever its operands are. Each run of
/// the code then has its tokens.
pub fn has_tokens<T: Tokens>(code: &Admitted, tokens: &T) -> bool
    ensures named { MatchBool result (AllNameTokens (T.tokens tokens.now) code.now.instrs)
        (¬ AllNameTokens (T.tokens tokens.now) code.now.instrs) }
    ensures read { MatchBool result
        ((entry : ℕ) (cells : List ℤ) → HasItsTokens code.now entry cells (T.tokens tokens.now))
        (Unit {0}) }
{
    for instr in code.instrs() {
        if !names_tokens(instr, tokens) {
            return false;
        }
    }
    true
}
