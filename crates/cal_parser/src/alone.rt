//! Reading the expression or the type that a part of a list of tokens spells.

ghost use Rattle.std.specs.Prelude.{◌≡◌, ◌≤◌, length, IfOk, IfErr, MatchResult};
ghost use Rattle.cal_ast.specs.Tree.{Tree};
ghost use Rattle.cal_ast.specs.View.{expr_tree, type_tree};
ghost use Rattle.cal_lexer.specs.Lexeme.{plain_tokens};
ghost use Rattle.cal_grammar.specs.Operators.{height, max_height};
ghost use Rattle.cal_grammar.specs.Spells.{a_type, an_expr};
ghost use Rattle.cal_parser.specs.Alone.{TellsAlone};
ghost use Rattle.cal_parser.specs.Stretch.{between, end_at, spells_as, IsRightlyAs};

use crate::files::is_at_end;
use crate::parse::{MAX_HEIGHT, answer, place};
use cal_ast::{Expr, TypeExpr};
use cal_lexer::Token;
use cal_parse_base::fault::Fault;
use cal_parse_expr::expr::{expr, type_expr};
use rvc_base::Front;
use std::alloc::Global;

/// The expression that the tokens from number `from` up to number `to`, without the latter, spell. The text is the
/// file of this number, and `end` is its length.
///
/// These tokens spell at most one expression, and one of a height of at most [`MAX_HEIGHT`] is always read, unless
/// memory runs out (`read`).
///
/// # Errors
///
/// `Refused` with [`Rule::SPELLS_NO_FILE`](rvc_base::Rule::SPELLS_NO_FILE) at a token such that no expression's tokens
/// begin with those up to and including it, or, if all these tokens together spell none, where they end: at token `to`,
/// or at `end` if there is no such token; with [`Rule::TOO_HIGH`](rvc_base::Rule::TOO_HIGH) at a token such that no
/// expression of a height of at most [`MAX_HEIGHT`] has tokens that begin with those up to and including it
/// (`refused`). `Memory` if memory runs out.
///
/// # Examples
///
/// ```
/// let alloc = rt.alloc();
/// let tokens = lex(alloc, 1, b"K = 1 + 2;")?;
/// let sum = parse_expr(alloc, 1, &tokens, 2, 5, 10)?;
/// assert!(rt; matches!(&sum.form, ExprForm::Binary { op: BinOp::Add, .. }) && sum.at == 4);
///
/// // Without its last token an operand is missing, where that token stands.
/// let Err(Front::Refused(refusal)) = parse_expr(alloc, 1, &tokens, 2, 4, 10) else {
///     panic!(rt; "it is refused")
/// };
/// assert!(rt; refusal.rule == Rule::SPELLS_NO_FILE && refusal.place.offset == 8);
/// ```
pub fn parse_expr(
    alloc: Global,
    file: u32,
    tokens: &[Token],
    from: u32,
    to: u32,
    end: u32,
) -> Result<Expr, Front>
    requires ordered { from ≤ to }
    requires within { to ≤ length tokens.now }
    ensures spelled { IfOk result (λ x. spells_as an_expr (between from to tokens.now)
        (expr_tree x)) }
    ensures low { IfOk result (λ x. height (expr_tree x) ≤ max_height) }
    ensures refused { IfErr result (IsRightlyAs an_expr file (end_at to end tokens.now)
        (between from to tokens.now)) }
    ensures read { (x : Tree) → spells_as an_expr (between from to tokens.now) x
        → height x ≤ max_height
        → MatchResult result (λ e. expr_tree e ≡ x) (λ e. e ≡ Front.Memory) }
{
    let mut left = part(tokens, from, to);
    match expr_alone(alloc, &mut left, MAX_HEIGHT) {
        Ok(found) => Ok(found),
        Err(fault) => Err(answer(fault, file, place(left, end_of(tokens, to, end)))),
    }
}

/// The type that the tokens from number `from` up to number `to`, without the latter, spell. The text is the file of
/// this number, and `end` is its length.
///
/// # Errors
///
/// As [`parse_expr`], of types.
pub fn parse_type(
    alloc: Global,
    file: u32,
    tokens: &[Token],
    from: u32,
    to: u32,
    end: u32,
) -> Result<TypeExpr, Front>
    requires ordered { from ≤ to }
    requires within { to ≤ length tokens.now }
    ensures spelled { IfOk result (λ x. spells_as a_type (between from to tokens.now)
        (type_tree x)) }
    ensures low { IfOk result (λ x. height (type_tree x) ≤ max_height) }
    ensures refused { IfErr result (IsRightlyAs a_type file (end_at to end tokens.now)
        (between from to tokens.now)) }
    ensures read { (x : Tree) → spells_as a_type (between from to tokens.now) x
        → height x ≤ max_height
        → MatchResult result (λ t. type_tree t ≡ x) (λ e. e ≡ Front.Memory) }
{
    let mut left = part(tokens, from, to);
    match type_alone(alloc, &mut left, MAX_HEIGHT) {
        Ok(found) => Ok(found),
        Err(fault) => Err(answer(fault, file, place(left, end_of(tokens, to, end)))),
    }
}

/// The tokens from one number up to another.
fn part(tokens: &[Token], from: u32, to: u32) -> &[Token]
    requires ordered { from ≤ to }
    requires within { to ≤ length tokens.now }
    ensures { plain_tokens result.now ≡ between from to tokens.now }
{
    &tokens[from as usize..to as usize]
}

/// Where tokens end behind which the one of this number stands, if there is one.
fn end_of(tokens: &[Token], to: u32, end: u32) -> u32
    requires { to ≤ length tokens.now }
    ensures { result ≡ end_at to end tokens.now }
{
    place(&tokens[to as usize..], end)
}

/// An expression, and nothing behind it.
fn expr_alone(alloc: Global, tokens: &mut &[Token], room: u32) -> Result<Expr, Fault>
    ensures { TellsAlone expr_tree room an_expr result tokens.old.now tokens.new.now }
{
    let found = expr(alloc, tokens, room)?;
    if is_at_end(tokens) {
        Ok(found)
    } else {
        Err(Fault::Refused)
    }
}

/// A type, and nothing behind it.
fn type_alone(alloc: Global, tokens: &mut &[Token], room: u32) -> Result<TypeExpr, Fault>
    ensures { TellsAlone type_tree room a_type result tokens.old.now tokens.new.now }
{
    let found = type_expr(alloc, tokens, room)?;
    if is_at_end(tokens) {
        Ok(found)
    } else {
        Err(Fault::Refused)
    }
}
