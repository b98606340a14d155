//! The kinds of expressions.

ghost use Rattle.std.specs.Prelude.{◌≡◌};
ghost use Rattle.std.specs.Str.{bytes_eq};
ghost use Rattle.fnl_expr.specs.Given.{kind_named};

/// The kinds of expressions.
#[derive(Clone, Copy)]
pub enum ExprKind {
    Literal,
    /// A name.
    Var,
    List,
    /// A prefix and its operand.
    Unary,
    /// Operands with an operator between each two.
    Sequence,
}

/// Whether bytes are those of a text.
pub fn is(bytes: &[u8], text: &str) -> bool
    ensures { result ≡ bytes_eq bytes.now text.now }
{
    bytes == text.as_bytes()
}

/// The kind of an expression by its name.
pub(crate) fn kind_named(text: &[u8]) -> Option<ExprKind>
    ensures { result ≡ kind_named text.now }
{
    if is(text, "Literal") {
        Some(ExprKind::Literal)
    } else if is(text, "Var") {
        Some(ExprKind::Var)
    } else if is(text, "List") {
        Some(ExprKind::List)
    } else if is(text, "UnaryOp") {
        Some(ExprKind::Unary)
    } else if is(text, "BinOpSeq") {
        Some(ExprKind::Sequence)
    } else {
        None
    }
}
