//! Tokens.

/// A token where it stands.
#[derive(Debug, Drop)]
pub struct Token {
    pub kind: TokenKind,
    /// The offset of its first byte.
    pub at: u32,
}

/// What a token is: a reserved word, a symbol, a name or a number.
#[derive(Debug, Drop)]
pub enum TokenKind {
    /// A name, which is no reserved word: its text.
    Name(String),
    /// A number: its value.
    Number(u128),
    Actor,
    Unit,
    Package,
    Import,
    Action,
    Initialize,
    Function,
    Procedure,
    Guard,
    Var,
    Do,
    Begin,
    End,
    If,
    Then,
    Elsif,
    Else,
    While,
    Foreach,
    For,
    In,
    Repeat,
    Schedule,
    Fsm,
    Priority,
    True,
    False,
    Not,
    And,
    Or,
    Div,
    Mod,
    EndActor,
    EndUnit,
    EndAction,
    EndInitialize,
    EndFunction,
    EndProcedure,
    EndIf,
    EndWhile,
    EndForeach,
    EndBegin,
    EndSchedule,
    EndPriority,
    /// `==>`
    LongDoubleArrow,
    /// `-->`
    LongArrow,
    /// `:=`
    Assign,
    /// `..`
    DotDot,
    /// `<=`
    LessEqual,
    /// `>=`
    GreaterEqual,
    /// `!=`
    NotEqual,
    /// `<<`
    ShiftLeft,
    /// `>>`
    ShiftRight,
    /// `&&`
    AndAnd,
    /// `||`
    OrOr,
    /// `(`
    LeftParen,
    /// `)`
    RightParen,
    /// `[`
    LeftBracket,
    /// `]`
    RightBracket,
    /// `,`
    Comma,
    /// `;`
    Semicolon,
    /// `:`
    Colon,
    /// `.`
    Dot,
    /// `+`
    Plus,
    /// `-`
    Minus,
    /// `*`
    Star,
    /// `/`
    Slash,
    /// `=`
    Equal,
    /// `<`
    Less,
    /// `>`
    Greater,
    /// `&`
    Ampersand,
    /// `|`
    Bar,
    /// `^`
    Caret,
    /// `~`
    Tilde,
    /// `{`, which only networks have
    LeftBrace,
    /// `}`, which only networks have
    RightBrace,
}
