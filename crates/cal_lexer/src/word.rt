//! The reserved words and symbols, each with its text and its token.

ghost use Rattle.std.specs.Prelude.{◌≡◌, ◌<◌, MatchOption, option_map};
ghost use Rattle.cal_lexer.specs.Lexeme.{lexeme};
ghost use Rattle.cal_lexer.specs.Words.{lexeme_of, spelling, word_number};
ghost use Rattle.cal_lexer.specs.Lexis.{find, words, long_ends};

use crate::token::TokenKind;

/// A reserved word or a symbol.
#[derive(Clone, Copy, Debug)]
pub enum Word {
    Actor,
    Unit,
    Package,
    Import,
    Action,
    Initialize,
    Function,
    Procedure,
    Guard,
    Var,
    Do,
    Begin,
    End,
    If,
    Then,
    Elsif,
    Else,
    While,
    Foreach,
    For,
    In,
    Repeat,
    Schedule,
    Fsm,
    Priority,
    True,
    False,
    Not,
    And,
    Or,
    Div,
    Mod,
    EndActor,
    EndUnit,
    EndAction,
    EndInitialize,
    EndFunction,
    EndProcedure,
    EndIf,
    EndWhile,
    EndForeach,
    EndBegin,
    EndSchedule,
    EndPriority,
    /// `==>`
    LongDoubleArrow,
    /// `-->`
    LongArrow,
    /// `:=`
    Assign,
    /// `..`
    DotDot,
    /// `<=`
    LessEqual,
    /// `>=`
    GreaterEqual,
    /// `!=`
    NotEqual,
    /// `<<`
    ShiftLeft,
    /// `>>`
    ShiftRight,
    /// `&&`
    AndAnd,
    /// `||`
    OrOr,
    /// `(`
    LeftParen,
    /// `)`
    RightParen,
    /// `[`
    LeftBracket,
    /// `]`
    RightBracket,
    /// `,`
    Comma,
    /// `;`
    Semicolon,
    /// `:`
    Colon,
    /// `.`
    Dot,
    /// `+`
    Plus,
    /// `-`
    Minus,
    /// `*`
    Star,
    /// `/`
    Slash,
    /// `=`
    Equal,
    /// `<`
    Less,
    /// `>`
    Greater,
    /// `&`
    Ampersand,
    /// `|`
    Bar,
    /// `^`
    Caret,
    /// `~`
    Tilde,
    /// `{`, which only networks have
    LeftBrace,
    /// `}`, which only networks have
    RightBrace,
}

/// The texts of the reserved words, for what a macro makes of a table.
macro_rules! with_words {
    ($next:ident!($($given:tt)*) $($rows:tt)*) => {
        $next!($($given)* $($rows)*
            Actor "actor", Unit "unit", Package "package", Import "import", Action "action",
            Initialize "initialize", Function "function", Procedure "procedure", Guard "guard",
            Var "var", Do "do", Begin "begin", End "end", If "if", Then "then", Elsif "elsif",
            Else "else", While "while", Foreach "foreach", For "for", In "in", Repeat "repeat",
            Schedule "schedule", Fsm "fsm", Priority "priority", True "true", False "false",
            Not "not", And "and", Or "or", Div "div", Mod "mod",)
    };
}

/// The texts of the words that end what they name.
macro_rules! with_long_ends {
    ($next:ident!($($given:tt)*) $($rows:tt)*) => {
        $next!($($given)* $($rows)*
            EndActor "endactor", EndUnit "endunit", EndAction "endaction",
            EndInitialize "endinitialize", EndFunction "endfunction",
            EndProcedure "endprocedure", EndIf "endif", EndWhile "endwhile",
            EndForeach "endforeach", EndBegin "endbegin", EndSchedule "endschedule",
            EndPriority "endpriority",)
    };
}

/// The texts of the symbols.
macro_rules! with_symbols {
    ($next:ident!($($given:tt)*) $($rows:tt)*) => {
        $next!($($given)* $($rows)*
            LongDoubleArrow "==>", LongArrow "-->", Assign ":=", DotDot "..", LessEqual "<=",
            GreaterEqual ">=", NotEqual "!=", ShiftLeft "<<", ShiftRight ">>", AndAnd "&&",
            OrOr "||", LeftParen "(", RightParen ")", LeftBracket "[", RightBracket "]",
            Comma ",", Semicolon ";", Colon ":", Dot ".", Plus "+", Minus "-", Star "*",
            Slash "/", Equal "=", Less "<", Greater ">", Ampersand "&", Bar "|", Caret "^",
            Tilde "~", LeftBrace "{", RightBrace "}",)
    };
}

macro_rules! text_of {
    ($word:expr; $($name:ident $text:literal,)*) => { match $word { $(Word::$name => $text,)* } };
}

macro_rules! kind_of {
    ($word:expr; $($name:ident $text:literal,)*) => {
        match $word { $(Word::$name => TokenKind::$name,)* }
    };
}

macro_rules! word_of {
    ($kind:expr; $($name:ident $text:literal,)*) => {
        match $kind { $(TokenKind::$name => Some(Word::$name),)* _ => None }
    };
}

macro_rules! find {
    ($text:expr; $($name:ident $word:literal,)*) => {
        match $text { $($word => Some(Word::$name),)* _ => None }
    };
}

impl Word {
    /// Its text.
    pub fn text(self) -> &'static str
        ensures { result.now ≡ spelling (lexeme_of self) }
    {
        with_words!(with_long_ends!(with_symbols!(text_of!(self;))))
    }

    /// The token that it is.
    pub fn kind(self) -> TokenKind
        ensures { lexeme result ≡ lexeme_of self }
    {
        with_words!(with_long_ends!(with_symbols!(kind_of!(self;))))
    }

    /// A number of its own.
    pub fn number(self) -> u8
        ensures { result ≡ word_number (lexeme_of self) }
    {
        self as u8 + 1
    }
}

impl TokenKind {
    /// The reserved word or symbol that it is, if it is one.
    pub fn word(&self) -> Option<Word>
        ensures { MatchOption result (word_number (lexeme self.now) ≡ 0)
            (λ w. lexeme_of w ≡ lexeme self.now) }
    {
        with_words!(with_long_ends!(with_symbols!(word_of!(self;))))
    }
}

/// The reserved word that a text is, if it is one and no long end.
pub(crate) fn plain_word(text: &str) -> Option<Word>
    ensures { option_map lexeme_of result ≡ find text.now words }
{
    with_words!(find!(text;))
}

/// The word that a text is, if it ends what it names.
pub(crate) fn long_end(text: &str) -> Option<Word>
    ensures { option_map lexeme_of result ≡ find text.now long_ends }
{
    with_long_ends!(find!(text;))
}
