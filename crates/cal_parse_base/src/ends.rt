//! The ends of constructs.

ghost use Rattle.std.specs.Prelude.{◌≡◌};
ghost use Rattle.cal_lexer.specs.Words.{lexeme_of};
ghost use Rattle.cal_grammar.specs.Operators.{long_end};

use cal_lexer::Word;

/// The long end of what begins with this word, or `end`.
pub fn long_end(word: Word) -> Word
    ensures { lexeme_of result ≡ long_end (lexeme_of word) }
{
    match word {
        Word::Actor => Word::EndActor,
        Word::Unit => Word::EndUnit,
        Word::Action => Word::EndAction,
        Word::Initialize => Word::EndInitialize,
        Word::Function => Word::EndFunction,
        Word::Procedure => Word::EndProcedure,
        Word::If => Word::EndIf,
        Word::While => Word::EndWhile,
        Word::Foreach => Word::EndForeach,
        Word::Begin => Word::EndBegin,
        Word::Schedule => Word::EndSchedule,
        Word::Priority => Word::EndPriority,
        _ => Word::End,
    }
}
