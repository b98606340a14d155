//! Texts with the tokens or the fault that the language gives them.

use crate::table::cut;
use cal_lexer::{MAX_NAME, Token, Word, is_name, lex, lex_net};
use rvc_base::{Front, Memory};
use std::alloc::{AllocError, Global};
use std::process::Abort;

/// What is asked of a text's tokens.
#[derive(Clone, Copy)]
enum Asked {
    Kinds,
    Places,
    /// Of the text of a network, with its places.
    Network,
}

/// The tokens of a text that isn't too long, or its fault.
fn read(alloc: Global, asked: Asked, text: &[u8]) -> Result<Vec<Token>, Front> {
    if text.len() >= 1 << 32 {
        return Err(Front::Memory);
    }
    match asked {
        Asked::Kinds | Asked::Places => lex(alloc, 7, text),
        Asked::Network => lex_net(alloc, 7, text),
    }
}

/// The tokens of a text, each as `Debug` prints it, or the fault of the text, with a blank before each.
fn answer(alloc: Global, asked: Asked, text: &[u8]) -> Result<String, AllocError> {
    let mut out = String::new(alloc);
    match read(alloc, asked, text) {
        Ok(tokens) => {
            for token in &tokens {
                let kind = &token.kind;
                let at = token.at;
                match asked {
                    Asked::Kinds => write!(out, " {kind:?}")?,
                    Asked::Places | Asked::Network => write!(out, " {kind:?}@{at}")?,
                }
            }
        }
        Err(Front::Refused(refusal)) => {
            let rule = refusal.rule;
            let at = refusal.place.offset;
            write!(out, " {rule} at {at}")?;
        }
        Err(Front::Memory) => write!(out, " out of memory")?,
    }
    Ok(out)
}

/// Stops unless a text has its answer.
fn holds(rt: &impl Abort, alloc: Global, asked: Asked, text: &[u8], expected: &str) {
    let found = answer(alloc, asked, text).expect(rt, "an answer");
    assert_eq!(rt; found.as_str(), expected);
}

/// Stops unless each text of a table has its answer.
fn hold(rt: &impl Abort, alloc: Global, asked: Asked, table: &str) {
    for row in table.split("\n# ") {
        if !row.is_empty() {
            let (text, expected) = cut(row, "\n=");
            holds(rt, alloc, asked, text.as_bytes(), expected);
        }
    }
}

#[test]
fn tokens(rt: HostRuntime) {
    hold(&rt, rt.alloc(), Asked::Places, TOKENS);
}

/// Numbers, dots, and the longest token that stands at a place.
const TOKENS: &str = "
# 1..2
= Number(1)@0 DotDot@1 Number(2)@3
# 0 0xFf 90
= Number(0)@0 Number(255)@2 Number(90)@7
# 340282366920938463463374607431768211455
= Number(340282366920938463463374607431768211455)@0";

#[test]
fn kinds(rt: HostRuntime) {
    hold(&rt, rt.alloc(), Asked::Kinds, KINDS);
}

/// The longest token that stands at a place, and every reserved word and symbol.
const KINDS: &str = "
# ==> => ===>
= LongDoubleArrow Equal Greater Equal LongDoubleArrow
# -->-- >--
= LongArrow Minus Minus Greater Minus Minus
# ::=...<=<<<
= Colon Assign DotDot Dot LessEqual ShiftLeft Less
# ending end_ _end end
= Name(\"ending\") Name(\"end_\") Name(\"_end\") End
# actor unit package import action initialize function procedure guard var do begin end if then elsif else while foreach for in repeat schedule fsm priority true false not and or div mod
= Actor Unit Package Import Action Initialize Function Procedure Guard Var Do Begin End If Then Elsif Else While Foreach For In Repeat Schedule Fsm Priority True False Not And Or Div Mod
# endactor endunit endaction endinitialize endfunction endprocedure endif endwhile endforeach endbegin endschedule endpriority
= EndActor EndUnit EndAction EndInitialize EndFunction EndProcedure EndIf EndWhile EndForeach EndBegin EndSchedule EndPriority
# ==> --> := .. <= >= != << >> && || ( ) [ ] , ; : . + - * / = < > & | ^ ~
= LongDoubleArrow LongArrow Assign DotDot LessEqual GreaterEqual NotEqual ShiftLeft ShiftRight AndAnd OrOr LeftParen RightParen LeftBracket RightBracket Comma Semicolon Colon Dot Plus Minus Star Slash Equal Less Greater Ampersand Bar Caret Tilde";

#[test]
fn faults(rt: HostRuntime) {
    hold(&rt, rt.alloc(), Asked::Places, FAULTS);
}

/// Each rule that a text may break.
const FAULTS: &str = "
# 340282366920938463463374607431768211456
= L3 at 0
# 1.5
= L4 at 0
# 3e
= L4 at 0
# 0xFG
= L4 at 0
# 007
= L6 at 0
# \"x\"
= L5 at 0
# a !b
= L1 at 2
# actor A() ==> : /*
= L2 at 16
# /*/
= L2 at 0
# a { b
= L1 at 2
# }
= L1 at 0
# actor B() ==> : { end
= L1 at 16";

#[test]
fn networks(rt: HostRuntime) {
    hold(&rt, rt.alloc(), Asked::Network, NETWORKS);
}

/// Braces, and what stands beside them.
const NETWORKS: &str = "
# {}a{1}
= LeftBrace@0 RightBrace@1 Name(\"a\")@2 LeftBrace@3 Number(1)@4 RightBrace@5
# -->{ bufferSize = 4; };
= LongArrow@0 LeftBrace@3 Name(\"bufferSize\")@5 Equal@16 Number(4)@18 Semicolon@19 RightBrace@21 Semicolon@22
# /* { */ } // {
= RightBrace@8
# a{1.5}
= L4 at 2
# {!{
= L1 at 1
# {\"a\"}
= L5 at 1
# {/*}
= L2 at 1
# { # }
= L1 at 2";

#[test]
fn a_byte_above_ascii(rt: HostRuntime) {
    // in comments, and outside
    let text = b"x/**/y // \xFF */\n/* // \" ! */z // end";
    let tokens = " Name(\"x\")@0 Name(\"y\")@5 Name(\"z\")@27";
    holds(&rt, rt.alloc(), Asked::Places, text, tokens);
    holds(&rt, rt.alloc(), Asked::Places, b"\xFF", " L1 at 0");
}

/// `actor` and a name of so many bytes.
fn with_name(alloc: Global, size: usize) -> Result<Vec<u8>, Memory> {
    let name = vec![in alloc; b'a'; size]?;
    let mut text = Vec::new(alloc);
    text.extend_from_slice(b"actor ")?;
    text.extend_from_slice(&name)?;
    Ok(text)
}

/// How many bytes the answer for such a text has, of which the answer is too long to be written here.
fn answer_len(alloc: Global, text: &[u8]) -> Result<usize, AllocError> {
    Ok(answer(alloc, Asked::Places, text)?.len())
}

/// Stops unless a name of so many bytes has an answer of so many bytes.
fn has_length(rt: &impl Abort, alloc: Global, size: usize, expected: usize) {
    let text = with_name(alloc, size).expect(rt, "a text");
    let found = answer_len(alloc, &text).expect(rt, "an answer");
    assert_eq!(rt; found, expected);
}

#[test]
fn long_names(rt: HostRuntime) {
    // ` Actor@0 Name("a..a")@6`, and ` Z11 at 6`
    has_length(&rt, rt.alloc(), MAX_NAME, MAX_NAME + 19);
    has_length(&rt, rt.alloc(), MAX_NAME + 1, 9);
}

#[test]
fn a_million_spaces(rt: HostRuntime) {
    let text = vec![in rt.alloc(); b' '; 1048576].expect(&rt, "a text");
    let found = answer_len(rt.alloc(), &text).expect(&rt, "an answer");
    assert_eq!(rt; found, 0);
}

#[test]
fn words_and_their_texts(rt: HostRuntime) {
    let word = Word::EndForeach;
    assert_eq!(rt; word.text(), "endforeach");
    assert_eq!(rt; word.kind().word().map_or(0, Word::number), 41);
    assert!(rt; is_name("foreach_") && !is_name("foreach"));
}
