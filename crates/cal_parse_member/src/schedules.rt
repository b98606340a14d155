//! Schedules and priorities.

ghost use Rattle.cal_ast.specs.View.{chain_tree, move_tree, priority_tree, schedule_tree};
ghost use Rattle.cal_grammar.specs.Rules.{part};
ghost use Rattle.cal_grammar.specs.Spells.{a_chain, a_move, a_priority, a_schedule};
ghost use Rattle.cal_parse_base.specs.Tells.{Tells};

use cal_ast::{Move, Priority, Schedule, Tag};
use cal_lexer::{Token, Word};
use cal_parse_base::cursor::{expect, finish, is_name, name};
use cal_parse_base::fault::Fault;
use cal_parse_stmt::lists::{Read, repeated, separated};
use cal_parse_stmt::names::{Separator, tag};
use std::alloc::Global;

/// A transition of a schedule.
#[tactic(auto, using(cal_grammar::proofs::Reading::read_is))]
fn transition(alloc: Global, tokens: &mut &[Token], room: u32) -> Result<Move, Fault>
    ensures { Tells move_tree room (part a_move) result tokens.old.now tokens.new.now }
{
    let from = name(alloc, tokens)?;
    expect(tokens, Word::LeftParen)?;
    let tags = separated::<TagPart>(alloc, tokens, room, Separator::Comma)?;
    expect(tokens, Word::RightParen)?;
    expect(tokens, Word::LongArrow)?;
    let to = name(alloc, tokens)?;
    expect(tokens, Word::Semicolon)?;
    let at = from.at;
    Ok(Move { from, tags, to, at })
}

/// A tag, as a part of a list.
struct TagPart;

impl Read for TagPart {
    ghost use Rattle.cal_ast.specs.View.{tag_tree};
    ghost use Rattle.cal_grammar.specs.Spells.{a_tag};

    type Value = Tag;

    ghost part = { a_tag };

    ghost tree = { tag_tree };

    fn read(alloc: Global, tokens: &mut &[Token], _room: u32) -> Result<Tag, Fault> {
        tag(alloc, tokens)
    }

    fn starts(tokens: &[Token]) -> bool {
        is_name(tokens)
    }
}

/// A transition, as a part of a list.
struct MovePart;

impl Read for MovePart {
    ghost use Rattle.cal_ast.specs.View.{move_tree};
    ghost use Rattle.cal_grammar.specs.Spells.{a_move};

    type Value = Move;

    ghost part = { a_move };

    ghost tree = { move_tree };

    fn read(alloc: Global, tokens: &mut &[Token], room: u32) -> Result<Move, Fault> {
        transition(alloc, tokens, room)
    }

    fn starts(tokens: &[Token]) -> bool {
        is_name(tokens)
    }
}

/// The schedule of an actor.
#[tactic(auto, using(cal_grammar::proofs::Reading::read_is))]
pub fn schedule(alloc: Global, tokens: &mut &[Token], room: u32) -> Result<Schedule, Fault>
    ensures { Tells schedule_tree room (part a_schedule) result tokens.old.now tokens.new.now }
{
    let at = expect(tokens, Word::Schedule)?;
    expect(tokens, Word::Fsm)?;
    let start = name(alloc, tokens)?;
    expect(tokens, Word::Colon)?;
    let moves = repeated::<MovePart>(alloc, tokens, room)?;
    if !finish(tokens, Word::Schedule) {
        return Err(Fault::Refused);
    }
    Ok(Schedule { start, moves, at })
}

/// A chain of a priority: tags with `>` between them, two or more.
#[tactic(auto, using(cal_grammar::proofs::Reading::read_is))]
fn chain(alloc: Global, tokens: &mut &[Token], room: u32) -> Result<Vec<Tag>, Fault>
    ensures { Tells chain_tree room (part a_chain) result tokens.old.now tokens.new.now }
{
    let first = tag(alloc, tokens)?;
    expect(tokens, Word::Greater)?;
    let mut tags = separated::<TagPart>(alloc, tokens, room, Separator::Greater)?;
    expect(tokens, Word::Semicolon)?;
    tags.insert(0, first)?;
    Ok(tags)
}

/// A chain, as a part of a list.
struct ChainPart;

impl Read for ChainPart {
    ghost use Rattle.cal_ast.specs.View.{chain_tree};
    ghost use Rattle.cal_grammar.specs.Spells.{a_chain};

    type Value = Vec<Tag>;

    ghost part = { a_chain };

    ghost tree = { chain_tree };

    fn read(alloc: Global, tokens: &mut &[Token], room: u32) -> Result<Vec<Tag>, Fault> {
        chain(alloc, tokens, room)
    }

    fn starts(tokens: &[Token]) -> bool {
        is_name(tokens)
    }
}

/// A priority of actions.
#[tactic(auto, using(cal_grammar::proofs::Reading::read_is))]
pub fn priority(alloc: Global, tokens: &mut &[Token], room: u32) -> Result<Priority, Fault>
    ensures { Tells priority_tree room (part a_priority) result tokens.old.now tokens.new.now }
{
    let at = expect(tokens, Word::Priority)?;
    let chains = repeated::<ChainPart>(alloc, tokens, room)?;
    if !finish(tokens, Word::Priority) {
        return Err(Fault::Refused);
    }
    Ok(Priority { chains, at })
}
