//! Input patterns.
#![tactic(auto, using(crate::proofs::Judged::breaks_on, crate::proofs::Judged::breaks_rate))]

ghost use Rattle.std.specs.Prelude.{◌≡◌, ◌≤◌, IfOk, length, map, string_bytes};
ghost use Rattle.cal_ast.specs.View.{pattern_tree};
ghost use Rattle.cal_model.specs.Sound.{max_ports};
ghost use Rattle.cal_model.specs.View.{pattern_view};
ghost use Rattle.const_env.specs.Counting.{names_view};
ghost use Rattle.const_env.specs.Judging.{Judges};
ghost use Rattle.cal_check.specs.Actions.{names_listed, pattern_judged, patterns_on};
ghost use Rattle.check_member.specs.Asking.{patterns_tree, port_views};
ghost use Rattle.check_member.specs.Parts.{idents_tree};
ghost use Rattle.cal_check.specs.Violations.{all_broken, broken, said};
ghost use Rattle.check_stmt.specs.Judging.{Checks};
ghost use Rattle.check_action.specs.Parts.{FindsPatterns, FindsPatternsSaid, JudgesAll, JudgesAllSaid};

use crate::fault::as_kind_fault;
use crate::repeats::{rate, repeat};
use cal_ast::{Ident, Pattern};
use cal_model::{BoundPattern, Port};
use check_member::pattern_ports;
use check_stmt::{is_passed, passed};
use const_eval::{KindFault, Names};
use rvc_base::Memory;
use std::alloc::Global;

/// The patterns of an action, each with the number of its port. Their repeats see the names of the actor.
///
/// # Errors
///
/// `Broken`, if no two patterns are on one port and each port is there: Z5 at a pattern whose repeat is below 1 or that
/// takes more than 4,096 tokens, or the first rule that a repeat breaks. Else as those of
/// [`pattern_ports`](check_member::pattern_ports). `Memory` if memory runs out.
pub fn patterns(
    names: &Names,
    ins: &[Port],
    patterns: &[Pattern],
) -> Result<Vec<BoundPattern>, KindFault>
    requires { length ins.now ≤ max_ports }
    ensures { FindsPatterns result (patterns_tree patterns.now) (port_views ins.now)
        (names_view names.now) }
{
    match pattern_ports(names.alloc, patterns, ins) {
        Ok(numbers) => patterns_on(names, patterns, &numbers),
        Err(f) => Err(as_kind_fault(f)),
    }
}

/// The same. If `passes`, what isn't constant is passed over; there are no patterns then if a repeat isn't.
///
/// # Errors
///
/// As those of [`patterns`].
pub fn check_patterns(
    names: &Names,
    ins: &[Port],
    patterns: &[Pattern],
    passes: bool,
) -> Result<Option<Vec<BoundPattern>>, KindFault>
    requires { length ins.now ≤ max_ports }
    ensures { FindsPatternsSaid passes result (patterns_tree patterns.now) (port_views ins.now)
        (names_view names.now) }
{
    match pattern_ports(names.alloc, patterns, ins) {
        Ok(numbers) => check_on(names, patterns, &numbers, passes),
        Err(f) => Err(as_kind_fault(f)),
    }
}

/// Patterns on the ports of these numbers; none if a repeat isn't constant, and that is passed over.
#[tactic(auto, using(crate::proofs::Said::kept_on, crate::proofs::Said::passed_all))]
fn check_on(
    names: &Names,
    patterns: &[Pattern],
    numbers: &[u32],
    passes: bool,
) -> Result<Option<Vec<BoundPattern>>, KindFault>
    ensures { JudgesAllSaid passes pattern_view result
        (patterns_on (patterns_tree patterns.now) numbers.now (names_view names.now)) }
{
    match patterns_on(names, patterns, numbers) {
        Ok(found) => Ok(Some(found)),
        Err(fault) => {
            if !is_passed(fault, passes) {
                return Err(fault);
            }
            others_on(names, patterns, numbers, passes)?;
            Ok(None)
        }
    }
}

/// That patterns on the ports of these numbers break no rule. What isn't constant is passed over if `passes`.
#[tactic(auto, using(check_stmt::proofs::Said::said_none, check_stmt::proofs::Said::said_on, check_stmt::proofs::Said::said_next))]
fn others_on(
    names: &Names,
    patterns: &[Pattern],
    numbers: &[u32],
    passes: bool,
) -> Result<(), KindFault>
    ensures { Checks result (said passes
        (all_broken (patterns_on (patterns_tree patterns.now) numbers.now (names_view names.now)))) }
{
    let mut rest = patterns;
    let mut left = numbers;
    'patterns: while let Some((first, others)) = rest.split_first() {
        let Some((number, later)) = left.split_first() else {
            return Ok(());
        };
        other_pattern(names, first, *number, passes)?;
        rest = others;
        left = later;
    }
    Ok(())
}

/// That a pattern on a port breaks no rule. What isn't constant is passed over if `passes`.
#[tactic(auto, using(check_stmt::proofs::Said::said_none))]
fn other_pattern(names: &Names, p: &Pattern, port: u32, passes: bool) -> Result<(), KindFault>
    ensures { Checks result (said passes
        (broken (pattern_judged (pattern_tree p.now) port (names_view names.now)))) }
{
    match first_of_pattern(names, p, port) {
        Ok(()) => Ok(()),
        Err(fault) => passed(fault, passes),
    }
}

/// That a pattern on a port breaks no rule.
#[tactic(auto, using(check_stmt::proofs::Checked::refuses_broken))]
fn first_of_pattern(names: &Names, p: &Pattern, port: u32) -> Result<(), KindFault>
    ensures { Checks result
        (broken (pattern_judged (pattern_tree p.now) port (names_view names.now))) }
{
    pattern(names, p, port)?;
    Ok(())
}

/// Patterns on the ports of these numbers.
fn patterns_on(
    names: &Names,
    patterns: &[Pattern],
    numbers: &[u32],
) -> Result<Vec<BoundPattern>, KindFault>
    ensures { JudgesAll pattern_view result
        (patterns_on (patterns_tree patterns.now) numbers.now (names_view names.now)) }
{
    let mut found = Vec::new(names.alloc);
    let mut rest = patterns;
    let mut left = numbers;
    'patterns: while let Some((first, others)) = rest.split_first() {
        let Some((number, later)) = left.split_first() else {
            return Ok(found);
        };
        let next = pattern(names, first, *number)?;
        found.push(next)?;
        rest = others;
        left = later;
    }
    Ok(found)
}

/// A pattern on a port.
fn pattern(names: &Names, p: &Pattern, port: u32) -> Result<BoundPattern, KindFault>
    ensures { Judges pattern_view result
        (pattern_judged (pattern_tree p.now) port (names_view names.now)) }
{
    let repeat = repeat(names, &p.repeat, p.at)?;
    rate(p.names.len(), repeat, p.at)?;
    let names = texts(names.alloc, &p.names)?;
    Ok(BoundPattern {
        port,
        names,
        repeat,
    })
}

/// The texts of names.
fn texts(alloc: Global, names: &[Ident]) -> Result<Vec<String>, Memory>
    ensures { IfOk result (λ texts. map string_bytes texts.items
        ≡ names_listed (idents_tree names.now)) }
{
    let mut texts = Vec::new(alloc);
    let mut rest = names;
    'names: while let Some((first, others)) = rest.split_first() {
        let text = first.text.clone()?;
        texts.push(text)?;
        rest = others;
    }
    Ok(texts)
}
