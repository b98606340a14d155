//! What stands behind the patterns of an action: it sees their variables, which are constants without a value.

ghost use Rattle.std.specs.Prelude.{◌≡◌, false, IfOk, OnOk, map, string_bytes};
ghost use Rattle.cal_model.specs.Sound.{kind_of_tokens, with_pattern};
ghost use Rattle.cal_model.specs.View.{pattern_view};
ghost use Rattle.const_env.specs.Counting.{names_view, variable_view};
ghost use Rattle.const_env.specs.declared.names.Names.{Names as DeclaredNames};
ghost use Rattle.cal_check.specs.Actions.{with_all_patterns};
ghost use Rattle.check_member.specs.Asking.{port_views};
ghost use Rattle.check_stmt.specs.Declaring.{seen_behind};

use crate::tokens::{kind_of_tokens, type_of_port};
use cal_model::{BoundPattern, Port};
use const_eval::{Names, Variable, Variables};
use rvc_base::{Memory, Scalar};
use std::alloc::Global;

/// The variables of patterns, as names for what stands behind them.
///
/// # Errors
///
/// `Memory` if memory runs out.
pub fn pattern_names(
    names: &Names,
    ins: &[Port],
    patterns: &[BoundPattern],
) -> Result<Variables, Memory>
    ensures { IfOk result (λ seen. seen_behind seen names.now
        ≡ with_all_patterns (port_views ins.now) (map pattern_view patterns.now)
        (names_view names.now)) }
{
    let mut seen = Variables::new(names.alloc);
    let mut rest = patterns;
    'patterns: while let Some((first, others)) = rest.split_first() {
        let t = type_of_port(ins, first.port);
        add_names(names.alloc, t, first.repeat, &first.names, &mut seen)?;
        rest = others;
    }
    Ok(seen)
}

/// Adds names that stand for tokens of a type, repeated so often.
fn add_names(
    alloc: Global,
    t: Scalar,
    repeat: Option<u32>,
    names: &[String],
    seen: &mut Variables,
) -> Result<(), Memory>
    ensures { OnOk result ((n : DeclaredNames) → seen_behind seen.new n
        ≡ with_pattern (kind_of_tokens t repeat) (map string_bytes names.now)
        (seen_behind seen.old n)) }
{
    let mut rest = names;
    'names: while let Some((first, others)) = rest.split_first() {
        let next = token_name(alloc, t, repeat, first)?;
        seen.add(next)?;
        rest = others;
    }
    Ok(())
}

/// A name that stands for tokens of a type, repeated so often.
fn token_name(
    alloc: Global,
    t: Scalar,
    repeat: Option<u32>,
    name: &String,
) -> Result<Variable, Memory>
    ensures { IfOk result (λ x. variable_view x ≡ record {
      name = string_bytes name.now;
      kind = kind_of_tokens t repeat;
      changes = false;
    }) }
{
    let kind = kind_of_tokens(alloc, t, repeat)?;
    let name = name.clone()?;
    Ok(Variable {
        name,
        kind,
        changes: false,
    })
}
