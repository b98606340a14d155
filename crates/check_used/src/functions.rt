//! The names that functions use.

ghost use Rattle.std.specs.Prelude.{◌≡◌, ◌||◌, ℕ, List, OnOk};
ghost use Rattle.cal_ast.specs.View.{function_tree};
ghost use Rattle.cal_check.specs.Actors.{uses};
ghost use Rattle.cal_model.specs.Tags.{is_seen};

use crate::name_set::NameSet;
use crate::stmts::add_function;
use cal_ast::Function;
use rvc_base::Memory;

/// Adds the names of the variables and the functions that a function uses where it is declared, in its types and its body.
///
/// # Errors
///
/// `Memory` if memory runs out. What the set has isn't said then.
pub fn add_names_used(names: &mut NameSet, f: &Function) -> Result<(), Memory>
    ensures { OnOk result ((x : List ℕ)
        → is_seen x names.new ≡ (is_seen x names.old || uses x (function_tree f.now))) }
{
    add_function(names, f)
}
