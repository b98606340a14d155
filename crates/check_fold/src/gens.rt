//! Generators with their bounds and the sizes of their types written out.

ghost use Rattle.std.specs.Prelude.{map};
ghost use Rattle.cal_ast.specs.Tree.{listed};
ghost use Rattle.cal_ast.specs.View.{gen_tree};
ghost use Rattle.const_env.specs.Counting.{names_view};
ghost use Rattle.check_fold.specs.Seeing.{seen_among};
ghost use Rattle.check_fold.specs.Writing.{WritesGen, WritesGens};

use crate::constant::constant;
use crate::made;
use crate::types::type_expr;
use cal_ast::Gen;
use const_eval::{Inside, Names};
use rvc_base::Memory;

/// Generators, each of which sees the variables of those before it.
pub(crate) fn generators(names: &Names, gens: &[Gen]) -> Result<Vec<Gen>, Memory>
    ensures { WritesGens result (listed (map gen_tree gens.now)) (names_view names.now) }
{
    let mut found = Vec::new(names.alloc);
    for place in 0..gens.len() {
        let g = generator_behind(names, &gens[..place], &gens[place])?;
        found.push(g)?;
    }
    Ok(found)
}

/// A generator that stands behind others.
fn generator_behind(names: &Names, before: &[Gen], g: &Gen) -> Result<Gen, Memory>
    ensures { WritesGen result (gen_tree g.now) (seen_among before.now names.now) }
{
    let inside = Inside::of_gens(before, names.inner);
    generator(&names.under(&inside), g)
}

/// A generator.
fn generator(names: &Names, g: &Gen) -> Result<Gen, Memory>
    ensures { WritesGen result (gen_tree g.now) (names_view names.now) }
{
    let shape = type_expr(names, &g.shape)?;
    let from = constant(names, &g.from)?;
    let to = constant(names, &g.to)?;
    let name = g.name.copy(names.alloc)?;
    Ok(made::generator(shape, name, from, to, g.at))
}
