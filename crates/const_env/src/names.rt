//! What an expression sees while its kind is sought.

ghost use Rattle.std.specs.Prelude.{◌≡◌, [], map, option_map};
ghost use Rattle.cal_ast.specs.Tree as tree;
ghost use Rattle.cal_model.specs.Kinding.{kind, meant_by};
ghost use Rattle.cal_model.specs.View.{kind_view};
ghost use Rattle.const_env.specs.Counting.{declared_by, inner_variables, meant_view, named_by, names_inside, names_view, own_variables, use_of};
ghost use Rattle.const_env.specs.Held.{names_in};
ghost use Rattle.const_env.specs.Judging.{Judges};

use crate::env::Env;
use crate::fault::KindFault;
use crate::inside::{Inside, meant_inside};
use crate::meant::Meant;
use cal_model::Kind;
use rvc_base::Rule;
use std::alloc::Global;

/// The names and functions of an environment, and the names that are declared inside, which hide these.
#[derive(Clone, Copy)]
pub struct Names<'a> {
    pub alloc: Global,
    pub env: &'a Env,
    pub inner: Option<&'a Inside<'a>>,
}

impl<'a> Names<'a> {
    ghost use Rattle.const_env.specs.declared.inside.Inside.{out-Inside};

    /// The names of an environment, inside nothing.
    pub fn outermost(alloc: Global, env: &'a Env) -> Names<'a>
        ensures { names_view result ≡ names_in env.entry.now }
    {
        Names {
            alloc,
            env,
            inner: None,
        }
    }

    /// What is seen inside some variables and generators more.
    pub fn under<'b>(&self, inside: &'b Inside<'b>) -> Names<'b>
    where
        'a: 'b,
        requires { inner_variables (out-Inside inside.now).outer ≡ inner_variables self.now.inner }
        ensures { names_view result ≡ names_inside
            (named_by (out-Inside inside.now).gens.now
            (declared_by (own_variables (out-Inside inside.now).variables)
            (inner_variables self.now.inner)))
            self.now.env.now }
    {
        Names {
            alloc: self.alloc,
            env: self.env,
            inner: Some(inside),
        }
    }

    /// What a name means; none if it is unknown.
    pub fn meant(&self, name: &str) -> Option<Meant<'a>>
        ensures { option_map meant_view result
            ≡ option_map use_of (meant_by name.now (names_view self.now)) }
    {
        if let Some(meant) = meant_inside(name, self.inner) {
            return Some(meant);
        }
        self.env.meant(name)
    }

    /// The kind of a name.
    pub fn kind_of(&self, name: &str, at: u32) -> Result<Kind, KindFault>
        ensures { Judges kind_view result (kind (tree.variable name.now at) (names_view self.now)) }
    {
        match self.meant(name) {
            Some(meant) => Ok(meant.copied(self.alloc)?),
            None => Err(KindFault::Broken {
                rule: Rule::UNKNOWN_NAME,
                at,
            }),
        }
    }
}
