//! What an expression sees while it is evaluated.

ghost use Rattle.std.specs.Prelude.{◌≡◌, ◌-◌, ◌<◌, ℕ, None, [], IfSome, length, map, option_map};
ghost use Rattle.cal_ast.specs.View.{expr_tree};
ghost use Rattle.cal_model.specs.Call.{calls_of, calls_within};
ghost use Rattle.const_env.specs.Constants.{var_of};
ghost use Rattle.const_env.specs.Counting.{all_variables, hide};
ghost use Rattle.const_expr.specs.Evaluable.{env_of};
ghost use Rattle.const_env.specs.Held.{held};
ghost use Rattle.cal_model.specs.Env.{find, look_up, with_local};
ghost use Rattle.cal_model.specs.Expression.{eval};
ghost use Rattle.cal_model.specs.Outcome.{Gives, known};
ghost use Rattle.cal_model.specs.View.{value_view};
ghost use Rattle.const_env.specs.Outcome.{Evaluates};
ghost use Rattle.const_expr.specs.Scoping.{calls, chain, declared_name, frame, local_var, seen};

use cal_ast::{Expr, ExprForm, Ident};
use cal_model::{BoundFun, BoundLocal, Value};
use const_env::inside::meant_inside;
use const_env::value::copy;
use const_env::{Env, EvalError, Inside};
use std::alloc::Global;

/// What an expression sees while it is evaluated: locals, the arguments of the function that it stands in, and constants,
/// of which the former hide the latter; and the functions that it may call.
#[derive(Drop)]
pub struct Scope<'a> {
    pub alloc: Global,
    pub env: &'a Env,
    /// How many calls may still be open at once.
    pub depth: usize,
    /// The formals of the function that is called.
    pub formals: &'a [BoundLocal],
    /// Its arguments, each stored in its formal's type.
    pub arguments: &'a [Value],
    /// The locals, from the innermost outwards.
    pub innermost: Option<&'a Local<'a>>,
    /// The names that are declared round a constant expression, which hide constants.
    pub hidden: Option<&'a Inside<'a>>,
}

/// A local with its value, and those outside it.
#[derive(Drop)]
pub struct Local<'a> {
    pub of: Declared<'a>,
    pub value: Value,
    pub outer: Option<&'a Local<'a>>,
}

/// What declares a local.
#[derive(Clone, Copy)]
pub enum Declared<'a> {
    /// A local of a function.
    Local(&'a BoundLocal),
    /// A generator of a comprehension, by its name.
    Counter(&'a Ident),
}

impl<'a> Declared<'a> {
    /// Its name.
    fn name(self) -> &'a str
        ensures { result.now ≡ declared_name self.entry }
    {
        match self {
            Declared::Local(local) => local.name.as_str(),
            Declared::Counter(name) => name.text.as_str(),
        }
    }
}

impl<'a> Scope<'a> {
    ghost use Rattle.const_expr.specs.declared.scope.Local.{out-Local};

    /// What an expression sees that stands in no function.
    pub fn outermost(alloc: Global, env: &'a Env) -> Scope<'a>
        ensures seen { seen result ≡ env_of (held env.now) }
        ensures calls { calls result ≡ calls_of (held env.now).funs }
    {
        Scope {
            alloc,
            env,
            depth: env.fun_count(),
            formals: &[],
            arguments: &[],
            innermost: None,
            hidden: None,
        }
    }

    /// What a constant expression sees that stands inside names without a value.
    pub fn among(alloc: Global, env: &'a Env, inside: &'a Inside<'a>) -> Scope<'a>
        ensures seen { seen result ≡ record {
          globals = hide (all_variables inside.now)
              (map var_of (held env.now).values);
          locals = [];
        } }
        ensures calls { calls result ≡
            (λ globals. calls_of (held env.now).funs (map var_of (held env.now).values)) }
    {
        Scope {
            alloc,
            env,
            depth: env.fun_count(),
            formals: &[],
            arguments: &[],
            innermost: None,
            hidden: Some(inside),
        }
    }

    /// The same with one local more, which stands inside the others.
    pub fn inside<'b>(&self, local: &'b Local<'b>) -> Scope<'b>
    where
        'a: 'b,
        requires { chain (out-Local local.now).outer ≡ chain self.now.innermost }
        ensures seen { seen result ≡ with_local
            (local_var (out-Local local.now).of (value_view (out-Local local.now).value))
            (seen self.now) }
        ensures calls { calls result ≡ calls self.now }
        ensures depth { result.depth ≡ self.now.depth }
        ensures env { held result.env.now ≡ held self.now.env.now }
    {
        Scope {
            alloc: self.alloc,
            env: self.env,
            depth: self.depth,
            formals: self.formals,
            arguments: self.arguments,
            innermost: Some(local),
            hidden: self.hidden,
        }
    }

    /// What the function sees at first that is called with these arguments, each stored in its formal's type.
    pub fn entered<'b>(&self, fun: &'b BoundFun, arguments: &'b [Value]) -> Scope<'b>
    where
        'a: 'b,
        requires { 0 < self.now.depth }
        ensures seen { seen result ≡ record {
          globals = map var_of (held self.now.env.now).values;
          locals = frame
              fun.now.formals.items arguments.now;
        } }
        ensures calls { calls result ≡ calls_within (self.now.depth - 1)
            (held self.now.env.now).funs }
        ensures depth { result.depth ≡ self.now.depth - 1 }
        ensures env { held result.env.now ≡ held self.now.env.now }
    {
        Scope {
            alloc: self.alloc,
            env: self.env,
            depth: self.depth - 1,
            formals: &fun.formals,
            arguments,
            innermost: None,
            hidden: None,
        }
    }

    /// What a name means, as a value of its own.
    pub fn copied(&self, name: &str) -> Result<Value, EvalError>
        ensures { (left : ℕ) → Evaluates value_view result left
            (known (look_up name.now (seen self.now)) left) }
    {
        match self.value(name) {
            Some(value) => Ok(copy(self.alloc, value)?),
            None => Err(EvalError::Lacks),
        }
    }

    /// The value of an expression that is a name.
    pub fn named(&self, e: &Expr) -> Option<&Value>
        ensures { IfSome result (λ value. (left : ℕ) →
            eval (expr_tree e.now) (calls self.now) (seen self.now) left
            ≡ Gives (value_view value.now) left) }
    {
        match &e.form {
            ExprForm::Name(name) => self.value(name.as_str()),
            _ => None,
        }
    }

    /// What a name means: inner names hide outer ones.
    #[tactic(auto, using(const_env::proofs::Found::seen_local, const_env::proofs::Found::seen_argument, const_env::proofs::Found::seen_constant, const_env::proofs::Found::seen_hidden))]
    fn value(&self, name: &str) -> Option<&Value>
        ensures { option_map (λ v. value_view v.now) result ≡ look_up name.now (seen self.now) }
    {
        if let Some(value) = local_value(name, self.innermost) {
            return Some(value);
        }
        if let Some(value) = argument(name, self.formals, self.arguments) {
            return Some(value);
        }
        if let Some(_) = meant_inside(name, self.hidden) {
            return None;
        }
        self.env.value(name)
    }
}

/// The value of the local of the name.
fn local_value<'a>(name: &str, innermost: Option<&'a Local<'a>>) -> Option<&'a Value>
    ensures { option_map (λ v. value_view v.now) result ≡ find name.now (chain innermost.entry) }
{
    let mut at = innermost;
    'outwards: while let Some(local) = at {
        if local.of.name() == name {
            return Some(&local.value);
        }
        at = local.outer;
    }
    None
}

/// The argument of the name. A later formal hides an earlier one of its name.
fn argument<'a>(name: &str, formals: &'a [BoundLocal], arguments: &'a [Value]) -> Option<&'a Value>
    ensures { option_map (λ v. value_view v.now) result
        ≡ find name.now (frame formals.now arguments.now) }
{
    let mut place = formals.len().min(arguments.len());
    'backwards: while place > 0 {
        place -= 1;
        if formals[place].name.as_str() == name {
            return Some(&arguments[place]);
        }
    }
    None
}
