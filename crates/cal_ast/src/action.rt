//! Actions, and what orders them: schedules and priorities.

ghost use Rattle.std.specs.Prelude.{◌≡◌, IfOk};
ghost use Rattle.cal_ast.specs.View.{action_tree, pattern_tree, output_tree, schedule_tree, move_tree, priority_tree};

use crate::expr::Expr;
use crate::ident::{Ident, Tag};
use crate::member::VarDecl;
use crate::part::{Part, copy_all, copy_three, copy_two};
use crate::stmt::Stmt;
use std::alloc::{AllocError, Global};

/// An action, or an `initialize`.
#[derive(Drop)]
pub struct Action {
    pub tag: Option<Tag>,
    /// Whether it is an `initialize`.
    pub initialize: bool,
    pub patterns: Vec<Pattern>,
    pub outputs: Vec<Output>,
    pub guards: Vec<Expr>,
    pub vars: Vec<VarDecl>,
    /// Absent if it has no `do`.
    pub body: Option<Vec<Stmt>>,
    /// The offset of its first byte.
    pub at: u32,
}

/// What an action takes from one port: `port : [ names ] repeat repeat`.
#[derive(Drop)]
pub struct Pattern {
    pub port: Option<Ident>,
    pub names: Vec<Ident>,
    pub repeat: Option<Expr>,
    /// The offset of its first byte.
    pub at: u32,
}

/// What an action sends to one port: `port : [ values ] repeat repeat`.
#[derive(Drop)]
pub struct Output {
    pub port: Option<Ident>,
    pub values: Vec<Expr>,
    pub repeat: Option<Expr>,
    /// The offset of its first byte.
    pub at: u32,
}

/// `schedule fsm start : moves end`
#[derive(Drop)]
pub struct Schedule {
    pub start: Ident,
    pub moves: Vec<Move>,
    /// The offset of its first byte.
    pub at: u32,
}

/// A transition of a schedule: `from ( tags ) --> to ;`
#[derive(Drop)]
pub struct Move {
    pub from: Ident,
    pub tags: Vec<Tag>,
    pub to: Ident,
    /// The offset of its first byte.
    pub at: u32,
}

/// `priority chains end`: in each chain a tag is above those after it.
#[derive(Drop)]
pub struct Priority {
    pub chains: Vec<Vec<Tag>>,
    /// The offset of its first byte.
    pub at: u32,
}

impl Action {
    /// An equal action.
    ///
    /// # Errors
    ///
    /// `AllocError` if memory runs out.
    #[tactic(auto, using(crate::proofs::Forms::body_parts))]
    pub fn copy(&self, alloc: Global) -> Result<Action, AllocError>
        ensures { IfOk result (λ copied. action_tree copied ≡ action_tree self.now) }
    {
        let (tag, patterns, outputs) = copy_three(alloc, &self.tag, &self.patterns, &self.outputs)?;
        let (guards, vars, body) = copy_three(alloc, &self.guards, &self.vars, &self.body)?;
        Ok(Action {
            tag,
            initialize: self.initialize,
            patterns,
            outputs,
            guards,
            vars,
            body,
            at: self.at,
        })
    }
}

impl Pattern {
    /// An equal input pattern.
    ///
    /// # Errors
    ///
    /// `AllocError` if memory runs out.
    pub fn copy(&self, alloc: Global) -> Result<Pattern, AllocError>
        ensures { IfOk result (λ copied. pattern_tree copied ≡ pattern_tree self.now) }
    {
        let (port, names, repeat) = copy_three(alloc, &self.port, &self.names, &self.repeat)?;
        Ok(Pattern {
            port,
            names,
            repeat,
            at: self.at,
        })
    }
}

impl Part for Pattern {
    ghost tree = { pattern_tree };

    fn copied(&self, alloc: Global) -> Result<Pattern, AllocError> {
        self.copy(alloc)
    }
}

impl Output {
    /// An equal output.
    ///
    /// # Errors
    ///
    /// `AllocError` if memory runs out.
    pub fn copy(&self, alloc: Global) -> Result<Output, AllocError>
        ensures { IfOk result (λ copied. output_tree copied ≡ output_tree self.now) }
    {
        let (port, values, repeat) = copy_three(alloc, &self.port, &self.values, &self.repeat)?;
        Ok(Output {
            port,
            values,
            repeat,
            at: self.at,
        })
    }
}

impl Part for Output {
    ghost tree = { output_tree };

    fn copied(&self, alloc: Global) -> Result<Output, AllocError> {
        self.copy(alloc)
    }
}

impl Schedule {
    /// An equal schedule.
    ///
    /// # Errors
    ///
    /// `AllocError` if memory runs out.
    pub fn copy(&self, alloc: Global) -> Result<Schedule, AllocError>
        ensures { IfOk result (λ copied. schedule_tree copied ≡ schedule_tree self.now) }
    {
        let (start, moves) = copy_two(alloc, &self.start, &self.moves)?;
        Ok(Schedule {
            start,
            moves,
            at: self.at,
        })
    }
}

impl Move {
    /// An equal transition.
    ///
    /// # Errors
    ///
    /// `AllocError` if memory runs out.
    pub fn copy(&self, alloc: Global) -> Result<Move, AllocError>
        ensures { IfOk result (λ copied. move_tree copied ≡ move_tree self.now) }
    {
        let (from, tags, to) = copy_three(alloc, &self.from, &self.tags, &self.to)?;
        Ok(Move {
            from,
            tags,
            to,
            at: self.at,
        })
    }
}

impl Part for Move {
    ghost tree = { move_tree };

    fn copied(&self, alloc: Global) -> Result<Move, AllocError> {
        self.copy(alloc)
    }
}

impl Priority {
    /// Equal chains of tags.
    ///
    /// # Errors
    ///
    /// `AllocError` if memory runs out.
    pub fn copy(&self, alloc: Global) -> Result<Priority, AllocError>
        ensures { IfOk result (λ copied. priority_tree copied ≡ priority_tree self.now) }
    {
        Ok(Priority {
            chains: copy_all(alloc, &self.chains)?,
            at: self.at,
        })
    }
}
