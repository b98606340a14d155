//! Expressions, and the types whose arguments hold expressions.

ghost use Rattle.std.specs.Prelude.{◌≡◌, ℕ, IfOk, Ok, map};
ghost use Rattle.cal_ast.specs.View.{expr_tree, form_tree, gen_tree, type_tree, type_arg_tree};

use crate::ident::Ident;
use crate::part::{Part, both, boxed};
use std::alloc::{AllocError, Global};

/// A type: its name and its arguments, as in `int(size=8)`.
#[derive(Drop)]
#[cycle(expr)]
pub struct TypeExpr {
    pub name: Ident,
    pub args: Vec<TypeArg>,
    /// The offset of its first byte.
    pub at: u32,
}

/// An argument of a type.
#[derive(Drop)]
#[cycle(expr)]
pub enum TypeArg {
    /// `name : shape`
    Shape { name: Ident, shape: TypeExpr },
    /// `name = value`
    Value { name: Ident, value: Expr },
}

/// A generator of a comprehension: `for shape name in from .. to`.
#[derive(Drop)]
#[cycle(expr)]
pub struct Gen {
    pub shape: TypeExpr,
    pub name: Ident,
    pub from: Expr,
    pub to: Expr,
    /// The offset of its first byte.
    pub at: u32,
}

/// An expression.
///
/// If a pair of parentheses round it is dropped from the tree, `at` is the offset of the pair's
/// first parenthesis.
#[derive(Drop)]
#[cycle(expr)]
pub struct Expr {
    pub form: ExprForm,
    /// The offset of its first byte.
    pub at: u32,
}

/// What an expression is made of.
#[derive(Drop)]
#[cycle(expr)]
pub enum ExprForm {
    /// A literal number.
    Number(u128),
    /// `true` or `false`.
    Bool(bool),
    /// A variable.
    Name(String),
    /// `name ( args )`
    Call {
        name: String,
        args: Vec<Expr>,
    },
    /// A pair of parentheses whose content is no binary or prefix operation and no `if`; round such
    /// a content no pair is kept.
    Paren(Box<Expr>),
    /// `if test then yes else no end`
    If {
        test: Box<Expr>,
        yes: Box<Expr>,
        no: Box<Expr>,
    },
    /// `[ values ]`
    List(Vec<Expr>),
    /// `[ item : gens ]`
    Comp {
        item: Box<Expr>,
        gens: Vec<Gen>,
    },
    /// `base [ place ]`
    Index {
        base: Box<Expr>,
        place: Box<Expr>,
    },
    Prefix {
        op: PrefixOp,
        of: Box<Expr>,
    },
    Binary {
        op: BinOp,
        left: Box<Expr>,
        right: Box<Expr>,
    },
}

/// The operators before their operand.
#[derive(Clone, Copy, Debug, PartialEq, Eq)]
pub enum PrefixOp {
    /// `not`
    Not,
    /// `-`
    Neg,
    /// `~`
    BitNot,
}

/// The operators between two operands.
#[derive(Clone, Copy, Debug, PartialEq, Eq)]
pub enum BinOp {
    /// `or`, `||`
    Or,
    /// `and`, `&&`
    And,
    /// `|`
    BitOr,
    /// `^`
    BitXor,
    /// `&`
    BitAnd,
    /// `=`
    Eq,
    /// `!=`
    Ne,
    /// `<`
    Lt,
    /// `<=`
    Le,
    /// `>`
    Gt,
    /// `>=`
    Ge,
    /// `<<`
    Shl,
    /// `>>`
    Shr,
    /// `+`
    Add,
    /// `-`
    Sub,
    /// `*`
    Mul,
    /// `/`, `div`
    Div,
    /// `mod`
    Mod,
}

impl PrefixOp {
    /// An equal operator, which takes no memory.
    pub fn copy(&self, _alloc: Global) -> Result<PrefixOp, AllocError>
        ensures { result ≡ Ok self.now }
    {
        Ok(*self)
    }
}

impl BinOp {
    /// An equal operator, which takes no memory.
    pub fn copy(&self, _alloc: Global) -> Result<BinOp, AllocError>
        ensures { result ≡ Ok self.now }
    {
        let op = *self;
        Ok(op)
    }
}

impl TypeExpr {
    /// An equal type.
    ///
    /// # Errors
    ///
    /// `AllocError` if memory runs out.
    #[cycle(copy)]
    pub fn copy(&self, alloc: Global) -> Result<TypeExpr, AllocError>
        ensures { IfOk result (λ copied. type_tree copied ≡ type_tree self.now) }
    {
        let (name, args) = both(self.name.copy(alloc), copy_type_args(alloc, &self.args))?;
        Ok(TypeExpr {
            name,
            args,
            at: self.at,
        })
    }
}

impl TypeArg {
    /// An equal argument.
    ///
    /// # Errors
    ///
    /// `AllocError` if memory runs out.
    #[cycle(copy)]
    pub fn copy(&self, alloc: Global) -> Result<TypeArg, AllocError>
        ensures { IfOk result (λ copied. type_arg_tree copied ≡ type_arg_tree self.now) }
    {
        match self {
            TypeArg::Shape { name, shape } => {
                let (name, shape) = both(name.copy(alloc), shape.copy(alloc))?;
                Ok(TypeArg::Shape { name, shape })
            }
            TypeArg::Value { name, value } => {
                let (name, value) = both(name.copy(alloc), value.copy(alloc))?;
                Ok(TypeArg::Value { name, value })
            }
        }
    }
}

impl Gen {
    /// An equal generator.
    ///
    /// # Errors
    ///
    /// `AllocError` if memory runs out.
    #[cycle(copy)]
    pub fn copy(&self, alloc: Global) -> Result<Gen, AllocError>
        ensures { IfOk result (λ copied. gen_tree copied ≡ gen_tree self.now) }
    {
        let declared = both(self.shape.copy(alloc), self.name.copy(alloc));
        let range = both(self.from.copy(alloc), self.to.copy(alloc));
        let ((shape, name), (from, to)) = both(declared, range)?;
        Ok(Gen {
            shape,
            name,
            from,
            to,
            at: self.at,
        })
    }
}

impl Expr {
    /// An equal expression.
    ///
    /// # Errors
    ///
    /// `AllocError` if memory runs out.
    #[cycle(copy)]
    pub fn copy(&self, alloc: Global) -> Result<Expr, AllocError>
        ensures { IfOk result (λ copied. expr_tree copied ≡ expr_tree self.now) }
    {
        Ok(Expr {
            form: self.form.copy(alloc)?,
            at: self.at,
        })
    }
}

impl ExprForm {
    /// An equal form of an expression.
    ///
    /// # Errors
    ///
    /// `AllocError` if memory runs out.
    #[cycle(copy)]
    #[tactic(auto, using(crate::proofs::Forms::form_comp))]
    pub fn copy(&self, alloc: Global) -> Result<ExprForm, AllocError>
        ensures { IfOk result (λ copied. (at : ℕ) → form_tree copied at ≡ form_tree self.now at) }
    {
        match self {
            ExprForm::Number(value) => Ok(ExprForm::Number(*value)),
            ExprForm::Bool(value) => Ok(ExprForm::Bool(*value)),
            ExprForm::Name(text) => Ok(ExprForm::Name(text.clone()?)),
            ExprForm::Call { name, args } => {
                let (name, args) = both(name.clone(), copy_exprs(alloc, args))?;
                Ok(ExprForm::Call { name, args })
            }
            ExprForm::Paren(inner) => Ok(ExprForm::Paren(copy_box(alloc, inner)?)),
            ExprForm::If { test, yes, no } => Ok(ExprForm::If {
                test: copy_box(alloc, test)?,
                yes: copy_box(alloc, yes)?,
                no: copy_box(alloc, no)?,
            }),
            ExprForm::List(items) => Ok(ExprForm::List(copy_exprs(alloc, items)?)),
            ExprForm::Comp { item, gens } => {
                let (item, gens) = both(copy_box(alloc, item), copy_gens(alloc, gens))?;
                Ok(ExprForm::Comp { item, gens })
            }
            ExprForm::Index { base, place } => Ok(ExprForm::Index {
                base: copy_box(alloc, base)?,
                place: copy_box(alloc, place)?,
            }),
            ExprForm::Prefix { op, of } => Ok(ExprForm::Prefix {
                op: *op,
                of: copy_box(alloc, of)?,
            }),
            ExprForm::Binary { op, left, right } => {
                let (left, right) = both(copy_box(alloc, left), copy_box(alloc, right))?;
                Ok(ExprForm::Binary {
                    op: *op,
                    left,
                    right,
                })
            }
        }
    }
}

/// An equal expression on the heap.
#[cycle(copy)]
fn copy_box(alloc: Global, e: &Box<Expr>) -> Result<Box<Expr>, AllocError>
    ensures { IfOk result (λ copied. expr_tree copied.value ≡ expr_tree e.now.value) }
{
    boxed(alloc, e.copy(alloc))
}

/// Equal expressions in the same order.
#[cycle(copy)]
fn copy_exprs(alloc: Global, exprs: &[Expr]) -> Result<Vec<Expr>, AllocError>
    ensures { IfOk result (λ copied. map expr_tree copied.items ≡ map expr_tree exprs.now) }
{
    let mut copied = Vec::new(alloc);
    for e in exprs {
        copied.push(e.copy(alloc)?)?;
    }
    Ok(copied)
}

/// Equal arguments in the same order.
#[cycle(copy)]
fn copy_type_args(alloc: Global, args: &[TypeArg]) -> Result<Vec<TypeArg>, AllocError>
    ensures { IfOk result (λ copied. map type_arg_tree copied.items ≡ map type_arg_tree args.now) }
{
    let mut copied = Vec::new(alloc);
    for arg in args {
        copied.push(arg.copy(alloc)?)?;
    }
    Ok(copied)
}

/// Equal generators in the same order.
#[cycle(copy)]
fn copy_gens(alloc: Global, gens: &[Gen]) -> Result<Vec<Gen>, AllocError>
    ensures { IfOk result (λ copied. map gen_tree copied.items ≡ map gen_tree gens.now) }
{
    let mut copied = Vec::new(alloc);
    for gen_part in gens {
        copied.push(gen_part.copy(alloc)?)?;
    }
    Ok(copied)
}

impl Part for Expr {
    ghost tree = { expr_tree };

    fn copied(&self, alloc: Global) -> Result<Expr, AllocError> {
        self.copy(alloc)
    }
}

impl Part for TypeExpr {
    ghost tree = { type_tree };

    fn copied(&self, alloc: Global) -> Result<TypeExpr, AllocError> {
        self.copy(alloc)
    }
}
