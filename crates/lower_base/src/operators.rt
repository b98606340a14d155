//! The instructions of operators and of seats.

ghost use Rattle.std.specs.Prelude.{◌≡◌, IfSome};
ghost use Rattle.cal_ast.specs.View.{expr_tree};
ghost use Rattle.lower_base.specs.Coding.{binary_instr, item_instr, prefix_instr, seat_instr};
ghost use Rattle.lower_base.specs.Growing.{IsNegative, IsOpposite};

use crate::names::{ItemList, Seat};
use cal_ast::{BinOp, Expr, ExprForm, PrefixOp};
use code_ir::Instr;
use rvc_base::Num;

/// The instruction of an operator before its operand.
pub fn prefix_instr(op: PrefixOp) -> Instr
    ensures { result ≡ prefix_instr op }
{
    match op {
        PrefixOp::Not => Instr::Not,
        PrefixOp::Neg => Instr::Neg,
        PrefixOp::BitNot => Instr::BitNot,
    }
}

/// The instruction of an operator between two operands; none if the right operand may not be evaluated.
pub fn binary_instr(op: BinOp) -> Option<Instr>
    ensures { result ≡ binary_instr op }
{
    match op {
        BinOp::Or => None,
        BinOp::And => None,
        BinOp::BitOr => Some(Instr::Or),
        BinOp::BitXor => Some(Instr::Xor),
        BinOp::BitAnd => Some(Instr::And),
        BinOp::Eq => Some(Instr::Eq),
        BinOp::Ne => Some(Instr::Ne),
        BinOp::Lt => Some(Instr::Lt),
        BinOp::Le => Some(Instr::Le),
        BinOp::Gt => Some(Instr::Gt),
        BinOp::Ge => Some(Instr::Ge),
        BinOp::Shl => Some(Instr::Shl),
        BinOp::Shr => Some(Instr::Shr),
        BinOp::Add => Some(Instr::Add),
        BinOp::Sub => Some(Instr::Sub),
        BinOp::Mul => Some(Instr::Mul),
        BinOp::Div => Some(Instr::Div),
        BinOp::Mod => Some(Instr::Mod),
    }
}

/// The instruction that pushes the single value of a seat.
pub(crate) fn seat_instr(seat: Seat) -> Instr
    ensures { result ≡ seat_instr seat }
{
    match seat {
        Seat::Cell(c) => Instr::Load(c),
        Seat::Tokens {
            port,
            first,
            step: _,
        } => Instr::Token(port, first),
    }
}

/// The instruction that pushes the item of a list whose place is on the stack.
pub fn item_instr(list: ItemList) -> Instr
    ensures { result ≡ item_instr list }
{
    match list.seat {
        Seat::Cell(c) => Instr::LoadAt(c, list.size),
        Seat::Tokens { port, first, step } => Instr::TokenAt(port, first, step, list.size),
    }
}

/// The number that a minus sign and a literal after it are together.
pub fn negative(op: PrefixOp, of: &Expr) -> Option<Num>
    ensures { IfSome result (IsNegative op (expr_tree of.now)) }
{
    if op != PrefixOp::Neg {
        return None;
    }
    match &of.form {
        ExprForm::Number(value) => opposite(*value),
        _ => None,
    }
}

/// The number with a minus sign, unless the number itself is too great.
fn opposite(value: u128) -> Option<Num>
    ensures { IfSome result (IsOpposite value) }
{
    match Num::try_from(value) {
        Ok(value) => Some(-value),
        Err(_) => None,
    }
}
