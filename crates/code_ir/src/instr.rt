//! The instructions of the stack machine, and code made of them.

use rvc_base::{Num, Scalar};

/// One instruction. The stack holds numbers; a truth value is 0 or 1.
///
/// `c`, `d` and `s` are cells, `n` is a count, `t` a place in the code, `p` a port and `k` a token of it.
/// A type says in which type a number is stored in a cell; with none it is stored unchanged.
#[derive(Clone, Copy, Debug, PartialEq, Eq)]
pub enum Instr {
    /// `v`: pushes the number.
    Const(Num),
    /// `c`: pushes the cell.
    Load(u32),
    /// `c`, type: pops a number into the cell.
    Store(u32, Option<Scalar>),
    /// `n`, `m`: pops an index i, then an offset o; pushes `o + i * m`. An index outside 0 to `n - 1` traps.
    Index(u32, u32),
    /// `c`, `n`: pops an offset o; pushes cell `c + o`. An offset outside 0 to `n - 1` traps.
    LoadAt(u32, u32),
    /// `c`, `n`, type: pops a number, then an offset o; stores the number in cell `c + o`. An offset outside
    /// 0 to `n - 1` traps.
    StoreAt(u32, u32, Option<Scalar>),
    /// `d`, `s`, `n`, type: stores the `n` cells from `s` in those from `d`, one after the other from the first.
    Copy(u32, u32, u32, Option<Scalar>),
    /// `d`, `n`, `s`, `m`, type: pops an offset o; stores the `m` cells from `s` in those from `d + o`. Cells
    /// outside the `n` cells from `d` trap.
    CopyTo(u32, u32, u32, u32, Option<Scalar>),
    /// `d`, `s`, `n`, `m`: pops an offset o; copies the `m` cells from `s + o` to those from `d`. Cells outside
    /// the `n` cells from `s` trap.
    CopyFrom(u32, u32, u32, u32),
    /// `p`, `k`: pushes the token.
    Token(u32, u32),
    /// `p`, `k`, `m`, `n`: pops an index i; pushes token `k + i * m`. An index outside 0 to `n - 1` traps.
    TokenAt(u32, u32, u32, u32),
    /// `d`, `p`, `k`, `m`, `n`: copies the tokens `k`, `k + m` and so on, `n` of them, to the cells from `d`.
    TokenList(u32, u32, u32, u32, u32),
    /// `c`, `n`: makes the `n` cells from `c` 0.
    Zero(u32, u32),
    /// Replaces the top by its opposite.
    Neg,
    /// Replaces the top by its other bits.
    BitNot,
    /// Replaces the top by the other truth value.
    Not,
    /// Pops two numbers, and pushes their sum. Here and below the right operand is the top.
    Add,
    Sub,
    Mul,
    /// The quotient, rounded towards 0.
    Div,
    /// What that quotient leaves.
    Mod,
    Shl,
    /// Rounds towards the lower number.
    Shr,
    And,
    Or,
    Xor,
    /// Pops two numbers, and pushes whether they are equal.
    Eq,
    Ne,
    Lt,
    Le,
    Gt,
    Ge,
    /// `t`: goes there.
    Jump(u32),
    /// `t`: pops a number, and goes there if it is 0.
    JumpIfNot(u32),
    /// Counts one turn.
    Turn,
    /// Runs the routine of this number, which leaves its results on the stack.
    Call(u32),
    /// Ends a routine.
    Return,
    /// Pops a number.
    Drop,
    /// Ends a guard: pops the answer, which is true if it isn't 0.
    Answer,
    /// Ends a firing.
    Done,
}

/// A routine: where its body starts, and how many numbers it leaves on the stack.
#[derive(Clone, Copy, Debug, PartialEq, Eq)]
pub struct Routine {
    pub start: u32,
    pub results: u8,
}

/// Code as it is written: one list of instructions, which the starts of the routines and the entries cut
/// into bodies.
#[derive(Drop)]
pub struct ActorCode {
    pub instrs: Vec<Instr>,
    pub routines: Vec<Routine>,
    /// The places where runs start.
    pub entries: Vec<u32>,
    /// How many cells the code has.
    pub cells: u32,
}
