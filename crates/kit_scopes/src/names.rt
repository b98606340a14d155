//! The names that rows use.

use cal_scope::{FileNames, Role};
use rvc_base::Memory;
use std::alloc::Global;

/// The names that rows use: of the file the variable `n`, the function `f` and the procedure `p`, and of the unit
/// `lib.U` the variable `k` and the function `g`.
pub fn names_of(a: Global) -> Result<FileNames, Memory> {
    let mut names = FileNames::new(a);
    for &(name, role, full) in NAMES {
        if !names.has(name) {
            names.add(name, role, full)?;
        }
    }
    Ok(names)
}

const NAMES: &[(&str, Role, &str)] = &[
    ("n", Role::Variable, "n"),
    ("f", Role::Function, "f"),
    ("p", Role::Procedure, "p"),
    ("k", Role::Variable, "lib.U.k"),
    ("g", Role::Function, "lib.U.g"),
];
