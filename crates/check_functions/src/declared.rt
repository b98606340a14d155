//! Functions as they are declared.

ghost use Rattle.std.specs.Prelude.{◌≡◌};
ghost use Rattle.check_functions.specs.Known.{fun_decls, is_named_in, names_differ};

use cal_ast::Function;

/// A function of a file, by the text that stands for it where it is used.
#[derive(Clone, Copy)]
pub struct DeclaredFun<'a> {
    pub name: &'a str,
    /// The number of its file.
    pub file: u32,
    pub decl: &'a Function,
}

/// Whether a function of the name is among these.
fn is_named_in(name: &str, funs: &[DeclaredFun]) -> bool
    ensures { result ≡ is_named_in name.now (fun_decls funs.now) }
{
    for f in funs {
        if name == f.name {
            return true;
        }
    }
    false
}

/// Whether the names of the functions differ.
pub fn names_differ(funs: &[DeclaredFun]) -> bool
    ensures { result ≡ names_differ (fun_decls funs.now) }
{
    let mut behind = 0usize;
    for f in funs {
        behind += 1;
        if is_named_in(f.name, &funs[behind..]) {
            return false;
        }
    }
    true
}
