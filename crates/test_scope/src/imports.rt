//! Actors with what their imports lead to, or the rule of scope that one of their files breaks.

use kit_scopes::{cut, file_told, scope_told};
use std::alloc::Global;
use std::process::Abort;

/// Stops unless the files of a row have their answer.
fn hold_row(rt: &impl Abort, a: Global, row: &str, behind: &str) {
    let (want, files) = cut(row, "\nfile ");
    let found = scope_told(a, files).expect(rt, "a text");
    let whole = format!(in a; "{want}{behind}").expect(rt, "a text");
    let holds = found.as_str() == whole.as_str();
    assert!(rt; holds, "{want} is wanted, and {found} is given");
}

/// Stops at the first row of a table whose answer is another; behind what is wanted stands a text that all rows have.
/// Each row begins with `# ` and what is wanted, and has a line `file ` for each file.
fn hold(rt: &impl Abort, a: Global, table: &str, behind: &str) {
    for row in table.split("\n# ") {
        if !row.is_empty() {
            hold_row(rt, a, row, behind);
        }
    }
}

#[test]
fn names_that_imports_bring(rt: HostRuntime) {
    hold(&rt, rt.alloc(), BROUGHT, SHOWN);
}

/// What the declarations of the unit `lib.U` print as.
const SHOWN: &str =
    "; lib.U.k in 2: int k = 1; lib.U.g in 2: function g ( int x ) --> int : x + lib.U.k end";

/// Actors whose imports bring names of the unit `lib.U`: one name, and all; for parameters and ports; hidden by a file's own
/// declaration, and by an inner name; the same thing twice; and one name by each of two imports.
const BROUGHT: &str = "
# actor A ( ) ==> : int x = lib.U.k ; end
file A import lib.U.k; actor A() ==> : int x = k; end
file lib.U package lib; unit U : int k = 1; function g(int x) --> int : x + k end end
# actor A ( ) ==> : int x = lib.U.g ( lib.U.k ) ; end
file A import lib.U.*; actor A() ==> : int x = g(k); end
file lib.U package lib; unit U : int k = 1; function g(int x) --> int : x + k end end
# actor A ( int ( size = lib.U.k ) p = lib.U.k ) int ( size = lib.U.k ) In ==> : end
file A import lib.U.k; actor A(int(size=k) p = k) int(size=k) In ==> : end
file lib.U package lib; unit U : int k = 1; function g(int x) --> int : x + k end end
# actor A ( ) ==> : int k = 2 ; int x = lib.U.g ( k ) ; end
file A import lib.U.*; actor A() ==> : int k = 2; int x = g(k); end
file lib.U package lib; unit U : int k = 1; function g(int x) --> int : x + k end end
# actor A ( ) ==> : function f ( int k ) --> int : k end end
file A import lib.U.*; actor A() ==> : function f(int k) --> int : k end end
file lib.U package lib; unit U : int k = 1; function g(int x) --> int : x + k end end
# actor A ( ) ==> : int x = lib.U.k ; end
file A import lib.U.k; import lib.U.*; actor A() ==> : int x = k; end
file lib.U package lib; unit U : int k = 1; function g(int x) --> int : x + k end end
# actor A ( ) ==> : int x = lib.U.g ( lib.U.k ) ; end
file A import lib.U.k; import lib.U.g; actor A() ==> : int x = g(k); end
file lib.U package lib; unit U : int k = 1; function g(int x) --> int : x + k end end";

#[test]
fn scopes_of_several_files(rt: HostRuntime) {
    hold(&rt, rt.alloc(), WHOLE, "");
}

/// Actors whose files are whole, with what they print as: a unit's declarations stand behind those that it imports, and each
/// file is gathered once; an import leads to what it doesn't bring; single names of two units in turn; calls that don't lead
/// back.
const WHOLE: &str = "
# actor A ( ) ==> : int x = 1 ; end
file p.A package p; actor A() ==> : int x = 1; end
# actor A ( ) ==> : int x = V.v + W.w ; end; U.u in 4: int u = 1; V.v in 2: int v = U.u; W.w in 3: int w = U.u
file A import V.*; import W.*; actor A() ==> : int x = v + w; end
file V import U.*; unit V : int v = u; end
file W import U.u; import V.v; unit W : int w = u; end
file U unit U : int u = 1; end
# actor A ( ) ==> : int x = V.v ; end; U.u in 3: int u = 1; V.v in 2: int v = U.u; V.t in 2: int t = 2
file A import V.v; actor A() ==> : int x = v; end
file V import U.*; unit V : int v = u; int t = 2; end
file U unit U : int u = 1; end
# actor A ( ) ==> : int x = U.u + U.w ; int y = V.v ; end; U.u in 2: int u = 1; U.w in 2: int w = 2; V.v in 3: int v = 3
file A import U.u; import V.v; import U.w; actor A() ==> : int x = u + w; int y = v; end
file U unit U : int u = 1; int w = 2; end
file V unit V : int v = 3; end
# actor A ( ) ==> : function f ( int x ) --> int : g ( g ( x ) ) end function g ( int x ) --> int : x end end
file A actor A() ==> : function f(int x) --> int : g(g(x)) end function g(int x) --> int : x end end";

#[test]
fn files_that_break_a_rule(rt: HostRuntime) {
    hold(&rt, rt.alloc(), BROKEN, "");
}

/// Actors of which a file breaks a rule: an unknown name, of a unit, and behind an import of another file; different things
/// under one name, also if the file's own declaration hides both; a file that isn't there; routines that call themselves,
/// directly, indirectly, in a unit, and procedures; a file that isn't what is asked for, by its kind, its name, its package;
/// and imports in a circle.
const BROKEN: &str = "
# S1 in 1 at 13
file A import lib.U.m; actor A() ==> : end
file lib.U package lib; unit U : int k = 1; function g(int x) --> int : x + k end end
# S1 in 1 at 29
file A import lib.U.k; import lib.U.m; actor A() ==> : end
file lib.U package lib; unit U : int k = 1; function g(int x) --> int : x + k end end
# S1 in 1 at 36
file A import V.*; actor A() ==> : int x = u; end
file V import U.*; unit V : int v = u; end
file U unit U : int u = 1; end
# S1 in 2 at 17
file A import V.*; actor A() ==> : end
file V unit V : int v = u; end
# S2 in 1 at 16
file A import lib.U.*; import V.k; actor A() ==> : int k = 3; end
file lib.U package lib; unit U : int k = 1; function g(int x) --> int : x + k end end
file V unit V : int k = 2; end
# S2 in 1 at 24
file A import U.u; import V.k; import U.k; actor A() ==> : end
file U unit U : int u = 1; int k = 2; end
file V unit V : int k = 3; end
# S2 in 2 at 20
file A import V.*; actor A() ==> : end
file V unit V : int k = 1; int k = 2; end
# S3 in 1 at 0
file A import lib.U.k; actor A() ==> : end
# S3 in 1 at 16
file A import lib.U.k; import lib.V.k; actor A() ==> : end
file lib.U package lib; unit U : int k = 1; end
# S4 in 1 at 44
file F actor F() ==> : function f(int x) --> int : f(x) end end
# S4 in 1 at 85
file F actor F() ==> : function f(int x) --> int : 1 + g(x) end function g(int x) --> int : f(x) end end
# S4 in 2 at 47
file A import V.*; actor A() ==> : end
file V unit V : function f(int x) --> int var int y = f(x) : y end end
# S4 in 1 at 82
file P actor P() ==> : procedure p() begin if true then q(); end end procedure q() begin p(); end end
# S5 in 1 at 0
file U unit U : end
# S5 in 1 at 0
file B actor A() ==> : end
# S5 in 1 at 0
file p.A actor A() ==> : end
# S5 in 1 at 0
file A package p; actor A() ==> : end
# S5 in 2 at 0
file A import B.x; actor A() ==> : end
file B actor B() ==> : int x = 1; end
# S6 in 3 at 11
file A import U.*; actor A() ==> : end
file U import V.*; unit U : end
file V package q; import U.*; unit V : end
# S6 in 2 at 0
file A import U.*; actor A() ==> : end
file U import U.*; unit U : end";

#[test]
fn files_by_their_classes(rt: HostRuntime) {
    for row in BY_CLASS.lines() {
        let (class, want) = cut(row, " = ");
        let found = file_told(rt.alloc(), THREE, class).expect(&rt, "a text");
        let holds = found.as_str().trim_end() == want;
        assert!(rt; holds, "{found}");
    }
}

const THREE: &str = "A import lib.U.k; actor A() ==> : end
file lib.U package lib; unit U : int k = 1; end
file U unit U : end";

/// Classes with the files that stand under them.
const BY_CLASS: &str = "A = import lib . U . k ; actor A ( ) ==> : end
lib.U = package lib ; unit U : int k = 1 ; end
U = unit U : end
lib = none
lib.A = none";
