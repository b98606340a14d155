//! The smallest source of each rule, checked: what breaks it, and the place that the report names. docs/RULES.md has
//! the same sources.

use crate::rows::decoder::text_of;
use crate::rows::running::hold_left;
use crate::rows::table::hold;
use kit_commands::{Row, cut};
use std::alloc::Global;
use std::process::Abort;
use std::thread::Threads;

#[test]
fn sources_break_each_rule(rt: HostRuntime) {
    hold(&rt, rt.alloc(), ACTORS, &[1000]);
    hold(&rt, rt.alloc(), NETWORKS, &[1000]);
    hold(&rt, rt.alloc(), NOT_CONSTANT, &[1000]);
}

/// Rules that actors break.
const ACTORS: &str = "
# B.cal actor B() ==> : int x = y; end
= refused S1 B.cal 24/ |  | [] | 4 Refused
rvc check B.cal
# B.cal actor B() ==> : int x; int x; end
= refused S2 B.cal 23/ |  | [] | 4 Refused
rvc check B.cal
# B.cal import U.x; actor B() ==> : end
= refused S3 B.cal 0/ |  | [] | 4 Refused
rvc check B.cal
# B.cal actor B() ==> : function f(int x) --> int : f(x) end end
= refused S4 B.cal 44/ |  | [] | 4 Refused
rvc check B.cal
# B.cal actor A() ==> : end
= refused S5 B.cal 0/ |  | [] | 4 Refused
rvc check B.cal
# B.cal import U.*; actor B() ==> : end
+ U.cal import U.*; unit U : end
= refused S6 U.cal 0/ |  | [] | 4 Refused
rvc check B.cal
# B.cal actor B() ==> : int x = true; end
= refused T1 B.cal 24/ |  | [] | 4 Refused
rvc check B.cal
# B.cal actor B() int(size=65) In ==> : end
= refused T2 B.cal 10/ |  | [] | 4 Refused
rvc check B.cal
# B.cal actor B() float In ==> : end
= refused T3 B.cal 10/ |  | [] | 4 Refused
rvc check B.cal
# B.cal actor B() ==> : int c = 1; action ==> do c := 2; end end
= refused T4 B.cal 41/ |  | [] | 4 Refused
rvc check B.cal
# B.cal actor B() ==> : List(type:int, size=2) x = [1]; end
= refused T5 B.cal 43/ |  | [] | 4 Refused
rvc check B.cal
# B.cal actor B() ==> : function f(int a) --> int : a end int x = f(); end
= refused T6 B.cal 58/ |  | [] | 4 Refused
rvc check B.cal
# B.cal actor B() ==> : int x = 1 / 0; end
= refused T7 B.cal 24/ |  | [] | 4 Refused
rvc check B.cal
# B.cal actor B() ==> : function f(List(type:int, size=1) a) --> int : 1 end end
= refused T8 B.cal 27/ |  | [] | 4 Refused
rvc check B.cal
# B.cal actor B() ==> : int x := y; int y := 1; end
= refused T9 B.cal 25/ |  | [] | 4 Refused
rvc check B.cal
# B.cal actor B() int In, int In ==> : end
= refused A1 B.cal 18/ |  | [] | 4 Refused
rvc check B.cal
# B.cal actor B() int In ==> : action [a], [b] ==> end end
= refused A2 B.cal 35/ |  | [] | 4 Refused
rvc check B.cal
# B.cal actor B() ==> : schedule fsm s : s (t) --> s; end end
= refused A3 B.cal 36/ |  | [] | 4 Refused
rvc check B.cal
# B.cal actor B() ==> : t: action ==> end schedule fsm s : s (t) --> s; s (t) --> u; end end
= refused A4 B.cal 64/ |  | [] | 4 Refused
rvc check B.cal
# B.cal actor B() ==> : t: action ==> end priority t > t; end end
= refused A5 B.cal 34/ |  | [] | 4 Refused
rvc check B.cal
# B.cal actor B() ==> : initialize ==> end initialize ==> end end
= refused A6 B.cal 35/ |  | [] | 4 Refused
rvc check B.cal
# B.cal actor B() int a, int b, int c, int d, int e, int f, int g, int h, int i, int j, int k, int l, int m, int n, int o, int p, int q, int r, int s, int t, int u, int v, int w, int x, int y, int z, int A, int B, int C, int D, int E, int F, int G ==> : end
= refused Z3 B.cal 0/ |  | [] | 4 Refused
rvc check B.cal
# B.cal actor B() ==> : List(type:int, size=16385) x; end
= refused Z4 B.cal 16/ |  | [] | 4 Refused
rvc check B.cal
# B.cal actor B() int In ==> : action In:[a] repeat 0 ==> end end
= refused Z5 B.cal 30/ |  | [] | 4 Refused
rvc check B.cal
# B.cal actor B() ==> : List(type:int, size=16384) a; List(type:int, size=16384) b; List(type:int, size=16384) c; List(type:int, size=16384) d; int e; end
= refused Z6 B.cal 0/ |  | [] | 4 Refused
rvc check B.cal
# B.cal actor B(int p) ==> : end
= refused N2 words 0/ |  | [] | 4 Refused
rvc check B.cal";

/// Rules that networks break.
const NETWORKS: &str = "
# T.xdf <XDF name=\"T\"><Port ki
= refused F1 T.xdf 22/ |  | [] | 4 Refused
rvc check T.xdf
# T.xdf <XDF name=\"T\"><Foo/></XDF>
= refused F2 T.xdf 14/ |  | [] | 4 Refused
rvc check T.xdf
# T.xdf <XDF/>
= refused F3 T.xdf 0/ |  | [] | 4 Refused
rvc check T.xdf
# T.xdf <?xml version=\"1.0\" encoding=\"latin1\"?><XDF name=\"T\"/>
= refused F4 T.xdf 0/ |  | [] | 4 Refused
rvc check T.xdf
# T.xdf <XDF name=\"U\"/>
= refused S5 T.xdf 0/ |  | [] | 4 Refused
rvc check T.xdf
# T.xdf <XDF name=\"T\"><Instance id=\"a\"><Class name=\"No\"/></Instance></XDF>
= refused N1 T.xdf 31/ |  | [] | 4 Refused
rvc check T.xdf
# T.xdf <XDF name=\"T\"><Instance id=\"a\"><Class name=\"T\"/></Instance></XDF>
= refused N3 T.xdf 31/ |  | [] | 4 Refused
rvc check T.xdf
# T.xdf <XDF name=\"T\"><Port kind=\"Input\" name=\"In\"><Type name=\"int\"/></Port><Instance id=\"a\"><Class name=\"Copy\"/></Instance><Connection src=\"\" src-port=\"In\" dst=\"a\" dst-port=\"In\"/><Connection src=\"\" src-port=\"In\" dst=\"a\" dst-port=\"In\"/></XDF>
+ Copy.cal actor Copy() int In ==> int Out : action In:[x] ==> Out:[x] end end
= refused N4 T.xdf 172/ |  | [] | 4 Refused
rvc check T.xdf
# T.xdf <XDF name=\"T\"><Port kind=\"Input\" name=\"In\"><Type name=\"int\"/></Port><Instance id=\"a\"><Class name=\"Copy\"/></Instance><Connection src=\"\" src-port=\"In\" dst=\"b\" dst-port=\"In\"/></XDF>
+ Copy.cal actor Copy() int In ==> int Out : action In:[x] ==> Out:[x] end end
= refused N5 T.xdf 116/ |  | [] | 4 Refused
rvc check T.xdf
# T.xdf <XDF name=\"T\"><Port kind=\"Input\" name=\"In\"><Type name=\"int\"/></Port><Instance id=\"a\"><Class name=\"Flag\"/></Instance><Connection src=\"\" src-port=\"In\" dst=\"a\" dst-port=\"In\"/></XDF>
+ Flag.cal actor Flag() bool In ==> : action In:[x] ==> end end
= refused N6 T.xdf 116/ |  | [] | 4 Refused
rvc check T.xdf
# T.xdf <XDF name=\"T\"><Port kind=\"Input\" name=\"In\"><Type name=\"int\"/></Port><Port kind=\"Output\" name=\"Out\"><Type name=\"int\"/></Port><Connection src=\"\" src-port=\"In\" dst=\"\" dst-port=\"Out\"/></XDF>
= refused N7 T.xdf 124/ |  | [] | 4 Refused
rvc check T.xdf
# T.xdf <XDF name=\"T\"><Port kind=\"Input\" name=\"In\"><Type name=\"int\"/></Port><Port kind=\"Input\" name=\"In\"><Type name=\"int\"/></Port></XDF>
= refused N8 T.xdf 68/ |  | [] | 4 Refused
rvc check T.xdf
# T.xdf <XDF name=\"T\"><Port kind=\"Input\" name=\"In\"><Type name=\"int\"/></Port><Instance id=\"a\"><Class name=\"Copy\"/></Instance><Connection src=\"\" src-port=\"In\" dst=\"a\" dst-port=\"In\"><Attribute name=\"bufferSize\"><Expr kind=\"Literal\" literal-kind=\"Integer\" value=\"0\"/></Attribute></Connection></XDF>
+ Copy.cal actor Copy() int In ==> int Out : action In:[x] ==> Out:[x] end end
= refused N9 T.xdf 171/ |  | [] | 4 Refused
rvc check T.xdf";

/// Actors inside which something isn't constant, or would be but for a function that breaks a rule. If that something isn't
/// constant is all, it is reported; else another rule is, wherever it stands.
const NOT_CONSTANT: &str = "
# B.cal actor B() int In ==> : int x := 1; action In:[y] repeat x ==> end end
= refused T9 B.cal 56/ |  | [] | 4 Refused
rvc check B.cal
# B.cal actor B() int In ==> : int x := 1; action In:[y] repeat x ==> end action In:[y] ==> guard 1 end end
= refused T1 B.cal 90/ |  | [] | 4 Refused
rvc check B.cal
# B.cal actor B() int In ==> : int x := 1; action In:[y] repeat x ==> end priority t > u; end end
= refused A3 B.cal 75/ |  | [] | 4 Refused
rvc check B.cal
# B.cal actor B() int In ==> : int x := 1; function g(int a) --> int var List(type:int, size=x) l : a end action In:[y] ==> guard 1 end end
= refused T1 B.cal 122/ |  | [] | 4 Refused
rvc check B.cal
# B.cal actor B() ==> : function g(int a) --> int var List(type:int, size=x) l : a end function f(int a) --> int : true end int x := f(1); end
= refused T1 B.cal 107/ |  | [] | 4 Refused
rvc check B.cal
# B.cal actor B() int In ==> : function f(int a) --> int : true end int x := f(1); action In:[y] repeat x ==> end end
= refused T1 B.cal 51/ |  | [] | 4 Refused
rvc check B.cal
# B.cal actor B() ==> : function f() --> int var int(size=n) t : 1 end int n = [f(), 8][1]; end
= refused T9 B.cal 71/ |  | [] | 4 Refused
rvc check B.cal
# B.cal actor B() ==> : function f() --> int var int(size=n) t : 1 end function g(int x) --> int : 8 end int n = g(f()); end
= refused T9 B.cal 105/ |  | [] | 4 Refused
rvc check B.cal
# B.cal actor B() ==> : function f() --> int var int(size=65) t : 1 end int n = [f(), 8][1]; end
= refused T2 B.cal 41/ |  | [] | 4 Refused
rvc check B.cal
# B.cal actor B() ==> : function f(int x) --> int var int(size=x) t : 1 end int n = [f(8), 8][1]; end
= refused T9 B.cal 55/ |  | [] | 4 Refused
rvc check B.cal
# B.cal actor B() ==> : function g() --> int : 1 + true end function f() --> int var int(size=g()) t : 1 end int n = [f(), 8][1]; end
= refused T1 B.cal 39/ |  | [] | 4 Refused
rvc check B.cal
# B.cal actor B() ==> : function f() --> int : 1 + true end List(type:int, size=f()) l; end
= refused T1 B.cal 39/ |  | [] | 4 Refused
rvc check B.cal
# B.cal actor B() uint(size=f()) In ==> : function f() --> int : 1 + true end end
= refused T1 B.cal 57/ |  | [] | 4 Refused
rvc check B.cal
# B.cal actor B() ==> : function f() --> int : 1 + true end int n = f(); List(type:int, size=n) l; end
= refused T1 B.cal 39/ |  | [] | 4 Refused
rvc check B.cal
# B.cal actor B(int p = f()) uint(size=p) In ==> : function f() --> int : 1 + true end end
= refused T1 B.cal 66/ |  | [] | 4 Refused
rvc check B.cal
# B.cal actor B() uint(size=g(1)) In ==> : function g(int(size=65) x) --> int : 8 end end
= refused T2 B.cal 46/ |  | [] | 4 Refused
rvc check B.cal
# B.cal actor B() ==> : function g(int(size=65) x) --> int : 8 end List(type:int, size=g(1)) l; end
= refused T2 B.cal 27/ |  | [] | 4 Refused
rvc check B.cal
# B.cal actor B() ==> : function h(int(size=g(1)) y) --> int : y end function g(int(size=65) x) --> int : 8 end end
= refused T2 B.cal 72/ |  | [] | 4 Refused
rvc check B.cal
# B.cal actor B() ==> : function f() --> bool : 1 = true end bool b = f(); bool c = b and 1 / 0 = 1; end
= refused T1 B.cal 40/ |  | [] | 4 Refused
rvc check B.cal
# B.cal actor B() ==> : function f() --> int : true end List(type:int, size=f()) l = [1, 2]; end
= refused T1 B.cal 39/ |  | [] | 4 Refused
rvc check B.cal
# B.cal actor B() int In ==> : function f() --> int : 1 + true end action In:[x] repeat f() ==> end end
= refused T1 B.cal 46/ |  | [] | 4 Refused
rvc check B.cal
# B.cal actor B() ==> : function f() --> int : 1 + true end int n = [i : for int i in 0 .. f()][0]; end
= refused T1 B.cal 39/ |  | [] | 4 Refused
rvc check B.cal
# B.cal actor B() ==> : function f() --> int : 1 + true end procedure q(int(size=f()) z) begin end end
= refused T1 B.cal 39/ |  | [] | 4 Refused
rvc check B.cal
# B.cal actor B() ==> : int k = 8; function f() --> int : k + true end List(type:int, size=f()) l; end
= refused T1 B.cal 50/ |  | [] | 4 Refused
rvc check B.cal
# B.cal actor B() ==> : function h(int(size=g(1)) y) --> int : y end function g(int(size=k) x) --> int : 8 end int k := 5; end
= refused T9 B.cal 81/ |  | [] | 4 Refused
rvc check B.cal
# B.cal import U.*; actor B() uint(size=f()) In ==> : end
+ U.cal unit U : function f() --> int : 1 + true end end
= refused T1 U.cal 32/ |  | [] | 4 Refused
rvc check B.cal
# T.xdf <XDF name=\"T\"><Instance id=\"b\"><Class name=\"B\"/><Parameter name=\"p\"><Expr kind=\"Literal\" literal-kind=\"Integer\" value=\"8\"/></Parameter></Instance></XDF>
+ B.cal actor B(int p) ==> : function f() --> int : 1 + true end List(type:int, size=p + f()) l; end
= refused T1 B.cal 44/ |  | [] | 4 Refused
rvc check T.xdf";

/// Sources at their limits: what the check of each leaves, and the pieces that it is made of (`text_of`). An actor of 257
/// actions; as many blanks as a file may have, behind the blank that ends its name, and one more; a name of 256 letters.
const LONG: &str = "
# refused Z2 X.cal 0/ |  | [] | 4 Refused
1 X.cal_actor_X()_==>_:
257 _action_==>_end
1 _end
# refused G1 X.cal 1048576/ |  | [] | 4 Refused
1 X.cal
1048577 _
# refused Z1 X.cal 1048576/ |  | [] | 4 Refused
1 X.cal
1048578 _
# refused Z11 X.cal 6/ |  | [] | 4 Refused
1 X.cal_actor_
256 a";

/// Stops unless each of these sources is refused as it should.
fn hold_long<R: Abort + Threads + Sync>(rt: &R, alloc: Global, table: &str) {
    for row in table.split("\n# ") {
        let (told, pieces) = cut(row, "\n");
        let file = text_of(alloc, pieces).expect(rt, "a text");
        if !file.is_empty() {
            let row = Row::of_line("rvc check X.cal", file.as_str(), 1000);
            hold_left(rt, alloc, &row, told);
        }
    }
}

#[test]
fn long_sources_are_refused(rt: HostRuntime) {
    hold_long(&rt, rt.alloc(), LONG);
}
