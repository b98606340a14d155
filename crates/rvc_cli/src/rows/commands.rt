//! Commands of all verbs: what is no job, what is refused, and what checks, prints and certifies.

use crate::rows::table::{STEPS, hold};

#[test]
fn words_that_are_no_job_are_usage(rt: HostRuntime) {
    hold(&rt, rt.alloc(), USAGES, STEPS);
}

/// Words that are no job leave the cause and how the program is used.
const USAGES: &str = "
# Inc.cal actor Inc() uint(size=8) In ==> uint(size=8) Out : action In:[a] ==> Out:[a + 1] end end
= usage words/rvc VERB TOP [PORT=FILE ..] [--trace FILE] [--workers N] [--round P] [--burst N] [--budget N] [--grow N]/ |  | [] | 1 Usage
rvc
= usage verb/rvc VERB TOP [PORT=FILE ..] [--trace FILE] [--workers N] [--round P] [--burst N] [--budget N] [--grow N]/ |  | [] | 1 Usage
rvc go Inc.cal
= usage top/rvc VERB TOP [PORT=FILE ..] [--trace FILE] [--workers N] [--round P] [--burst N] [--budget N] [--grow N]/ |  | [] | 1 Usage
rvc run Inc.txt --trace t
= usage number/rvc VERB TOP [PORT=FILE ..] [--trace FILE] [--workers N] [--round P] [--burst N] [--budget N] [--grow N]/ |  | [] | 1 Usage
rvc run Inc.cal --workers 65 --trace t
= usage round/rvc VERB TOP [PORT=FILE ..] [--trace FILE] [--workers N] [--round P] [--burst N] [--budget N] [--grow N]/ |  | [] | 1 Usage
rvc run Inc.cal --round x --trace t
= usage port/rvc VERB TOP [PORT=FILE ..] [--trace FILE] [--workers N] [--round P] [--burst N] [--budget N] [--grow N]/ |  | [] | 1 Usage
rvc run Inc.cal In --trace t
= usage trace/rvc VERB TOP [PORT=FILE ..] [--trace FILE] [--workers N] [--round P] [--burst N] [--budget N] [--grow N]/ |  | [] | 1 Usage
rvc run Inc.cal";

#[test]
fn refusals_name_a_rule_and_its_place(rt: HostRuntime) {
    hold(&rt, rt.alloc(), REFUSALS, STEPS);
}

/// What refuses these words and this source.
const REFUSALS: &str = "
# Inc.cal actor Inc() uint(size=8) In ==> uint(size=8) Out : action In:[a] ==> Out:[a + 1] end end
= refused N1 words 0/ |  | [] | 4 Refused
rvc run No.cal In=in Out=out --trace t
rvc run Inc.xdf In=in Out=out --trace t
rvc run None.cal --trace t
= refused P1 words 0/ |  | [] | 4 Refused
rvc gen 1 In=in --trace t
rvc check Inc.cal In=in
rvc certify Inc.cal Out=out
rvc run Inc.cal Inn=in --trace t
rvc run Inc.cal X=in X=in --trace t
rvc run One.xdf --trace t Inn=in
= refused P1 words 1/ |  | [] | 4 Refused
rvc replay Inc.cal In=in Out=out --trace t
rvc run Inc.cal In=in Inn=in --trace t
rvc run Inc.cal Out=out X=in --trace t
= refused P2 words 1/ |  | [] | 4 Refused
rvc run Inc.cal In=in In=in --trace t
rvc run Inc.cal In=in In=in X=in --trace t
= refused P2 words 2/ |  | [] | 4 Refused
rvc run Inc.cal In=in Out=out In=in --trace t
rvc run One.xdf --trace t In=in Out=out In=out
= refused P1 words 2/ |  | [] | 4 Refused
rvc run Inc.cal Out=o In=in X=in --trace t
# Inc.cal actor B() \"
= refused L5 Inc.cal 10/ |  | [] | 4 Refused
rvc run Inc.cal In=in Out=out --trace t
rvc fmt Inc.cal
# Inc.cal actor B() uint(size=8) In ==> 
= refused G1 Inc.cal 30/ |  | [] | 4 Refused
rvc run Inc.cal In=in Out=out --trace t
# Inc.cal  unit U : end
= refused S5 Inc.cal 0/ |  | [] | 4 Refused
rvc run Inc.cal In=in Out=out --trace t
# Inc.cal 
= refused G1 Inc.cal 0/ |  | [] | 4 Refused
rvc fmt Inc.cal
rvc fmt Inc.cal In=in
# Inc.cal actor Inc() uint(size=8) In ==> uint(size=8) Out : action In:[a] ==> Out:[a+1] endaction endactor
= refused N1 words 0/ |  | [] | 4 Refused
rvc fmt No.cal
rvc fmt a/Inc.cal
= refused P1 words 0/ |  | [] | 4 Refused
rvc fmt Inc.cal In=in
rvc fmt Inc.cal Out=out In=in";

#[test]
fn fmt_prints_the_canonical_text(rt: HostRuntime) {
    hold(&rt, rt.alloc(), PRINTS, STEPS);
}

/// A source, and its canonical text.
const PRINTS: &str = "
# Inc.cal actor Inc() uint(size=8) In ==> uint(size=8) Out : action In:[a] ==> Out:[a+1] endaction endactor
= actor Inc ( ) uint ( size = 8 ) In ==> uint ( size = 8 ) Out : action In : [ a ] ==> Out : [ a + 1 ] end/end/ |  | [] | 0 Done
rvc fmt Inc.cal
rvc fmt Inc.cal --trace t --workers 2 --round turn --burst 63 --budget 1
# Inc.cal actor Inc ( ) uint ( size = 8 ) In ==> uint ( size = 8 ) Out : action In : [ a ] ==> Out : [ a + 1 ] end\nend\n
= actor Inc ( ) uint ( size = 8 ) In ==> uint ( size = 8 ) Out : action In : [ a ] ==> Out : [ a + 1 ] end/end/ |  | [] | 0 Done
rvc fmt Inc.cal
rvc fmt Inc.cal --trace t --workers 2 --round turn --burst 63 --budget 1";

#[test]
fn checks_and_certifying_end_as_they_should(rt: HostRuntime) {
    hold(&rt, rt.alloc(), VERDICTS, STEPS);
}

/// An actor, a network in which two actors stand in a row, actors that aren't certified, networks of both kinds, and
/// files that break a rule: a schedule that can go two ways, a priority that is a cycle, a type of reals, a network
/// inside itself, and one that breaks off.
const VERDICTS: &str = "
# A.cal actor A () int(size=16) In ==> int(size=16) Out : action In:[x] ==> Out:[x] end end
+ Row.xdf <XDF name='Row'><Port kind='Input' name='In'><Type name='bool'/></Port><Port kind='Output' name='Out'><Type name='bool'/></Port><Instance id='a'><Class name='B'/></Instance><Instance id='b'><Class name='B'/></Instance><Connection src='' src-port='In' dst='a' dst-port='In'/><Connection src='a' src-port='Out' dst='b' dst-port='In'/><Connection src='b' src-port='Out' dst='' dst-port='Out'/></XDF>
+ B.cal actor B () bool In ==> bool Out : action In:[x] ==> Out:[x] end end
+ Alt.cal actor Alt() uint(size=8) A, uint(size=8) B ==> uint(size=8) Out : uint(size=1) s := 0; ta: action A:[x] ==> Out:[x] guard s = 0 do s := 1; end tb: action B:[x] ==> Out:[x] guard s != 0 do s := 0; end end
+ Dz.cal actor Dz() uint(size=8) In ==> : action In:[v, d] ==> guard v / d = 1 end end
+ Mix.xdf <XDF name='Mix'><Instance id='a'><Class name='A'/></Instance><Instance id='b'><Class name='Dz'/></Instance><Instance id='c'><Class name='A'/></Instance><Instance id='d'><Class name='Dz'/></Instance><Connection src='a' src-port='Out' dst='b' dst-port='In'/></XDF>
+ Amb.cal actor Amb() uint(size=8) In ==> : a.x: action In:[v] ==> end schedule fsm s : s (a) --> s; s (a.x) --> t; end end
+ Cyc.cal actor Cyc() uint(size=8) In ==> : a: action In:[v] ==> end b: action In:[v] ==> end c: action In:[v] ==> end priority a > b; b > c; c > a; end end
+ Fl.cal actor Fl() float In ==> : end
+ Self.xdf <XDF name=\"Self\"><Instance id=\"a\"><Class name=\"Self\"/></Instance></XDF>
+ T.xdf <XDF name=\"T\"><Port ki
= instances 1/links 2/done/ |  | [] | 0 Done
rvc check A.cal
= instances 2/links 3/done/ |  | [] | 0 Done
rvc check Row.xdf
= refused P1 words 0/ |  | [] | 4 Refused
rvc check A.cal In=i Out=o
rvc check Row.xdf Inn=i
rvc certify A.cal Out=o
rvc certify Dz.cal In=i
= refused N1 words 0/ |  | [] | 4 Refused
rvc check No.cal
= refused A4 Amb.cal 91/ |  | [] | 4 Refused
rvc check Amb.cal
rvc certify Amb.cal
= refused A5 Cyc.cal 109/ |  | [] | 4 Refused
rvc check Cyc.cal
= refused T3 Fl.cal 11/ |  | [] | 4 Refused
rvc check Fl.cal
= refused N3 Self.xdf 34/ |  | [] | 4 Refused
rvc check Self.xdf
= refused F1 T.xdf 22/ |  | [] | 4 Refused
rvc check T.xdf
rvc check T.xdf In=i
rvc certify T.xdf Out=o
= read fault A.cal/ |  | [] | 2 ReadFault
1000 1 0 0: rvc check A.cal
= instances |  | [] | 3 WriteFault
1000 0 0 2: rvc check A.cal
= certified 1/done/ |  | [] | 0 Done
rvc certify A.cal
rvc certify Alt.cal
= certified 2/done/ |  | [] | 0 Done
rvc certify Row.xdf
= certified 0/uncertified 0 0 0 1 C1/ |  | [] | 10 Uncertified
rvc certify Two.cal
= certified 0/uncertified 0 0 0 0 C4/ |  | [] | 10 Uncertified
rvc certify Dz.cal
= certified 2/uncertified 1 0 0 0 C4/ |  | [] | 10 Uncertified
rvc certify Mix.xdf
= read fault Mix.xdf/ |  | [] | 2 ReadFault
1000 1 0 0: rvc certify Mix.xdf
= certified |  | [] | 3 WriteFault
1000 0 0 2: rvc certify A.cal
# Inc.cal actor Inc() uint(size=8) In ==> uint(size=8) Out : action In:[a] ==> Out:[a + 1] end end
= instances 1/links 2/done/ |  | [] | 0 Done
rvc check Inc.cal
= certified 1/done/ |  | [] | 0 Done
rvc certify Inc.cal
= instances 2/links 3/done/ |  | [] | 0 Done
rvc check Net.xdf
= certified 1/uncertified 1 0 0 1 C1/ |  | [] | 10 Uncertified
rvc certify Net.xdf";
