//! Sources with what the check of them reports: the numbers of the network that they mean, or the rule that they break and
//! where.

use crate::rows::table::hold;

#[test]
fn sources_are_checked(rt: HostRuntime) {
    hold(&rt, rt.alloc(), FILES, &[1000]);
    hold(&rt, rt.alloc(), ACTIONS, &[1000]);
}

/// Whole sources.
const FILES: &str = "
# A.cal actor A() uint(size=8) In ==> uint(size=8) Out : action In:[a] ==> Out:[a + 1] end end
= instances 1/links 2/done/ |  | [] | 0 Done
rvc check A.cal
# A.cal /* an **/actor//x\n A/**/(\t)\r\nuint(size/*/*/=0x8)In==>uint(size=8)Out:action In:[a]==>Out:[a*1]endaction//\nend\u{c}// the end
= instances 1/links 2/done/ |  | [] | 0 Done
rvc check A.cal
# A.cal actor A() \u{7f}
= refused L1 A.cal 10/ |  | [] | 4 Refused
rvc check A.cal
# A.cal actor A() /* never closed
= refused L2 A.cal 10/ |  | [] | 4 Refused
rvc check A.cal
# A.cal 
= refused G1 A.cal 0/ |  | [] | 4 Refused
rvc check A.cal
# A.cal actor B() uint(size=8) In ==> 
= refused G1 A.cal 30/ |  | [] | 4 Refused
rvc check A.cal
# A.cal actor end() uint(size=8) In
= refused G1 A.cal 6/ |  | [] | 4 Refused
rvc check A.cal
# A.cal actors A()
= refused G1 A.cal 0/ |  | [] | 4 Refused
rvc check A.cal
# A.cal package p; actor A() ==> : end
= refused S5 A.cal 0/ |  | [] | 4 Refused
rvc check A.cal
# A.cal  import p.U; actor A() ==> : end
= refused S3 A.cal 1/ |  | [] | 4 Refused
rvc check A.cal
# A.cal unit U : end
= refused S5 A.cal 0/ |  | [] | 4 Refused
rvc check A.cal
# A.cal actor A(int K) uint(size=8) In ==> uint(size=8) Out : end
= refused N2 words 0/ |  | [] | 4 Refused
rvc check A.cal
# A.cal actor A() ==> uint(size=8) Out : end
= instances 1/links 1/done/ |  | [] | 0 Done
rvc check A.cal
# A.cal actor A() uint(size=16) In ==> uint(size=8) Out : end
= instances 1/links 2/done/ |  | [] | 0 Done
rvc check A.cal
# A.cal actor A() uint(size=8) In, uint(size=8) B ==> : end
= instances 1/links 2/done/ |  | [] | 0 Done
rvc check A.cal
# A.cal actor A() uint(size=8) In ==> uint(size=8) Out : end
= instances 1/links 2/done/ |  | [] | 0 Done
rvc check A.cal";

/// Actions: each begins at 49, and its text at 56.
const ACTIONS: &str = "
# A.cal actor A() uint(size=8) In ==> uint(size=8) Out : action In:[a] ==> Out:[a+1] end end
= instances 1/links 2/done/ |  | [] | 0 Done
rvc check A.cal
# A.cal actor A() uint(size=8) In ==> uint(size=8) Out : action In:[a] ==> Out:[1 - a] end end
= instances 1/links 2/done/ |  | [] | 0 Done
rvc check A.cal
# A.cal actor A() uint(size=8) In ==> uint(size=8) Out : action In:[a] ==> Out:[(a + 1)] end end
= instances 1/links 2/done/ |  | [] | 0 Done
rvc check A.cal
# A.cal actor A() uint(size=8) In ==> uint(size=8) Out : action In:[a] ==> Out:[999999999 * 0] end end
= instances 1/links 2/done/ |  | [] | 0 Done
rvc check A.cal
# A.cal actor A() uint(size=8) In ==> uint(size=8) Out : action In:[a] ==> Out:[a + 08] end end
= refused L6 A.cal 76/ |  | [] | 4 Refused
rvc check A.cal
# A.cal actor A() uint(size=8) In ==> uint(size=8) Out : action In:[a] ==> Out:[a + 1x] end end
= refused L4 A.cal 76/ |  | [] | 4 Refused
rvc check A.cal
# A.cal actor A() uint(size=8) In ==> uint(size=8) Out : action In:[a] ==> Out:[a + 1.5] end end
= refused L4 A.cal 76/ |  | [] | 4 Refused
rvc check A.cal
# A.cal actor A() uint(size=8) In ==> uint(size=8) Out : action In:=[a] ==> Out:[a + 1] end end
= refused G1 A.cal 58/ |  | [] | 4 Refused
rvc check A.cal
# A.cal actor A() uint(size=8) In ==> uint(size=8) Out : action In:[a] ==> Out:[a + 1] end end e end end
= refused G1 A.cal 87/ |  | [] | 4 Refused
rvc check A.cal
# A.cal actor A() uint(size=8) In ==> uint(size=8) Out : action In:[a] ==> Out:[1000000000 + a] end end
= instances 1/links 2/done/ |  | [] | 0 Done
rvc check A.cal
# A.cal actor A() uint(size=8) In ==> uint(size=8) Out : action In:[a] ==> Out:[a / 1] end end
= instances 1/links 2/done/ |  | [] | 0 Done
rvc check A.cal
# A.cal actor A() uint(size=8) In ==> uint(size=8) Out : action In:[a] ==> Out:[(a) + 1] end end
= instances 1/links 2/done/ |  | [] | 0 Done
rvc check A.cal
# A.cal actor A() uint(size=8) In ==> uint(size=8) Out : action In:[a] ==> Out:[a + b] end end
= refused S1 A.cal 76/ |  | [] | 4 Refused
rvc check A.cal
# A.cal actor A() uint(size=8) In ==> uint(size=8) Out : action Out:[a] ==> Out:[a + 1] end end
= refused S5 A.cal 56/ |  | [] | 4 Refused
rvc check A.cal
# A.cal actor A() uint(size=8) In ==> uint(size=8) Out : action In:[a] ==> In:[a + 1] end end
= refused S5 A.cal 67/ |  | [] | 4 Refused
rvc check A.cal
# A.cal actor A() uint(size=8) In ==> uint(size=8) Out : action In:[a, b] ==> Out:[a + 1] end end
= instances 1/links 2/done/ |  | [] | 0 Done
rvc check A.cal
# A.cal actor A() uint(size=8) In ==> uint(size=8) Out : action In:[a] repeat 2 ==> Out:[a + 1] end end
= refused T1 A.cal 81/ |  | [] | 4 Refused
rvc check A.cal
# A.cal actor A() uint(size=8) In ==> uint(size=8) Out : action In:[a], In:[b] ==> Out:[a + 1] end end
= refused A1 A.cal 64/ |  | [] | 4 Refused
rvc check A.cal
# A.cal actor A() uint(size=8) In ==> uint(size=8) Out : action In:[a] ==> Out:[a + 1] guard a = 1 end end
= instances 1/links 2/done/ |  | [] | 0 Done
rvc check A.cal
# A.cal actor A() uint(size=8) In ==> uint(size=8) Out : action In:[a] ==> Out:[a + 1] var int x end end
= instances 1/links 2/done/ |  | [] | 0 Done
rvc check A.cal
# A.cal actor A() uint(size=8) In ==> uint(size=8) Out : action In:[a] ==> Out:[a + 1] do x := 1; end end
= refused S1 A.cal 82/ |  | [] | 4 Refused
rvc check A.cal
# A.cal actor A() uint(size=8) In ==> uint(size=8) Out : action In:[a] ==> Out:[a + 1] do end end
= instances 1/links 2/done/ |  | [] | 0 Done
rvc check A.cal
# A.cal actor A() uint(size=8) In ==> uint(size=8) Out : action ==> Out:[a + 1] end end
= refused S1 A.cal 65/ |  | [] | 4 Refused
rvc check A.cal";
