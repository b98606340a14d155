//! Runs: their outputs, traces, reports and statuses, what faults leave, and networks that are generated.

use crate::rows::table::{STEPS, hold};

#[test]
fn runs_leave_their_trace_and_output(rt: HostRuntime) {
    hold(&rt, rt.alloc(), RUNS, STEPS);
}

/// Runs of one actor and of small networks.
const RUNS: &str = "
# Inc.cal actor Inc() uint(size=8) In ==> uint(size=8) Out : action In:[a] ==> Out:[a + 1] end end
= instances 1/links 2/certified 1/firings 3/rounds 2/in In 0 tokens 3 rest 0/out Out tokens 3/quiet/ | rvc-trace 1 1 2/i 0 Inc Inc/r/f 0 0/f 0 0/f 0 0/r/q/ | [1, 2, 0] | 0 Quiet
rvc run Inc.cal In=in Out=out --trace t
rvc run Inc.cal In=in Out=out --trace t --budget 3
rvc run Inc.cal Out=out In=in --trace t
rvc --trace t run Inc.cal In=in Out=out
rvc run --budget=3 Inc.cal In=in --trace=t Out=out --workers 1 --burst 64 --round all
rvc run Inc.cal In=in Out=out --trace t --workers 2
rvc run Inc.cal In=in Out=out --trace t --round turn
rvc run Inc.cal In=in Out=out --trace t --burst 63
= instances 1/links 2/certified 1/firings 2/rounds 2/in In 0 tokens 3 rest 0/out Out tokens 2/budget 2/ | rvc-trace 1 1 2/i 0 Inc Inc/r/f 0 0/f 0 0/r/b/ | [1, 2] | 7 Budget { firings: 2 }
rvc run Inc.cal In=in Out=out --trace t --budget 2
= instances 1/links 2/certified 1/firings 3/rounds 2/in In 0 tokens 3 rest 0/out Out tokens 3/quiet/ | rvc-trace 1 1 2/i 0 Inc Inc/r/f 0 0/f 0 0/f 0 0/r/q/ | [] | 0 Quiet
rvc run Inc.cal In=in --trace t
= instances 1/links 2/certified 1/firings 3/rounds 2/in In 0 tokens 3 rest 0/out Out tokens 3/quiet/ | rvc-trace 2 1 2 1/i 0 Inc Inc/r/f 0 0/f 0 0/f 0 0/r/q/ | [1, 2, 0] | 0 Quiet
rvc run Inc.cal In=in Out=out --trace t --grow 1
= instances 1/links 2/certified 1/firings 0/rounds 1/in In 0 tokens 0 rest 0/out Out tokens 0/quiet/ | rvc-trace 1 1 2/i 0 Inc Inc/r/q/ | [] | 0 Quiet
rvc run Inc.cal In=empty Out=out --trace t
= instances 2/links 3/certified 1/firings 5/rounds 3/in In 0 tokens 3 rest 0/out Out tokens 2/quiet/ | rvc-trace 1 2 3/i 0 a Inc/i 1 b Two/r/f 0 0/f 0 0/f 0 0/r/f 1 0/f 1 1/r/q/ | [3, 0] | 0 Quiet
rvc run Net.xdf In=in Out=out --trace t
= instances 2/links 3/certified 2/firings 6/rounds 3/in In 0 tokens 3 rest 0/out Out tokens 3/quiet/ | rvc-trace 1 2 3/i 0 a Inc/i 1 b Inc/r/f 0 0/f 0 0/f 0 0/r/f 1 0/f 1 0/f 1 0/r/q/ | [2, 3, 1] | 0 Quiet
rvc run Twice.xdf In=in Out=out --trace t
rvc run Twice.xdf In=in Out=out --trace t --workers 3
= instances 1/links 2/certified 1/firings 3/rounds 2/in In 0 tokens 3 rest 0/out Out tokens 3/quiet/ | rvc-trace 1 1 2/i 0 a Inc/r/f 0 0/f 0 0/f 0 0/r/q/ | [1, 2, 0] | 0 Quiet
rvc run One.xdf --trace t In=in Out=out
= instances 1/links 2/certified 1/firings 2/rounds 2/in In 0 tokens 3 rest 0/out Out tokens 2/budget 2/ | rvc-trace 1 1 2/i 0 a Inc/r/f 0 0/f 0 0/r/b/ | [1, 2] | 7 Budget { firings: 2 }
rvc run One.xdf --trace t In=in Out=out --budget 2
= instances 1/links 2/certified 1/firings 3/rounds 2/in In 0 tokens 3 rest 0/out Out tokens 3/quiet/ | rvc-trace 2 1 2 600/i 0 a Inc/r/f 0 0/f 0 0/f 0 0/r/q/ | [] | 0 Quiet
rvc run One.xdf --trace t In=in --grow 600
= instances 1/links 2/certified 1/firings 0/rounds 1/in In 0 tokens 0 rest 0/out Out tokens 0/quiet/ | rvc-trace 1 1 2/i 0 a Inc/r/q/ | [] | 0 Quiet
rvc run One.xdf --trace t Out=out
= instances 2/links 4/certified 2/firings 6/rounds 2/in In 0 tokens 3 rest 0/in In 1 tokens 3 rest 0/out Out tokens 3/out Other tokens 3/quiet/ | rvc-trace 1 2 4/i 0 a Inc/i 1 b Inc/r/f 0 0/f 0 0/f 0 0/f 1 0/f 1 0/f 1 0/r/q/ | [] [1, 2, 0] | 0 Quiet
rvc run Both.xdf --trace t In=in Other=out
= instances 2/links 4/certified 2/firings 6/rounds 4/in In 0 tokens 3 rest 0/in In 1 tokens 3 rest 0/out Out tokens 3/out Other tokens 3/quiet/ | rvc-trace 1 2 4/i 0 a Inc/i 1 b Inc/r/f 0 0/f 0 0/f 0 0/r/f 1 0/f 1 0/f 1 0/r/r/q/ | [1, 2, 0] | 0 Quiet
rvc run Both.xdf --trace t Out=out In=in --round turn
# Div.cal actor Div() uint(size=8) In ==> uint(size=8) Out : action In:[a] ==> Out:[100 / a] end end
= instances 1/links 2/certified 1/firings 1/rounds 1/in In 0 tokens 3 rest 0/out Out tokens 1/trapped 0 0 DivideByZero/ | rvc-trace 1 1 2/i 0 Div Div/r/f 0 0/t 0 0 DivideByZero/ | [20] | 5 Trapped
rvc run Div.cal In=zero Out=out --trace t
# Pair.xdf <XDF name='Pair'><Port kind='Input' name='In'><Type name='uint'><Entry kind='Expr' name='size'><Expr kind='Literal' literal-kind='Integer' value='8'/></Entry></Type></Port><Port kind='Output' name='Out'><Type name='uint'><Entry kind='Expr' name='size'><Expr kind='Literal' literal-kind='Integer' value='8'/></Entry></Type></Port><Instance id='c'><Class name='Copy'/></Instance><Instance id='s'><Class name='Sum'/></Instance><Instance id='j'><Class name='Join'/></Instance><Connection src='' src-port='In' dst='c' dst-port='In'/><Connection src='c' src-port='Out' dst='s' dst-port='In'/><Connection src='c' src-port='Out' dst='j' dst-port='B'><Attribute name='bufferSize'><Expr kind='Literal' literal-kind='Integer' value='1'/></Attribute></Connection><Connection src='s' src-port='Out' dst='j' dst-port='A'/><Connection src='j' src-port='Out' dst='' dst-port='Out'/></XDF>
+ Copy.cal actor Copy() uint(size=8) In ==> uint(size=8) Out : action In:[x] ==> Out:[x] end end
+ Sum.cal actor Sum() uint(size=8) In ==> uint(size=8) Out : action In:[x, y] ==> Out:[x + y] end end
+ Join.cal actor Join() uint(size=8) A, uint(size=8) B ==> uint(size=8) Out : action A:[a], B:[b] ==> Out:[a + b] end end
= instances 3/links 5/certified 3/firings 1/rounds 2/in In 0 tokens 4 rest 0/out Out tokens 0/stalled 0 0 3/ | rvc-trace 1 3 5/i 0 c Copy/i 1 s Sum/i 2 j Join/r/f 0 0/r/s 0 0 3/ | [] | 6 Stalled
rvc run Pair.xdf In=four Out=out --trace t
= instances 3/links 5/certified 3/firings 1/rounds 2/in In 0 tokens 4 rest 0/out Out tokens 0/stalled 0 0 3/ | rvc-trace 2 3 5 1/i 0 c Copy/i 1 s Sum/i 2 j Join/r/f 0 0/r/s 0 0 3/ | [] | 6 Stalled
rvc run Pair.xdf In=four Out=out --trace t --grow 1
= instances 3/links 5/certified 3/firings 5/rounds 7/in In 0 tokens 4 rest 0/out Out tokens 1/stalled 0 0 3/ | rvc-trace 2 3 5 2/i 0 c Copy/i 1 s Sum/i 2 j Join/r/f 0 0/r/g 3 2/r/f 0 0/r/f 1 0/r/f 2 0/r/f 0 0/r/ of 108 | [4] | 6 Stalled
rvc run Pair.xdf In=four Out=out --trace t --grow 2
= instances 3/links 5/certified 3/firings 8/rounds 11/in In 0 tokens 4 rest 0/out Out tokens 2/quiet/ | rvc-trace 2 3 5 4/i 0 c Copy/i 1 s Sum/i 2 j Join/r/f 0 0/r/g 3 2/r/f 0 0/r/f 1 0/r/f 2 0/r/f 0 0/r/ of 134 | [4, 9] | 0 Quiet
rvc run Pair.xdf In=four Out=out --trace t --grow 4";

#[test]
fn a_failed_call_is_a_fault(rt: HostRuntime) {
    hold(&rt, rt.alloc(), FAULTS, &[1]);
}

/// No feed is opened if no word names the input. No channel is opened if a feed isn't: the first call to the channels is
/// the put of the report, which fails, too. Each line says how many bytes a call moves.
const FAULTS: &str = "
# Inc.cal actor Inc() uint(size=8) In ==> uint(size=8) Out : action In:[a] ==> Out:[a + 1] end end
= read fault in/ | rvc-trace 1 1 2/i 0 Inc Inc/ | [] | 2 ReadFault(Feed(1))
1 0 3 0: rvc run Inc.cal In=in Out=out --trace t
3 0 3 0: rvc run Inc.cal In=in Out=out --trace t
1000 0 3 0: rvc run Inc.cal In=in Out=out --trace t
3 0 2 0: rvc run Inc.cal In=in Out=out --trace t
= write fault 2/ | rvc-trace 1 1 2/i 0 Inc Inc/ | [] | 3 WriteFault { channel: 2 }
1 0 0 31: rvc run Inc.cal In=in Out=out --trace t
3 0 0 13: rvc run Inc.cal In=in Out=out --trace t
1000 0 0 4: rvc run Inc.cal In=in Out=out --trace t
= instances 1/links 2/certified 1/firings 0/rounds 1/in In 0 tokens 0 rest 0/out Out tokens 0/quiet/ | rvc-trace 1 1 2/i 0 Inc Inc/r/q/ | [] | 0 Quiet
1000 0 1 0: rvc run Inc.cal Out=out --trace t
1000 0 1 0: rvc run Inc.cal --trace t
= read fault Inc.cal/ |  | [] | 2 ReadFault
3 1 0 0: rvc run Inc.cal In=in Out=out --trace t
= read fault in/ |  | [] | 2 ReadFault(Feed(1))
3 0 1 0: rvc run Inc.cal In=in Out=out --trace t
9 0 1 0: rvc run One.xdf --trace t In=in Out=out
=  |  | [] | 3 WriteFault { channel: 0 }
3 0 1 1: rvc run Inc.cal In=in Out=out --trace t
9 0 1 1: rvc run One.xdf --trace t In=in Out=out
= r |  | [] | 3 WriteFault { channel: 0 }
1 0 1 2: rvc run Inc.cal In=in Out=out --trace t
= write fault 1/ |  | [] | 3 WriteFault { channel: 1 }
3 0 0 1: rvc run Inc.cal In=in Out=out --trace t
9 0 0 1: rvc run One.xdf --trace t In=in Out=out
=  |  | [] | 3 WriteFault
3 0 0 1: rvc run None.cal --trace t
= read fault in/ | rvc-trace 1 1 2/i 0 a Inc/ | [] | 2 ReadFault(Feed(1))
1 0 3 0: rvc run One.xdf --trace t In=in Out=out
= write fault 2/ |  | [] | 3 WriteFault { channel: 2 }
9 0 0 2: rvc run One.xdf --trace t In=in Out=out
= write fault 1/ | rvc-trac | [] | 3 WriteFault { channel: 1 }
4 0 0 5: rvc run One.xdf --trace t In=in Out=out
= write fault 2/ | rvc-trace 1 1 2/i 0 a Inc/ | [] | 3 WriteFault { channel: 2 }
99 0 0 4: rvc run One.xdf --trace t In=in Out=out
= read fault in/ |  | [] | 2 ReadFault(Feed(2))
9 0 2 0: rvc run Both.xdf --trace t In=in
# Inc.cal actor Inc() uint(size=8) In ==> uint(size=8) Out : action In:[a] ==> Out:[a+1] endaction endactor
= read fault Inc.cal/ |  | [] | 2 ReadFault(File(1))
1000 1 0 0: rvc fmt Inc.cal
1000 1 0 0: rvc fmt Inc.cal In=in
= act |  | [] | 3 WriteFault { channel: 0 }
1 0 0 4: rvc fmt Inc.cal
=  |  | [] | 3 WriteFault { channel: 0 }
3 0 0 1: rvc fmt Inc.cal
1000 0 0 1: rvc fmt Inc.cal";

#[test]
fn generated_networks_are_run(rt: HostRuntime) {
    hold(&rt, rt.alloc(), GENERATED, &[3, 4096]);
}

/// Networks of one, two and three actors, and numbers and words that are refused.
const GENERATED: &str = "
# 
= instances 1/links 2/certified 1/firings 1024/rounds 17/in In 0 tokens 1024 rest 0/out Out tokens 1024/quiet/ | rvc-trace 1 1 2/i 0 a0 gen.Add/r/f 0 0/f 0 0/f 0 0/f 0 0/f 0 0/f 0 0/f 0 0/f 0 0/f 0 0/f 0 0/f 0 0/f of 6211 | [198, 126, 129, 107] of 1024 | 0 Quiet
rvc gen 1 Out=out --trace t
= instances 2/links 3/certified 2/firings 2048/rounds 34/in In 0 tokens 1024 rest 0/out Out tokens 1024/quiet/ | rvc-trace 1 2 3/i 0 a0 gen.Add/i 1 a1 gen.Flip/r/f 0 0/f 0 0/f 0 0/f 0 0/f 0 0/f 0 0/f 0 0/f 0 0/f 0 of 12405 | [141, 33, 254, 114] of 1024 | 0 Quiet
rvc gen 2 Out=out --trace t --round turn
= instances 2/links 3/certified 2/firings 2048/rounds 18/in In 0 tokens 1024 rest 0/out Out tokens 1024/quiet/ | rvc-trace 1 2 3/i 0 a0 gen.Add/i 1 a1 gen.Flip/r/f 0 0/f 0 0/f 0 0/f 0 0/f 0 0/f 0 0/f 0 0/f 0 0/f 0 of 12373 | [141, 33, 254, 114] of 1024 | 0 Quiet
rvc gen 2 Out=out --trace t
rvc gen 2 Out=out --trace t --workers 2
= instances 3/links 4/certified 3/firings 3072/rounds 19/in In 0 tokens 1024 rest 0/out Out tokens 1024/quiet/ | rvc-trace 1 3 4/i 0 a0 gen.Add/i 1 a1 gen.Flip/i 2 a2 gen.Add/r/f 0 0/f 0 0/f 0 0/f 0 0/f 0 0/f 0 0/ of 18534 | [] | 0 Quiet
rvc gen 3 --trace t
rvc gen 3 --trace t --workers 3
= instances 1/links 2/certified 1/firings 3/rounds 2/in In 0 tokens 515 rest 0/out Out tokens 3/budget 3/ | rvc-trace 1 1 2/i 0 a0 gen.Add/r/f 0 0/f 0 0/f 0 0/r/b/ | [198, 126, 129] | 7 Budget { firings: 3 }
rvc gen 1 Out=out --trace t --budget 3
= instances 3/links 4/certified 3/firings 3/rounds 3/in In 0 tokens 515 rest 0/out Out tokens 0/budget 3/ | rvc-trace 2 3 4 1048576/i 0 a0 gen.Add/i 1 a1 gen.Flip/i 2 a2 gen.Add/r/f 0 0/r/f 0 0/f 0 0/r/b/ | [] | 7 Budget { firings: 3 }
rvc gen 3 --trace t --budget 3 --grow 1048576
= refused Z12 words 0/ |  | [] | 4 Refused
rvc gen 17 --trace t --grow 1048576
= refused P1 words 1/ |  | [] | 4 Refused
rvc gen 2 Out=out In=x --trace t
= refused P2 words 1/ |  | [] | 4 Refused
rvc gen 2 Out=a Out=b --trace t";
