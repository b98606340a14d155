//! Traces that are replayed, and what each is told to be.

use crate::rows::table::{STEPS, hold};

#[test]
fn traces_are_told_from_those_of_no_run(rt: HostRuntime) {
    hold(&rt, rt.alloc(), REPLAYS, STEPS);
}

/// Traces of runs, traces of none with the line that is wrong, commands that replay nothing, and links that may grow too far.
const REPLAYS: &str = "
# Inc.cal actor Inc() uint(size=8) In ==> uint(size=8) Out : action In:[a] ==> Out:[a + 1] end end
+ Div.cal actor Div() uint(size=8) In ==> uint(size=8) Out : action In:[a] ==> Out:[100 / a] end end
+ Wide.cal actor Wide() uint(size=16) In ==> uint(size=16) Out : action In:[a] ==> Out:[a] end end
= instances 1/links 2/certified 1/firings 3/rounds 2/in In 0 tokens 3 rest 0/out Out tokens 3/done/ |  | [] | 0 Done
rvc replay Inc.cal In=in --trace t < rvc-trace 1 1 2/i 0 Inc Inc/r/f 0 0/f 0 0/f 0 0/r/q/
rvc replay Inc.cal In=in --trace t --workers 2 --round turn --burst 1 --budget 1 < rvc-trace 1 1 2/i 0 Inc Inc/r/f 0 0/f 0 0/f 0 0/r/q/
= instances 2/links 3/certified 1/firings 5/rounds 3/in In 0 tokens 3 rest 0/out Out tokens 2/done/ |  | [] | 0 Done
rvc replay Net.xdf In=in --trace t < rvc-trace 1 2 3/i 0 a Inc/i 1 b Two/r/f 0 0/f 0 0/f 0 0/r/f 1 0/f 1 1/r/q/
= not a run 7 End/ |  | [] | 9 NotRun
rvc replay Inc.cal In=in --trace t < rvc-trace 1 1 2/i 0 Inc Inc/r/f 0 0/f 0 0/f 0 0/q/
= not a run 1 Header/ |  | [] | 9 NotRun
rvc replay Net.xdf In=in --trace t < rvc-trace 1 1 2/i 0 Inc Inc/r/f 0 0/f 0 0/f 0 0/r/q/
rvc replay Inc.cal In=in --trace t --grow 4 < rvc-trace 1 1 2/i 0 Inc Inc/r/f 0 0/f 0 0/f 0 0/r/q/
= instances 1/links 2/certified 1/firings 2/rounds 2/in In 0 tokens 3 rest 0/out Out tokens 2/done/ |  | [] | 0 Done
rvc replay Inc.cal In=in --trace t < rvc-trace 1 1 2/i 0 Inc Inc/r/f 0 0/f 0 0/r/b/
= instances 1/links 2/certified 1/firings 0/rounds 1/in In 0 tokens 0 rest 0/out Out tokens 0/done/ |  | [] | 0 Done
rvc replay Inc.cal --trace t < rvc-trace 1 1 2/i 0 Inc Inc/r/q/
= instances 1/links 2/certified 1/firings 1/rounds 1/in In 0 tokens 3 rest 0/out Out tokens 1/done/ |  | [] | 0 Done
rvc replay Div.cal In=zero --trace t < rvc-trace 1 1 2/i 0 Div Div/r/f 0 0/t 0 0 DivideByZero/
= instances 1/links 2/certified 1/firings 1/rounds 2/in In 0 tokens 1 rest 1/out Out tokens 1/done/ |  | [] | 0 Done
rvc replay Wide.cal In=in --trace t < rvc-trace 1 1 2/i 0 Wide Wide/r/f 0 0/r/q/
= instances 2/links 3/certified 2/firings 2/rounds 3/in In 0 tokens 1 rest 0/out Out tokens 1/done/ |  | [] | 0 Done
rvc replay Twice.xdf In=one --trace t < rvc-trace 1 2 3/i 0 a Inc/i 1 b Inc/r/f 0 0/r/f 1 0/r/q/
= not a run 8 Cut/ |  | [] | 9 NotRun
rvc replay Inc.cal In=in --trace t < rvc-trace 1 1 2/i 0 Inc Inc/r/f 0 0/f 0 0/f 0 0/r/
= not a run 7 NotExposed/ |  | [] | 9 NotRun
rvc replay Inc.cal In=in --trace t < rvc-trace 1 1 2/i 0 Inc Inc/r/f 0 0/f 0 0/f 0 0/f 0 0/r/q/
= not a run 2 Header/ |  | [] | 9 NotRun
rvc replay Div.cal In=in --trace t < rvc-trace 1 1 2/i 0 Inc Inc/r/f 0 0/f 0 0/f 0 0/r/q/
= not a run 6 NotExposed/ |  | [] | 9 NotRun
rvc replay Twice.xdf In=one --trace t < rvc-trace 1 2 3/i 0 a Inc/i 1 b Inc/r/f 0 0/f 1 0/r/q/
= not a run 1 Cut/ |  | [] | 9 NotRun
rvc replay Inc.cal In=in --trace t < 
= refused P1 words 1/ |  | [] | 4 Refused
rvc replay Inc.cal In=in Out=out --trace t < rvc-trace 1 1 2/i 0 Inc Inc/r/f 0 0/f 0 0/f 0 0/r/q/
= refused P2 words 1/ |  | [] | 4 Refused
rvc replay Inc.cal In=in In=t --trace t < rvc-trace 1 1 2/i 0 Inc Inc/r/f 0 0/f 0 0/f 0 0/r/q/
= refused N1 words 0/ |  | [] | 4 Refused
rvc replay None.cal --trace t < rvc-trace 1 1 2/i 0 Inc Inc/r/f 0 0/f 0 0/f 0 0/r/q/
= read fault none/ |  | [] | 2 ReadFault
rvc replay Inc.cal In=in --trace none < rvc-trace 1 1 2/i 0 Inc Inc/r/f 0 0/f 0 0/f 0 0/r/q/
rvc replay Inc.cal In=none --trace t < rvc-trace 1 1 2/i 0 Inc Inc/r/f 0 0/f 0 0/f 0 0/r/q/
= read fault Inc.cal/ |  | [] | 2 ReadFault
5 1 0 0: rvc replay Inc.cal In=in --trace t < rvc-trace 1 1 2/i 0 Inc Inc/r/f 0 0/f 0 0/f 0 0/r/q/
= read fault t/ |  | [] | 2 ReadFault
5 0 1 0: rvc replay Inc.cal In=in --trace t < rvc-trace 1 1 2/i 0 Inc Inc/r/f 0 0/f 0 0/f 0 0/r/q/
5 0 3 0: rvc replay Inc.cal In=in --trace t < rvc-trace 1 1 2/i 0 Inc Inc/r/f 0 0/f 0 0/f 0 0/r/q/
= read fault in/ |  | [] | 2 ReadFault
5 0 2 0: rvc replay Inc.cal In=in --trace t < rvc-trace 1 1 2/i 0 Inc Inc/r/f 0 0/f 0 0/f 0 0/r/q/
=  |  | [] | 3 WriteFault
5 0 0 1: rvc replay Inc.cal In=in --trace t < rvc-trace 1 1 2/i 0 Inc Inc/r/f 0 0/f 0 0/f 0 0/r/q/
# Links.xdf <XDF name='Links'><Instance id='s'><Class name='S'/></Instance><Instance id='t'><Class name='T'/></Instance><Connection src='s' src-port='A' dst='t' dst-port='A'/><Connection src='s' src-port='B' dst='t' dst-port='B'/><Connection src='s' src-port='C' dst='t' dst-port='C'/><Connection src='s' src-port='D' dst='t' dst-port='D'/><Connection src='s' src-port='E' dst='t' dst-port='E'/><Connection src='s' src-port='F' dst='t' dst-port='F'/><Connection src='s' src-port='G' dst='t' dst-port='G'/><Connection src='s' src-port='H' dst='t' dst-port='H'/><Connection src='s' src-port='I' dst='t' dst-port='I'/><Connection src='s' src-port='J' dst='t' dst-port='J'/><Connection src='s' src-port='K' dst='t' dst-port='K'/><Connection src='s' src-port='L' dst='t' dst-port='L'/><Connection src='s' src-port='M' dst='t' dst-port='M'/><Connection src='s' src-port='N' dst='t' dst-port='N'/><Connection src='s' src-port='O' dst='t' dst-port='O'/><Connection src='s' src-port='P' dst='t' dst-port='P'/><Connection src='s' src-port='Q' dst='t' dst-port='Q'/></XDF>
+ S.cal actor S() ==> uint(size=8) A, uint(size=8) B, uint(size=8) C, uint(size=8) D, uint(size=8) E, uint(size=8) F, uint(size=8) G, uint(size=8) H, uint(size=8) I, uint(size=8) J, uint(size=8) K, uint(size=8) L, uint(size=8) M, uint(size=8) N, uint(size=8) O, uint(size=8) P, uint(size=8) Q : end
+ T.cal actor T() uint(size=8) A, uint(size=8) B, uint(size=8) C, uint(size=8) D, uint(size=8) E, uint(size=8) F, uint(size=8) G, uint(size=8) H, uint(size=8) I, uint(size=8) J, uint(size=8) K, uint(size=8) L, uint(size=8) M, uint(size=8) N, uint(size=8) O, uint(size=8) P, uint(size=8) Q ==> : end
= refused Z12 words 0/ |  | [] | 4 Refused
rvc replay Links.xdf --trace t --grow 1048576 < rvc-trace 1 1 2/i 0 Inc Inc/r/f 0 0/f 0 0/f 0 0/r/q/";
