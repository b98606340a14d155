//! Names, types and values in networks that break a rule, with its place: the number of the file and the offset.

use crate::rows::hold;
use kit_networks::Told;

#[test]
fn values_that_do_not_fit(rt: HostRuntime) {
    hold(&rt, rt.alloc(), Told::Whole, UNKNOWN);
    hold(&rt, rt.alloc(), Told::Whole, CONSTANTS);
}

/// Names that are unknown.
const UNKNOWN: &str = "
# ..
= S1 1 68
net T <XDF name='T'><Instance id='a'><Class name='A'/><Parameter name='k'><Expr kind='Var' name='n'/></Parameter></Instance></XDF>
# ..
= S1 1 63
net T <XDF name='T'><Decl kind='Variable' name='v'><Type name='int'/><Expr kind='Var' name='n'/></Decl></XDF>
# ..
= S1 1 92
net T <XDF name='T'><Port kind='Input' name='In'><Type name='uint'><Entry kind='Expr' name='size'><Expr kind='Var' name='n'/></Entry></Type></Port></XDF>
# ..
= S1 1 45
net T <XDF name='T'><Decl kind='Variable' name='v'><Type name='nat'/><Expr kind='Literal' literal-kind='Integer' value='1'/></Decl></XDF>
# ..
= S1 1 43
net T <XDF name='T'><Port kind='Input' name='In'><Type name='Bool'/></Port></XDF>
# of the network outside
= S1 2 68
net T <XDF name='T'><Decl kind='Variable' name='n'><Type name='int'/><Expr kind='Literal' literal-kind='Integer' value='1'/></Decl><Instance id='m'><Class name='M'/></Instance></XDF>
net M <XDF name='M'><Instance id='a'><Class name='A'/><Parameter name='k'><Expr kind='Var' name='n'/></Parameter></Instance></XDF>
# of a network inside
= S1 1 113
net T <XDF name='T'><Instance id='m'><Class name='M'/></Instance><Instance id='a'><Class name='A'/><Parameter name='k'><Expr kind='Var' name='n'/></Parameter></Instance></XDF>
net M <XDF name='M'><Decl kind='Variable' name='n'><Type name='int'/><Expr kind='Literal' literal-kind='Integer' value='1'/></Decl></XDF>";

/// Kinds, types and values.
const CONSTANTS: &str = "
# kinds
= T1 1 63
net T <XDF name='T'><Decl kind='Variable' name='v'><Type name='int'/><Expr kind='Literal' literal-kind='Boolean' value='true'/></Decl></XDF>
# ..
= T1 1 64
net T <XDF name='T'><Decl kind='Variable' name='v'><Type name='bool'/><Expr kind='Literal' literal-kind='Integer' value='1'/></Decl></XDF>
# ..
= T1 1 64
net T <XDF name='T'><Decl kind='Variable' name='v'><Type name='bool'/><Expr kind='UnaryOp'><Op name='not'/><Expr kind='Literal' literal-kind='Integer' value='1'/></Expr></Decl></XDF>
# .. of what a network is given
= T1 1 48
net T <XDF name='T'><Instance id='m'><Class name='M'/><Parameter name='p'><Expr kind='Literal' literal-kind='Boolean' value='true'/></Parameter></Instance></XDF>
net M <XDF name='M'><Decl kind='Param' name='p'><Type name='int'/></Decl></XDF>
# arguments of types
= T2 1 43
net T <XDF name='T'><Port kind='Input' name='In'><Type name='uint'><Entry kind='Expr' name='size'><Expr kind='Literal' literal-kind='Integer' value='65'/></Entry></Type></Port></XDF>
# ..
= T2 1 43
net T <XDF name='T'><Port kind='Input' name='In'><Type name='int'><Entry kind='Expr' name='size'><Expr kind='Literal' literal-kind='Integer' value='0'/></Entry></Type></Port></XDF>
# ..
= T2 1 45
net T <XDF name='T'><Decl kind='Variable' name='v'><Type name='List'/><Expr kind='Literal' literal-kind='Integer' value='1'/></Decl></XDF>
# ..
= T2 1 45
net T <XDF name='T'><Decl kind='Variable' name='v'><Type name='bool'><Entry kind='Expr' name='size'><Expr kind='Literal' literal-kind='Integer' value='1'/></Entry></Type><Expr kind='Literal' literal-kind='Boolean' value='true'/></Decl></XDF>
# types that there aren't yet
= T3 1 43
net T <XDF name='T'><Port kind='Input' name='In'><Type name='float'/></Port></XDF>
# ..
= T3 1 45
net T <XDF name='T'><Decl kind='Variable' name='v'><Type name='String'/><Expr kind='Literal' literal-kind='Integer' value='1'/></Decl></XDF>
# ..
= T3 1 45
net T <XDF name='T'><Decl kind='Variable' name='v'><Type name='half'/><Expr kind='Literal' literal-kind='Integer' value='1'/></Decl></XDF>
# lengths of lists
= T5 1 221
net T <XDF name='T'><Decl kind='Variable' name='v'><Type name='List'><Entry kind='Type' name='type'><Type name='int'/></Entry><Entry kind='Expr' name='size'><Expr kind='Literal' literal-kind='Integer' value='2'/></Entry></Type><Expr kind='List'><Expr kind='Literal' literal-kind='Integer' value='1'/></Expr></Decl></XDF>
# ..
= T5 1 48
net T <XDF name='T'><Instance id='m'><Class name='M'/><Parameter name='p'><Expr kind='List'><Expr kind='Literal' literal-kind='Integer' value='1'/></Expr></Parameter></Instance></XDF>
net M <XDF name='M'><Decl kind='Param' name='p'><Type name='List'><Entry kind='Type' name='type'><Type name='int'/></Entry><Entry kind='Expr' name='size'><Expr kind='Literal' literal-kind='Integer' value='2'/></Entry></Type></Decl></XDF>
# traps
= T7 1 68
net T <XDF name='T'><Instance id='a'><Class name='A'/><Parameter name='k'><Expr kind='BinOpSeq'><Expr kind='Literal' literal-kind='Integer' value='1'/><Op name='/'/><Expr kind='Literal' literal-kind='Integer' value='0'/></Expr></Parameter></Instance></XDF>
# ..
= T7 1 63
net T <XDF name='T'><Decl kind='Variable' name='v'><Type name='int'/><Expr kind='BinOpSeq'><Expr kind='Literal' literal-kind='Integer' value='1'/><Op name='&lt;&lt;'/><Expr kind='Literal' literal-kind='Integer' value='128'/></Expr></Decl></XDF>
# .. in a default, though a value is given
= T7 2 60
net T <XDF name='T'><Instance id='m'><Class name='M'/><Parameter name='p'><Expr kind='Literal' literal-kind='Integer' value='1'/></Parameter></Instance></XDF>
net M <XDF name='M'><Decl kind='Param' name='p'><Type name='int'/><Expr kind='BinOpSeq'><Expr kind='Literal' literal-kind='Integer' value='1'/><Op name='mod'/><Expr kind='Literal' literal-kind='Integer' value='0'/></Expr></Decl></XDF>
# a list as the type of a port
= T8 1 43
net T <XDF name='T'><Port kind='Input' name='In'><Type name='List'><Entry kind='Type' name='type'><Type name='bool'/></Entry><Entry kind='Expr' name='size'><Expr kind='Literal' literal-kind='Integer' value='2'/></Entry></Type></Port></XDF>
# names that aren't known yet
= T9 1 63
net T <XDF name='T'><Decl kind='Variable' name='v'><Type name='int'/><Expr kind='Var' name='w'/></Decl><Decl kind='Variable' name='w'><Type name='int'/><Expr kind='Literal' literal-kind='Integer' value='1'/></Decl></XDF>
# ..
= T9 1 63
net T <XDF name='T'><Decl kind='Variable' name='v'><Type name='int'/><Expr kind='Var' name='v'/></Decl></XDF>
# a list that is too long
= Z4 1 45
net T <XDF name='T'><Decl kind='Variable' name='v'><Type name='List'><Entry kind='Type' name='type'><Type name='bool'/></Entry><Entry kind='Expr' name='size'><Expr kind='Literal' literal-kind='Integer' value='16385'/></Entry></Type><Expr kind='Literal' literal-kind='Boolean' value='true'/></Decl></XDF>";
