//! Networks that break a rule, with its place: the number of the file and the offset.

use crate::rows::hold;
use kit_networks::Told;

#[test]
fn files_and_parameters(rt: HostRuntime) {
    hold(&rt, rt.alloc(), Told::Whole, TEXTS);
    hold(&rt, rt.alloc(), Told::Whole, PARAMETERS);
    hold(&rt, rt.alloc(), Told::Whole, CIRCLES);
}

/// Texts that are no networks, or not those of their classes.
const TEXTS: &str = "
# ..
= F1 1 22
net T <XDF name=\"T\"><Port ki
# ..
= F2 1 14
net T <XDF name=\"T\"><Foo/></XDF>
# ..
= F3 1 0
net T <XDF></XDF>
# ..
= F4 1 0
net T <?xml version=\"1.0\" encoding=\"latin-1\"?><XDF name=\"T\"></XDF>
# ..
= F3 2 14
net T <XDF name='T'><Instance id='m'><Class name='M'/></Instance></XDF>
net M <XDF name='M'><Port kind='In' name='x'/></XDF>
# another name than that of the class
= S5 1 0
net T <XDF name='U'/>
# .. inside another network
= S5 2 0
net T <XDF name='T'><Instance id='m'><Class name='p.M'/></Instance></XDF>
net p.M <XDF name='N'/>";

/// Parameters of networks: unknown, given twice, or missed.
const PARAMETERS: &str = "
# unknown
= N2 1 135
net T <XDF name='T'><Instance id='m'><Class name='M'/><Parameter name='p'><Expr kind='Literal' literal-kind='Integer' value='1'/></Parameter><Parameter name='q'><Expr kind='Literal' literal-kind='Integer' value='1'/></Parameter></Instance></XDF>
net M <XDF name='M'><Decl kind='Param' name='p'><Type name='int'/></Decl></XDF>
# given twice
= N2 1 135
net T <XDF name='T'><Instance id='m'><Class name='M'/><Parameter name='p'><Expr kind='Literal' literal-kind='Integer' value='1'/></Parameter><Parameter name='p'><Expr kind='Literal' literal-kind='Integer' value='2'/></Parameter></Instance></XDF>
net M <XDF name='M'><Decl kind='Param' name='p'><Type name='int'/></Decl></XDF>
# a second value, behind one that isn't declared: the last one is named
= N2 1 222
net T <XDF name='T'><Instance id='m'><Class name='M'/><Parameter name='p'><Expr kind='Literal' literal-kind='Integer' value='1'/></Parameter><Parameter name='q'><Expr kind='Literal' literal-kind='Integer' value='1'/></Parameter><Parameter name='p'><Expr kind='Literal' literal-kind='Integer' value='2'/></Parameter></Instance></XDF>
net M <XDF name='M'><Decl kind='Param' name='p'><Type name='int'/></Decl></XDF>
# .. before it
= N2 1 222
net T <XDF name='T'><Instance id='m'><Class name='M'/><Parameter name='p'><Expr kind='Literal' literal-kind='Integer' value='1'/></Parameter><Parameter name='p'><Expr kind='Literal' literal-kind='Integer' value='2'/></Parameter><Parameter name='q'><Expr kind='Literal' literal-kind='Integer' value='1'/></Parameter></Instance></XDF>
net M <XDF name='M'><Decl kind='Param' name='p'><Type name='int'/></Decl></XDF>
# a variable
= N2 1 48
net T <XDF name='T'><Instance id='m'><Class name='M'/><Parameter name='v'><Expr kind='Literal' literal-kind='Integer' value='1'/></Parameter></Instance></XDF>
net M <XDF name='M'><Decl kind='Variable' name='v'><Type name='int'/><Expr kind='Literal' literal-kind='Integer' value='1'/></Decl></XDF>
# neither value nor default
= N2 1 59
net T <XDF name='T'><Instance id='a'><Class name='A'/></Instance><Instance id='m'><Class name='M'/></Instance></XDF>
net M <XDF name='M'><Decl kind='Param' name='p'><Type name='int'/></Decl></XDF>
# .. inside another
= N2 2 14
net T <XDF name='T'><Instance id='m'><Class name='M'/></Instance></XDF>
net M <XDF name='M'><Instance id='n'><Class name='N'/></Instance></XDF>
net N <XDF name='N'><Decl kind='Param' name='p'><Type name='int'/></Decl></XDF>
# .. of the top
= N2 0 0
net T <XDF name='T'><Decl kind='Param' name='p'><Type name='int'/></Decl></XDF>";

/// Networks inside themselves.
const CIRCLES: &str = "
# ..
= N3 1 34
net Self <XDF name=\"Self\"><Instance id=\"a\"><Class name=\"Self\"/></Instance></XDF>
# a circle of three
= N3 3 31
net T <XDF name='T'><Instance id='a'><Class name='A'/></Instance></XDF>
net A <XDF name='A'><Instance id='x'><Class name='X'/></Instance><Instance id='b'><Class name='B'/></Instance></XDF>
net B <XDF name='B'><Instance id='t'><Class name='T'/></Instance></XDF>
# one without the top
= N3 3 76
net T <XDF name='T'><Instance id='a'><Class name='A'/></Instance></XDF>
net A <XDF name='A'><Instance id='b'><Class name='B'/></Instance></XDF>
net B <XDF name='B'><Instance id='x'><Class name='X'/></Instance><Instance id='a'><Class name='A'/></Instance></XDF>
# one network in itself, inside another
= N3 2 76
net T <XDF name='T'><Instance id='a'><Class name='A'/></Instance><Instance id='b'><Class name='A'/></Instance></XDF>
net A <XDF name='A'><Instance id='b'><Class name='B'/></Instance><Instance id='a'><Class name='A'/></Instance></XDF>
net B <XDF name='B'><Instance id='x'><Class name='X'/></Instance></XDF>";

#[test]
fn connections(rt: HostRuntime) {
    hold(&rt, rt.alloc(), Told::Whole, WRITERS);
    hold(&rt, rt.alloc(), Told::Whole, ENDS);
    hold(&rt, rt.alloc(), Told::Whole, KINDS);
    hold(&rt, rt.alloc(), Told::Whole, STRAIGHT);
    hold(&rt, rt.alloc(), Told::Whole, TWICE);
    hold(&rt, rt.alloc(), Told::Whole, SIZES);
}

/// Second writers.
const WRITERS: &str = "
# of an actor
= N4 1 170
net T <XDF name='T'><Port kind='Input' name='In'><Type name='bool'/></Port><Instance id='a'><Class name='A'/></Instance><Connection src='' src-port='In' dst='a' dst-port='In'/><Connection src='a' src-port='Out' dst='a' dst-port='In'/></XDF>
actor A In:bool ; Out:bool
# of the network's own output
= N4 1 219
net T <XDF name='T'><Port kind='Output' name='Out'><Type name='bool'/></Port><Instance id='a'><Class name='A'/></Instance><Instance id='b'><Class name='A'/></Instance><Connection src='a' src-port='Out' dst='' dst-port='Out'/><Connection src='b' src-port='Out' dst='' dst-port='Out'/></XDF>
actor A In:bool ; Out:bool
# of an inner network
= N4 1 215
net T <XDF name='T'><Port kind='Input' name='In'><Type name='bool'/></Port><Instance id='a'><Class name='A'/></Instance><Instance id='m'><Class name='M'/></Instance><Connection src='' src-port='In' dst='m' dst-port='In'/><Connection src='a' src-port='Out' dst='m' dst-port='In'/></XDF>
net M <XDF name='M'><Port kind='Input' name='In'><Type name='bool'/></Port><Instance id='b'><Class name='A'/></Instance><Connection src='' src-port='In' dst='b' dst-port='In'/></XDF>
actor A In:bool ; Out:bool
# the same writer, inside
= N4 2 285
net T <XDF name='T'><Port kind='Input' name='In'><Type name='bool'/></Port><Instance id='m'><Class name='M'/></Instance><Connection src='' src-port='In' dst='m' dst-port='In'/></XDF>
net M <XDF name='M'><Port kind='Input' name='In'><Type name='bool'/></Port><Port kind='Output' name='Out'><Type name='bool'/></Port><Instance id='b'><Class name='A'/></Instance><Connection src='' src-port='In' dst='b' dst-port='In'/><Connection src='b' src-port='Out' dst='' dst-port='Out'/><Connection src='b' src-port='Out' dst='' dst-port='Out'/></XDF>
actor A In:bool ; Out:bool";

/// Ends that there aren't.
const ENDS: &str = "
# no such instance
= N5 1 114
net T <XDF name='T'><Port kind='Input' name='In'><Type name='bool'/></Port><Instance id='a'><Class name='A'/></Instance><Connection src='' src-port='In' dst='b' dst-port='In'/></XDF>
actor A In:bool ; Out:bool
# ..
= N5 1 59
net T <XDF name='T'><Instance id='a'><Class name='A'/></Instance><Connection src='b' src-port='Out' dst='a' dst-port='In'/></XDF>
actor A In:bool ; Out:bool
# no such port of an actor
= N5 1 114
net T <XDF name='T'><Port kind='Input' name='In'><Type name='bool'/></Port><Instance id='a'><Class name='A'/></Instance><Connection src='' src-port='In' dst='a' dst-port='Inn'/></XDF>
actor A In:bool ; Out:bool
# ..
= N5 1 116
net T <XDF name='T'><Port kind='Output' name='Out'><Type name='bool'/></Port><Instance id='a'><Class name='A'/></Instance><Connection src='a' src-port='Outt' dst='' dst-port='Out'/></XDF>
actor A In:bool ; Out:bool
# no such port of a network
= N5 1 114
net T <XDF name='T'><Port kind='Input' name='In'><Type name='bool'/></Port><Instance id='m'><Class name='M'/></Instance><Connection src='' src-port='In' dst='m' dst-port='Inn'/></XDF>
net M <XDF name='M'><Port kind='Input' name='In'><Type name='bool'/></Port></XDF>
actor A In:bool ; Out:bool
# ..
= N5 1 59
net T <XDF name='T'><Instance id='a'><Class name='A'/></Instance><Connection src='' src-port='In' dst='a' dst-port='In'/></XDF>
actor A In:bool ; Out:bool
# ..
= N5 1 59
net T <XDF name='T'><Instance id='a'><Class name='A'/></Instance><Connection src='a' src-port='Out' dst='' dst-port='Out'/></XDF>
actor A In:bool ; Out:bool
# of the wrong direction
= N5 1 114
net T <XDF name='T'><Port kind='Input' name='In'><Type name='bool'/></Port><Instance id='a'><Class name='A'/></Instance><Connection src='' src-port='In' dst='a' dst-port='Out'/></XDF>
actor A In:bool ; Out:bool
# ..
= N5 1 116
net T <XDF name='T'><Port kind='Output' name='Out'><Type name='bool'/></Port><Instance id='a'><Class name='A'/></Instance><Connection src='a' src-port='In' dst='' dst-port='Out'/></XDF>
actor A In:bool ; Out:bool
# ..
= N5 1 114
net T <XDF name='T'><Port kind='Input' name='In'><Type name='bool'/></Port><Instance id='a'><Class name='A'/></Instance><Connection src='a' src-port='Out' dst='' dst-port='In'/></XDF>
actor A In:bool ; Out:bool
# ..
= N5 1 116
net T <XDF name='T'><Port kind='Output' name='Out'><Type name='bool'/></Port><Instance id='a'><Class name='A'/></Instance><Connection src='' src-port='Out' dst='a' dst-port='In'/></XDF>
actor A In:bool ; Out:bool
# ..
= N5 1 114
net T <XDF name='T'><Port kind='Input' name='In'><Type name='bool'/></Port><Instance id='m'><Class name='M'/></Instance><Connection src='' src-port='In' dst='m' dst-port='Out'/></XDF>
net M <XDF name='M'><Port kind='Output' name='Out'><Type name='bool'/></Port></XDF>
actor A In:bool ; Out:bool
# ..
= N5 1 116
net T <XDF name='T'><Port kind='Output' name='Out'><Type name='bool'/></Port><Instance id='m'><Class name='M'/></Instance><Connection src='m' src-port='In' dst='' dst-port='Out'/></XDF>
net M <XDF name='M'><Port kind='Input' name='In'><Type name='bool'/></Port></XDF>
actor A In:bool ; Out:bool";

/// Truth values and numbers.
const KINDS: &str = "
# ..
= N6 1 114
net T <XDF name='T'><Port kind='Input' name='In'><Type name='uint'/></Port><Instance id='a'><Class name='A'/></Instance><Connection src='' src-port='In' dst='a' dst-port='In'/></XDF>
actor A In:bool ; Out:bool
# ..
= N6 1 216
net T <XDF name='T'><Port kind='Output' name='Out'><Type name='uint'><Entry kind='Expr' name='size'><Expr kind='Literal' literal-kind='Integer' value='8'/></Entry></Type></Port><Instance id='a'><Class name='A'/></Instance><Connection src='a' src-port='Out' dst='' dst-port='Out'/></XDF>
actor A In:bool ; Out:bool
# ..
= N6 1 104
net T <XDF name='T'><Instance id='a'><Class name='A'/></Instance><Instance id='b'><Class name='B'/></Instance><Connection src='a' src-port='Out' dst='b' dst-port='In'/></XDF>
actor A In:bool ; Out:bool
actor B In:u8 ; Out:u8
# ..
= N6 1 113
net T <XDF name='T'><Port kind='Input' name='In'><Type name='int'/></Port><Instance id='m'><Class name='M'/></Instance><Connection src='' src-port='In' dst='m' dst-port='In'/></XDF>
net M <XDF name='M'><Port kind='Input' name='In'><Type name='bool'/></Port><Instance id='a'><Class name='A'/></Instance><Connection src='' src-port='In' dst='a' dst-port='In'/></XDF>
actor A In:bool ; Out:bool
# ..
= N6 2 113
net T <XDF name='T'><Port kind='Input' name='In'><Type name='int'/></Port><Instance id='m'><Class name='M'/></Instance><Connection src='' src-port='In' dst='m' dst-port='In'/></XDF>
net M <XDF name='M'><Port kind='Input' name='In'><Type name='int'/></Port><Instance id='a'><Class name='A'/></Instance><Connection src='' src-port='In' dst='a' dst-port='In'/></XDF>
actor A In:bool ; Out:bool";

/// Inputs passed straight to outputs.
const STRAIGHT: &str = "
# ..
= N7 1 126
net T <XDF name='T'><Port kind='Input' name='In'><Type name='bool'/></Port><Port kind='Output' name='Out'><Type name='bool'/></Port><Connection src='' src-port='In' dst='' dst-port='Out'/></XDF>
# in an inner network
= N7 2 126
net T <XDF name='T'><Port kind='Input' name='In'><Type name='bool'/></Port><Port kind='Output' name='Out'><Type name='bool'/></Port><Instance id='m'><Class name='M'/></Instance><Connection src='' src-port='In' dst='m' dst-port='In'/><Connection src='m' src-port='Out' dst='' dst-port='Out'/></XDF>
net M <XDF name='M'><Port kind='Input' name='In'><Type name='bool'/></Port><Port kind='Output' name='Out'><Type name='bool'/></Port><Connection src='' src-port='In' dst='' dst-port='Out'/></XDF>";

/// Names that stand twice.
const TWICE: &str = "
# ..
= N8 1 68
net T <XDF name='T'><Port kind='Input' name='x'><Type name='bool'/></Port><Port kind='Input' name='x'><Type name='bool'/></Port></XDF>
# ..
= N8 1 69
net T <XDF name='T'><Port kind='Output' name='x'><Type name='bool'/></Port><Port kind='Output' name='x'><Type name='bool'/></Port></XDF>
# over both directions
= N8 1 68
net T <XDF name='T'><Port kind='Input' name='x'><Type name='bool'/></Port><Port kind='Output' name='x'><Type name='bool'/></Port></XDF>
# ..
= N8 1 122
net T <XDF name='T'><Decl kind='Param' name='x'><Type name='int'/><Expr kind='Literal' literal-kind='Integer' value='1'/></Decl><Decl kind='Variable' name='x'><Type name='int'/><Expr kind='Literal' literal-kind='Integer' value='1'/></Decl></XDF>
# ..
= N8 1 125
net T <XDF name='T'><Decl kind='Variable' name='x'><Type name='int'/><Expr kind='Literal' literal-kind='Integer' value='1'/></Decl><Decl kind='Variable' name='x'><Type name='bool'/><Expr kind='Literal' literal-kind='Boolean' value='true'/></Decl></XDF>
# ..
= N8 1 104
net T <XDF name='T'><Instance id='x'><Class name='A'/></Instance><Instance id='y'><Class name='A'/></Instance><Instance id='x'><Class name='B'/></Instance></XDF>
# in an inner network
= N8 2 59
net T <XDF name='T'><Instance id='m'><Class name='M'/></Instance></XDF>
net M <XDF name='M'><Instance id='x'><Class name='A'/></Instance><Instance id='x'><Class name='A'/></Instance></XDF>";

/// Sizes of connections.
const SIZES: &str = "
# ..
= N9 1 169
net T <XDF name='T'><Port kind='Input' name='In'><Type name='bool'/></Port><Instance id='a'><Class name='A'/></Instance><Connection src='' src-port='In' dst='a' dst-port='In'><Attribute name='bufferSize'><Expr kind='Literal' literal-kind='Integer' value='0'/></Attribute></Connection></XDF>
actor A In:bool ; Out:bool
# ..
= N9 1 169
net T <XDF name='T'><Port kind='Input' name='In'><Type name='bool'/></Port><Instance id='a'><Class name='A'/></Instance><Connection src='' src-port='In' dst='a' dst-port='In'><Attribute name='bufferSize'><Expr kind='Literal' literal-kind='Integer' value='1048577'/></Attribute></Connection></XDF>
actor A In:bool ; Out:bool
# ..
= N9 1 169
net T <XDF name='T'><Port kind='Input' name='In'><Type name='bool'/></Port><Instance id='a'><Class name='A'/></Instance><Connection src='' src-port='In' dst='a' dst-port='In'><Attribute name='bufferSize'><Expr kind='Literal' literal-kind='Integer' value='-1'/></Attribute></Connection></XDF>
actor A In:bool ; Out:bool
# ..
= N9 1 169
net T <XDF name='T'><Port kind='Input' name='In'><Type name='bool'/></Port><Instance id='a'><Class name='A'/></Instance><Connection src='' src-port='In' dst='a' dst-port='In'><Attribute name='bufferSize'><Expr kind='Literal' literal-kind='Boolean' value='true'/></Attribute></Connection></XDF>
actor A In:bool ; Out:bool
# ..
= N9 1 169
net T <XDF name='T'><Port kind='Input' name='In'><Type name='bool'/></Port><Instance id='a'><Class name='A'/></Instance><Connection src='' src-port='In' dst='a' dst-port='In'><Attribute name='bufferSize'><Expr kind='List'><Expr kind='Literal' literal-kind='Integer' value='1'/></Expr></Attribute></Connection></XDF>
actor A In:bool ; Out:bool
# ..
= N9 1 169
net T <XDF name='T'><Port kind='Input' name='In'><Type name='bool'/></Port><Instance id='a'><Class name='A'/></Instance><Connection src='' src-port='In' dst='a' dst-port='In'><Attribute name='bufferSize'><Expr kind='BinOpSeq'><Expr kind='Literal' literal-kind='Integer' value='1'/><Op name='-'/><Expr kind='Literal' literal-kind='Integer' value='1'/></Expr></Attribute></Connection></XDF>
actor A In:bool ; Out:bool
# the second of two
= N9 1 265
net T <XDF name='T'><Port kind='Input' name='In'><Type name='bool'/></Port><Instance id='a'><Class name='A'/></Instance><Connection src='' src-port='In' dst='a' dst-port='In'><Attribute name='bufferSize'><Expr kind='Literal' literal-kind='Integer' value='7'/></Attribute><Attribute name='bufferSize'><Expr kind='Literal' literal-kind='Integer' value='0'/></Attribute></Connection></XDF>
actor A In:bool ; Out:bool
# ..
= T7 1 198
net T <XDF name='T'><Port kind='Input' name='In'><Type name='bool'/></Port><Instance id='a'><Class name='A'/></Instance><Connection src='' src-port='In' dst='a' dst-port='In'><Attribute name='bufferSize'><Expr kind='BinOpSeq'><Expr kind='Literal' literal-kind='Integer' value='1'/><Op name='/'/><Expr kind='Literal' literal-kind='Integer' value='0'/></Expr></Attribute></Connection></XDF>
actor A In:bool ; Out:bool
# ..
= S1 1 198
net T <XDF name='T'><Port kind='Input' name='In'><Type name='bool'/></Port><Instance id='a'><Class name='A'/></Instance><Connection src='' src-port='In' dst='a' dst-port='In'><Attribute name='bufferSize'><Expr kind='Var' name='n'/></Attribute></Connection></XDF>
actor A In:bool ; Out:bool";
