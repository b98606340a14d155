//! Networks with their actors and links.

use crate::rows::hold;
use kit_networks::Told;

#[test]
fn networks_have_their_actors_and_links(rt: HostRuntime) {
    hold(&rt, rt.alloc(), Told::Whole, LEVELS);
    hold(&rt, rt.alloc(), Told::Whole, CONNECTIONS);
    hold(&rt, rt.alloc(), Told::Whole, VALUES);
    hold(&rt, rt.alloc(), Told::Whole, EXPRESSIONS);
}

/// Networks in networks.
const LEVELS: &str = "
# a network in a network
= rl:dec.Rld blk/z:dec.Zigzag blk/s:dec.Sat ; In:Int(16) ; Out:Uint(8) ; 0>0.0:512:Int(16) 0.0>1.0:512:Int(16) 1.0>2.0:512:Int(16) 2.0>0:512:Uint(8) 
net dec.Top <XDF name='Top'><Port kind='Input' name='In'><Type name='int'><Entry kind='Expr' name='size'><Expr kind='Literal' literal-kind='Integer' value='16'/></Entry></Type></Port><Port kind='Output' name='Out'><Type name='uint'><Entry kind='Expr' name='size'><Expr kind='Literal' literal-kind='Integer' value='8'/></Entry></Type></Port><Instance id='rl'><Class name='dec.Rld'/></Instance><Instance id='blk'><Class name='dec.Block'/></Instance><Connection src='' src-port='In' dst='rl' dst-port='In'/><Connection src='rl' src-port='Out' dst='blk' dst-port='In'/><Connection src='blk' src-port='Out' dst='' dst-port='Out'/></XDF>
net dec.Block <XDF name='Block'><Port kind='Input' name='In'><Type name='int'><Entry kind='Expr' name='size'><Expr kind='Literal' literal-kind='Integer' value='16'/></Entry></Type></Port><Port kind='Output' name='Out'><Type name='uint'><Entry kind='Expr' name='size'><Expr kind='Literal' literal-kind='Integer' value='8'/></Entry></Type></Port><Instance id='z'><Class name='dec.Zigzag'/></Instance><Instance id='s'><Class name='dec.Sat'/></Instance><Connection src='' src-port='In' dst='z' dst-port='In'/><Connection src='z' src-port='Out' dst='s' dst-port='In'/><Connection src='s' src-port='Out' dst='' dst-port='Out'/></XDF>
actor dec.Rld In:i16:2 ; Out:i16:1
actor dec.Zigzag In:i16:64 ; Out:i16:64
actor dec.Sat In:i16 ; Out:u8
# readers at three levels, sizes on the way, and an output from the innermost
= a:Copy m/b:Copy m/n/c:Copy m/n/d:Copy ; In:Bool ; Out:Bool Aside:Bool ; 0>0.0:512:Bool 0>1.0:7:Bool 0>2.0:9:Bool 0>3.0:9:Bool 2.0>0:600:Bool 0.0>1:512:Bool 
net T <XDF name='T'><Port kind='Input' name='In'><Type name='bool'/></Port><Port kind='Output' name='Out'><Type name='bool'/></Port><Port kind='Output' name='Aside'><Type name='bool'/></Port><Instance id='a'><Class name='Copy'/></Instance><Instance id='m'><Class name='Mid'/></Instance><Connection src='' src-port='In' dst='a' dst-port='In'/><Connection src='' src-port='In' dst='m' dst-port='In'><Attribute name='bufferSize'><Expr kind='Literal' literal-kind='Integer' value='7'/></Attribute></Connection><Connection src='m' src-port='Out' dst='' dst-port='Out'><Attribute name='bufferSize'><Expr kind='Literal' literal-kind='Integer' value='3'/></Attribute></Connection><Connection src='a' src-port='Out' dst='' dst-port='Aside'/></XDF>
net Mid <XDF name='Mid'><Port kind='Input' name='In'><Type name='bool'/></Port><Port kind='Output' name='Out'><Type name='bool'/></Port><Instance id='b'><Class name='Copy'/></Instance><Instance id='n'><Class name='Inner'/></Instance><Connection src='' src-port='In' dst='b' dst-port='In'/><Connection src='' src-port='In' dst='n' dst-port='In'><Attribute name='bufferSize'><Expr kind='Literal' literal-kind='Integer' value='9'/></Attribute></Connection><Connection src='n' src-port='Out' dst='' dst-port='Out'><Attribute name='bufferSize'><Expr kind='Literal' literal-kind='Integer' value='600'/></Attribute></Connection></XDF>
net Inner <XDF name='Inner'><Port kind='Input' name='In'><Type name='bool'/></Port><Port kind='Output' name='Out'><Type name='bool'/></Port><Instance id='c'><Class name='Copy'/></Instance><Instance id='d'><Class name='Copy'/></Instance><Connection src='' src-port='In' dst='c' dst-port='In'><Attribute name='bufferSize'><Expr kind='Literal' literal-kind='Integer' value='8'/></Attribute></Connection><Connection src='' src-port='In' dst='d' dst-port='In'/><Connection src='c' src-port='Out' dst='' dst-port='Out'/></XDF>
actor Copy In:bool ; Out:bool
# out of two networks and into two
= m/n/s:Begin k/n/r:End ; ; ; 0.0>1.0:6:Bool 
net T <XDF name='T'><Instance id='m'><Class name='Up'/></Instance><Instance id='k'><Class name='Down'/></Instance><Connection src='m' src-port='Out' dst='k' dst-port='In'/></XDF>
net Up <XDF name='Up'><Port kind='Output' name='Out'><Type name='bool'/></Port><Instance id='n'><Class name='Source'/></Instance><Connection src='n' src-port='Out' dst='' dst-port='Out'><Attribute name='bufferSize'><Expr kind='Literal' literal-kind='Integer' value='4'/></Attribute></Connection></XDF>
net Source <XDF name='Source'><Port kind='Output' name='Out'><Type name='bool'/></Port><Instance id='s'><Class name='Begin'/></Instance><Connection src='s' src-port='Out' dst='' dst-port='Out'/></XDF>
net Down <XDF name='Down'><Port kind='Input' name='In'><Type name='bool'/></Port><Instance id='n'><Class name='Sink'/></Instance><Connection src='' src-port='In' dst='n' dst-port='In'><Attribute name='bufferSize'><Expr kind='Literal' literal-kind='Integer' value='6'/></Attribute></Connection></XDF>
net Sink <XDF name='Sink'><Port kind='Input' name='In'><Type name='bool'/></Port><Instance id='r'><Class name='End'/></Instance><Connection src='' src-port='In' dst='r' dst-port='In'><Attribute name='bufferSize'><Expr kind='Literal' literal-kind='Integer' value='5'/></Attribute></Connection></XDF>
actor Begin  ; Out:bool
actor End In:bool ;";

/// Links and their capacities.
const CONNECTIONS: &str = "
# one output with two readers, and a size that is asked for
= c:Copy s:Sum j:Join ; In:Uint(8) ; Out:Uint(8) ; 0>0.0:512:Uint(8) 0.0>1.0:512:Uint(8) 1.0>2.0:512:Uint(8) 0.0>2.1:1:Uint(8) 2.0>0:512:Uint(8) 
net Pair <XDF name='Pair'><Port kind='Input' name='In'><Type name='uint'><Entry kind='Expr' name='size'><Expr kind='Literal' literal-kind='Integer' value='8'/></Entry></Type></Port><Port kind='Output' name='Out'><Type name='uint'><Entry kind='Expr' name='size'><Expr kind='Literal' literal-kind='Integer' value='8'/></Entry></Type></Port><Instance id='c'><Class name='Copy'/></Instance><Instance id='s'><Class name='Sum'/></Instance><Instance id='j'><Class name='Join'/></Instance><Connection src='' src-port='In' dst='c' dst-port='In'/><Connection src='c' src-port='Out' dst='s' dst-port='In'/><Connection src='c' src-port='Out' dst='j' dst-port='B'><Attribute name='bufferSize'><Expr kind='Literal' literal-kind='Integer' value='1'/></Attribute></Connection><Connection src='s' src-port='Out' dst='j' dst-port='A'/><Connection src='j' src-port='Out' dst='' dst-port='Out'/></XDF>
actor Copy In:u8 ; Out:u8
actor Sum In:u8:2 ; Out:u8
actor Join A:u8 B:u8 ; Out:u8
# a ring
= p:Race q:Race ; ; ; 1.0>0.0:512:Uint(8) 0.0>1.0:512:Uint(8) 
net Ring <XDF name='Ring'><Instance id='p'><Class name='Race'/></Instance><Instance id='q'><Class name='Race'/></Instance><Connection src='p' src-port='Out' dst='q' dst-port='In'/><Connection src='q' src-port='Out' dst='p' dst-port='In'/></XDF>
actor Race In:u8 ; Out:u8
# the largest size that a connection asks for, over what is declared
= a:Copy ; In:Bool ; Out:Bool ; 0>0.0:20:Bool 0.0>0:1048576:Bool 
net T <XDF name='T'><Decl kind='Param' name='n'><Type name='int'/><Expr kind='Literal' literal-kind='Integer' value='20'/></Decl><Port kind='Input' name='In'><Type name='bool'/></Port><Port kind='Output' name='Out'><Type name='bool'/></Port><Instance id='a'><Class name='Copy'/></Instance><Connection src='' src-port='In' dst='a' dst-port='In'><Attribute name='bufferSize'><Expr kind='Literal' literal-kind='Integer' value='5'/></Attribute><Attribute name='bufferSize'><Expr kind='Var' name='n'/></Attribute></Connection><Connection src='a' src-port='Out' dst='' dst-port='Out'><Attribute name='bufferSize'><Expr kind='Literal' literal-kind='Integer' value='1048576'/></Attribute><Attribute name='bufferSize'><Expr kind='Literal' literal-kind='Integer' value='1'/></Attribute></Connection></XDF>
actor Copy In:bool ; Out:bool
# no capacity is below a rate
= a:Many ; In:Bool ; Out:Bool ; 0>0.0:64:Bool 0.0>0:600:Bool 
net T <XDF name='T'><Port kind='Input' name='In'><Type name='bool'/></Port><Port kind='Output' name='Out'><Type name='bool'/></Port><Instance id='a'><Class name='Many'/></Instance><Connection src='' src-port='In' dst='a' dst-port='In'><Attribute name='bufferSize'><Expr kind='Literal' literal-kind='Integer' value='2'/></Attribute></Connection><Connection src='a' src-port='Out' dst='' dst-port='Out'/></XDF>
actor Many In:bool:64 ; Out:bool:600
# elements in any order
= a:A k=4 ; In:Bool ; Out:Bool ; 0>0.0:512:Bool 0.0>0:512:Bool 
net T <XDF name='T'><Connection src='a' src-port='Out' dst='' dst-port='Out'/><Instance id='a'><Class name='A'/><Parameter name='k'><Expr kind='Var' name='k'/></Parameter></Instance><Connection src='' src-port='In' dst='a' dst-port='In'/><Port kind='Output' name='Out'><Type name='bool'/></Port><Port kind='Input' name='In'><Type name='bool'/></Port><Decl kind='Variable' name='k'><Type name='int'/><Expr kind='Literal' literal-kind='Integer' value='4'/></Decl></XDF>
actor A In:bool ; Out:bool
# ports without connections, and an instance named as a port of another network
= m/x:A x:A ; In:Bool ; Out:Bool ; 
net T <XDF name='T'><Port kind='Input' name='In'><Type name='bool'/></Port><Port kind='Output' name='Out'><Type name='bool'/></Port><Instance id='m'><Class name='M'/></Instance><Instance id='x'><Class name='A'/></Instance></XDF>
net M <XDF name='M'><Port kind='Input' name='x'><Type name='bool'/></Port><Port kind='Output' name='y'><Type name='bool'/></Port><Instance id='x'><Class name='A'/></Instance><Connection src='' src-port='x' dst='x' dst-port='In'/></XDF>
actor A In:bool ; Out:bool
# no instance
= ; ; ; 
net T <XDF name='T'/>";

/// What networks and actors are given.
const VALUES: &str = "
# one network at two levels, and what it is given at each: names are those of the network that gives
= x/a:Add K=1 N=2 y/z/a:Add K=6 N=2 ; ; ; 
net T <XDF name='T'><Decl kind='Variable' name='n'><Type name='int'/><Expr kind='Literal' literal-kind='Integer' value='1'/></Decl><Instance id='x'><Class name='Pass'/><Parameter name='K'><Expr kind='Var' name='n'/></Parameter></Instance><Instance id='y'><Class name='Deep'/><Parameter name='n'><Expr kind='BinOpSeq'><Expr kind='Var' name='n'/><Op name='+'/><Expr kind='Literal' literal-kind='Integer' value='5'/></Expr></Parameter></Instance></XDF>
net Deep <XDF name='Deep'><Decl kind='Param' name='n'><Type name='int'/></Decl><Instance id='z'><Class name='Pass'/><Parameter name='K'><Expr kind='Var' name='n'/></Parameter></Instance></XDF>
net Pass <XDF name='Pass'><Decl kind='Param' name='K'><Type name='int'/></Decl><Decl kind='Variable' name='n'><Type name='int'/><Expr kind='Literal' literal-kind='Integer' value='2'/></Decl><Instance id='a'><Class name='Add'/><Parameter name='K'><Expr kind='Var' name='K'/></Parameter><Parameter name='N'><Expr kind='Var' name='n'/></Parameter></Instance></XDF>
# a value is stored in the type of its parameter
= m/a:A p=44 v=88 ; ; ; 
net T <XDF name='T'><Decl kind='Variable' name='n'><Type name='int'/><Expr kind='Literal' literal-kind='Integer' value='300'/></Decl><Instance id='m'><Class name='M'/><Parameter name='p'><Expr kind='Var' name='n'/></Parameter></Instance></XDF>
net M <XDF name='M'><Decl kind='Param' name='p'><Type name='uint'><Entry kind='Expr' name='size'><Expr kind='Literal' literal-kind='Integer' value='8'/></Entry></Type></Decl><Instance id='a'><Class name='A'/><Parameter name='p'><Expr kind='Var' name='p'/></Parameter><Parameter name='v'><Expr kind='BinOpSeq'><Expr kind='Var' name='p'/><Op name='*'/><Expr kind='Literal' literal-kind='Integer' value='2'/></Expr></Parameter></Instance></XDF>
# defaults, which see the parameters before them
= m/a:A p=3 q=4 k/a:A p=7 q=8 ; ; ; 
net T <XDF name='T'><Instance id='m'><Class name='M'/></Instance><Instance id='k'><Class name='M'/><Parameter name='p'><Expr kind='Literal' literal-kind='Integer' value='7'/></Parameter></Instance></XDF>
net M <XDF name='M'><Decl kind='Param' name='p'><Type name='int'/><Expr kind='Literal' literal-kind='Integer' value='3'/></Decl><Decl kind='Param' name='q'><Type name='int'/><Expr kind='BinOpSeq'><Expr kind='Var' name='p'/><Op name='+'/><Expr kind='Literal' literal-kind='Integer' value='1'/></Expr></Decl><Instance id='a'><Class name='A'/><Parameter name='p'><Expr kind='Var' name='p'/></Parameter><Parameter name='q'><Expr kind='Var' name='q'/></Parameter></Instance></XDF>
# a parameter of the top has its default
= a:A p=true ; ; ; 
net T <XDF name='T'><Decl kind='Param' name='p'><Type name='bool'/><Expr kind='Literal' literal-kind='Boolean' value='true'/></Decl><Instance id='a'><Class name='A'/><Parameter name='p'><Expr kind='Var' name='p'/></Parameter></Instance></XDF>
# lists as parameters of networks
= m/a:A p=[ 1 255 ] ; ; ; 
net T <XDF name='T'><Decl kind='Variable' name='l'><Type name='List'><Entry kind='Type' name='type'><Type name='int'/></Entry><Entry kind='Expr' name='size'><Expr kind='Literal' literal-kind='Integer' value='2'/></Entry></Type><Expr kind='List'><Expr kind='Literal' literal-kind='Integer' value='1'/><Expr kind='Literal' literal-kind='Integer' value='-1'/></Expr></Decl><Instance id='m'><Class name='M'/><Parameter name='p'><Expr kind='Var' name='l'/></Parameter></Instance></XDF>
net M <XDF name='M'><Decl kind='Param' name='p'><Type name='List'><Entry kind='Type' name='type'><Type name='uint'><Entry kind='Expr' name='size'><Expr kind='Literal' literal-kind='Integer' value='8'/></Entry></Type></Entry><Entry kind='Expr' name='size'><Expr kind='Literal' literal-kind='Integer' value='2'/></Entry></Type></Decl><Instance id='a'><Class name='A'/><Parameter name='p'><Expr kind='Var' name='p'/></Parameter></Instance></XDF>";

/// Expressions of parameters and of types.
const EXPRESSIONS: &str = "
# attributes in any order, a comment, an attribute that is passed over, and 2 + 3 * 4
= a:Add K=14 ; In:Uint(8) ; Out:Uint(8) ; 0>0.0:512:Uint(8) 0.0>0:512:Uint(8) 
net Par <?xml version=\"1.0\" encoding=\"UTF-8\"?>\n<!-- a parameter -->\n<XDF version=\"0.1\" name=\"Par\">\n<Port name=\"In\" kind=\"Input\"><Type name=\"uint\"><Entry kind=\"Expr\" name=\"size\"><Expr kind=\"Literal\" literal-kind=\"Integer\" value=\"8\"/></Entry></Type></Port><Port kind=\"Output\" name=\"Out\"><Type name=\"uint\"><Entry kind=\"Expr\" name=\"size\"><Expr kind=\"Literal\" literal-kind=\"Integer\" value=\"8\"/></Entry></Type></Port>\n<Instance id=\"a\"><Class name=\"Add\"/><Parameter name=\"K\"><Expr kind=\"BinOpSeq\">\n<Expr kind=\"Literal\" literal-kind=\"Integer\" value=\"2\"/><Op name=\"+\"/>\n<Expr value=\"3\" kind=\"Literal\" literal-kind=\"Integer\"/><Op name=\"*\"/>\n<Expr kind=\"Literal\" literal-kind=\"Integer\" value=\"4\"/></Expr></Parameter>\n<Attribute kind=\"Flag\" name=\"shown\"/></Instance>\n<Connection dst=\"a\" dst-port=\"In\" src=\"\" src-port=\"In\"/>\n<Connection src=\"a\" src-port=\"Out\" dst=\"\" dst-port=\"Out\"/>\n</XDF>
actor Add In:u8 ; Out:u8
# expressions
= a:A l=[ 1 5 ] t=false e=16 g=5 h=13 u=-5 b=-1 c=true m=-3 ; ; ; 
net T <XDF name='T'><Instance id='a'><Class name='A'/><Parameter name='l'><Expr kind='List'><Expr kind='Literal' literal-kind='Integer' value='1'/><Expr kind='BinOpSeq'><Expr kind='Literal' literal-kind='Integer' value='2'/><Op name='+'/><Expr kind='Literal' literal-kind='Integer' value='3'/></Expr></Expr></Parameter><Parameter name='t'><Expr kind='UnaryOp'><Op name='not'/><Expr kind='Literal' literal-kind='Boolean' value='true'/></Expr></Parameter><Parameter name='e'><Expr kind='BinOpSeq'><Expr kind='Literal' literal-kind='Integer' value='1'/><Op name='&lt;&lt;'/><Expr kind='Literal' literal-kind='Integer' value='4'/></Expr></Parameter><Parameter name='g'><Expr kind='BinOpSeq'><Expr kind='Literal' literal-kind='Integer' value='10'/><Op name='-'/><Expr kind='Literal' literal-kind='Integer' value='2'/><Op name='-'/><Expr kind='Literal' literal-kind='Integer' value='3'/></Expr></Parameter><Parameter name='h'><Expr kind='BinOpSeq'><Expr kind='Literal' literal-kind='Integer' value='2'/><Op name='+'/><Expr kind='Literal' literal-kind='Integer' value='3'/><Op name='*'/><Expr kind='Literal' literal-kind='Integer' value='4'/><Op name='-'/><Expr kind='Literal' literal-kind='Integer' value='1'/></Expr></Parameter><Parameter name='u'><Expr kind='UnaryOp'><Op name='-'/><Expr kind='Literal' literal-kind='Integer' value='5'/></Expr></Parameter><Parameter name='b'><Expr kind='UnaryOp'><Op name='~'/><Expr kind='Literal' literal-kind='Integer' value='0'/></Expr></Parameter><Parameter name='c'><Expr kind='BinOpSeq'><Expr kind='Literal' literal-kind='Integer' value='1'/><Op name='&lt;'/><Expr kind='Literal' literal-kind='Integer' value='2'/><Op name='and'/><Expr kind='Literal' literal-kind='Integer' value='3'/><Op name='='/><Expr kind='Literal' literal-kind='Integer' value='3'/></Expr></Parameter><Parameter name='m'><Expr kind='BinOpSeq'><Expr kind='Literal' literal-kind='Integer' value='-7'/><Op name='mod'/><Expr kind='Literal' literal-kind='Integer' value='4'/></Expr></Parameter></Instance></XDF>
# types of ports over what is declared; a link has the type of its reader
= m/a:A ; In:Uint(12) ; Out:Int(13) ; 0>0.0:512:Uint(8) 0.0>0:512:Int(13) 
net T <XDF name='T'><Decl kind='Param' name='w'><Type name='int'/><Expr kind='Literal' literal-kind='Integer' value='12'/></Decl><Port kind='Input' name='In'><Type name='uint'><Entry kind='Expr' name='size'><Expr kind='Var' name='w'/></Entry></Type></Port><Port kind='Output' name='Out'><Type name='int'><Entry kind='Expr' name='size'><Expr kind='BinOpSeq'><Expr kind='Var' name='w'/><Op name='+'/><Expr kind='Literal' literal-kind='Integer' value='1'/></Expr></Entry></Type></Port><Instance id='m'><Class name='M'/><Parameter name='w'><Expr kind='Literal' literal-kind='Integer' value='9'/></Parameter></Instance><Connection src='' src-port='In' dst='m' dst-port='In'/><Connection src='m' src-port='Out' dst='' dst-port='Out'/></XDF>
net M <XDF name='M'><Decl kind='Param' name='w'><Type name='int'/></Decl><Port kind='Input' name='In'><Type name='uint'><Entry kind='Expr' name='size'><Expr kind='Var' name='w'/></Entry></Type></Port><Port kind='Output' name='Out'><Type name='int'/></Port><Instance id='a'><Class name='A'/></Instance><Connection src='' src-port='In' dst='a' dst-port='In'/><Connection src='a' src-port='Out' dst='' dst-port='Out'/></XDF>
actor A In:u8 ; Out:i16";
