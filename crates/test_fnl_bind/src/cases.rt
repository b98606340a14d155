//! Networks that were made at random, with what another implementation says of them: the rule and its place, of which it
//! may allow several, or the actors and how many links there are.

use crate::rows::hold;
use kit_networks::Told;

#[test]
fn refused(rt: HostRuntime) {
    hold(&rt, rt.alloc(), Told::Whole, REFUSED_NAMES);
    hold(&rt, rt.alloc(), Told::Whole, REFUSED_CONNECTIONS);
    hold(&rt, rt.alloc(), Told::Whole, REFUSED_VALUES);
}

/// Names that are unknown, stand twice or lead in a circle.
const REFUSED_NAMES: &str = "
# ..
= N2 1 211
net T <?xml version=\"1.0\"?><XDF version=\"1\" name=\"T\"><Port kind=\"Input\" name=\"In\"><Type name=\"uint\"><Entry kind=\"Expr\" name=\"size\">\n<Expr kind=\"Literal\" literal-kind=\"Integer\" value=\"8\"/></Entry></Type></Port><!-- --><Instance id=\"a\"><Class name=\"Inner2\"/></Instance><Port kind=\"Output\" name=\"Out\"><Type name=\"uint\"><Entry kind=\"Expr\" name=\"size\"><!-- c --><Expr kind=\"Literal\" literal-kind=\"Integer\" value=\"8\"/></Entry></Type></Port></XDF>
net Inner2 <XDF name=\"Inner2\"><Decl kind=\"Param\" name=\"K\"><Type name=\"int\"/></Decl></XDF>
# ..
= N3 2 36 or N3 1 201
net T \n<XDF version=\"1\" name=\"T\"><Port kind=\"Input\" name=\"In\"><Type name=\"uint\"><Entry kind=\"Expr\" name=\"size\"><Expr kind=\"Literal\" literal-kind=\"Integer\" value=\"8\"/></Entry>\n</Type></Port><Instance id=\"a\">\t<Class name=\"Circle\"/></Instance><Port kind=\"Output\" name=\"Out\"><Type name=\"uint\">\n<Entry kind=\"Expr\" name=\"size\"><Expr kind=\"Literal\" literal-kind=\"Integer\" value=\"8\"/></Entry></Type></Port>\t</XDF>
net Circle <XDF name=\"Circle\"><Instance id=\"a\"><Class name=\"T\"/></Instance></XDF>
# ..
= N3 1 374
net T <XDF name=\"T\"><Port kind=\"Input\" name=\"In\"><Type name=\"uint\"><Entry kind=\"Expr\" name=\"size\"><Expr kind=\"Literal\" literal-kind=\"Integer\" value=\"8\"/></Entry><!-- c --></Type></Port><Port kind=\"Output\" name=\"Out\"><Type name=\"uint\"><Entry kind=\"Expr\" name=\"size\"><Expr kind=\"Literal\" literal-kind=\"Integer\" value=\"8\"/>\t</Entry><!-- c --></Type><!-- c --></Port><Instance id=\"a\"><Class name=\"T\"/></Instance>\t</XDF>
# ..
= N8 1 338
net T <XDF name=\"T\"><Port kind=\"Input\" name=\"In\"><Type name=\"uint\"><Entry kind=\"Expr\" name=\"size\"><Expr kind=\"Literal\" literal-kind=\"Integer\" value=\"8\"/> </Entry></Type></Port><Port kind=\"Output\" name=\"Out\"><Type name=\"uint\">\t<Entry kind=\"Expr\" name=\"size\"><Expr kind=\"Literal\" literal-kind=\"Integer\" value=\"8\"/></Entry><!-- c --></Type></Port><Port kind=\"Input\" name=\"In\"><!-- c --><Type name=\"uint\"><Entry kind=\"Expr\" name=\"size\"> <Expr kind=\"Literal\" literal-kind=\"Integer\" value=\"8\"/></Entry>\n</Type></Port>\t</XDF>
# ..
= S1 1 213
net T <XDF version=\"1\" name=\"T\"><Port kind=\"Input\" name=\"In\"><Type name=\"uint\"><Entry kind=\"Expr\" name=\"size\"> <Expr kind=\"Literal\" literal-kind=\"Integer\" value=\"8\"/></Entry></Type></Port><Decl kind=\"Variable\" name=\"v\"><Type name=\"Foo\"/><Expr kind=\"Literal\" literal-kind=\"Integer\" value=\"1\"/></Decl><!-- c --><Port kind=\"Output\" name=\"Out\"><Type name=\"uint\"><Entry kind=\"Expr\" name=\"size\"><Expr kind=\"Literal\" literal-kind=\"Integer\" value=\"8\"/></Entry></Type></Port>\n</XDF>
# ..
= S1 1 231
net T <XDF version=\"1\" name=\"T\"><Port kind=\"Input\" name=\"In\"><Type name=\"uint\"><Entry kind=\"Expr\" name=\"size\"> <Expr kind=\"Literal\" literal-kind=\"Integer\" value=\"8\"/></Entry></Type></Port><Decl kind=\"Variable\" name=\"v\"><Type name=\"int\"/><Expr kind=\"Var\" name=\"nope\"/></Decl><Port kind=\"Output\" name=\"Out\"><Type name=\"uint\"><Entry kind=\"Expr\" name=\"size\"><Expr kind=\"Literal\" literal-kind=\"Integer\" value=\"8\"/></Entry>\t</Type></Port></XDF>";

/// Connections that there can't be.
const REFUSED_CONNECTIONS: &str = "
# ..
= N4 1 393
net T <XDF version=\"1\" name=\"T\"><Port kind=\"Input\" name=\"In\"> <!----> <Type name=\"uint\">\n<Entry kind=\"Expr\" name=\"size\"><Expr kind=\"Literal\" literal-kind=\"Integer\" value=\"8\"/></Entry></Type></Port><Instance id=\"a\"><Class name=\"Copy\"/></Instance><Instance id=\"b\"><Class name=\"Copy\"/></Instance><Connection src=\"a\" src-port=\"Out\" dst=\"\" dst-port=\"Out\"/><Instance id=\"c\"><Class name=\"Copy\"/></Instance><Connection src=\"b\" src-port=\"Out\" dst=\"\" dst-port=\"Out\"/><!-- c --><Port kind=\"Output\" name=\"Out\"><Type name=\"uint\"><Entry kind=\"Expr\" name=\"size\"><Expr kind=\"Literal\" literal-kind=\"Integer\" value=\"8\"/></Entry></Type></Port>\n</XDF>
actor Copy In:u8 ; Out:u8
# ..
= N4 1 441
net T <XDF name=\"T\"><Port kind=\"Input\" name=\"In\"><Type name=\"uint\"><Entry kind=\"Expr\" name=\"size\"><Expr kind=\"Literal\" literal-kind=\"Integer\" value=\"8\"/></Entry></Type></Port><Port kind=\"Output\" name=\"Out\"><Type name=\"uint\"><Entry kind=\"Expr\" name=\"size\"><Expr kind=\"Literal\" literal-kind=\"Integer\" value=\"8\"/></Entry></Type></Port><Instance id=\"a\"> <!----> <Class name=\"Copy\"/></Instance><Connection src=\"a\" src-port=\"Out\" dst=\"a\" dst-port=\"In\"/><Connection src=\"\" src-port=\"In\" dst=\"a\" dst-port=\"In\"/></XDF>
actor Copy In:u8 ; Out:u8
# ..
= N5 1 239
net T <!--ä--><XDF version=\"1\" name=\"T\"><Port kind=\"Input\" name=\"In\"><Type name=\"uint\"><Entry kind=\"Expr\" name=\"size\"><Expr kind=\"Literal\" literal-kind=\"Integer\" value=\"8\"/></Entry>\n</Type></Port><Instance id=\"a\"><Class name=\"Copy\"/></Instance><Connection src=\"\" src-port=\"Out\" dst=\"a\" dst-port=\"In\"/><Port kind=\"Output\" name=\"Out\">\n<Type name=\"uint\"><Entry kind=\"Expr\" name=\"size\"><Expr kind=\"Literal\" literal-kind=\"Integer\" value=\"8\"/></Entry></Type> </Port></XDF>
actor Copy In:u8 ; Out:u8
# ..
= N5 1 249
net T <XDF version=\"1\" name=\"T\"><Port kind=\"Input\" name=\"In\"><Type name=\"uint\"><Entry kind=\"Expr\" name=\"size\"><Expr kind=\"Literal\" literal-kind=\"Integer\" value=\"8\"/></Entry></Type></Port><Instance id=\"a\"><!-- c --><Class name=\"Copy\"/></Instance><!-- c --><Connection src=\"\" src-port=\"In\" dst=\"b\" dst-port=\"In\"/><Port kind=\"Output\" name=\"Out\"><Type name=\"uint\"><Entry kind=\"Expr\" name=\"size\"> <Expr kind=\"Literal\" literal-kind=\"Integer\" value=\"8\"/></Entry> </Type></Port></XDF>
actor Copy In:u8 ; Out:u8
# ..
= N5 1 251
net T <?xml version=\"1.0\"?><XDF version=\"1\" name=\"T\"><Port kind=\"Input\" name=\"In\"><Type name=\"uint\"><Entry kind=\"Expr\" name=\"size\"><Expr kind=\"Literal\" literal-kind=\"Integer\" value=\"8\"/></Entry></Type></Port><Instance id=\"a\"><Class name=\"Copy\"/></Instance> <Connection src=\"\" src-port=\"In\" dst=\"a\" dst-port=\"Nope\"/><Port kind=\"Output\" name=\"Out\"><Type name=\"uint\"><Entry kind=\"Expr\" name=\"size\">\n<Expr kind=\"Literal\" literal-kind=\"Integer\" value=\"8\"/></Entry></Type></Port> <!----> </XDF>
actor Copy In:u8 ; Out:u8
# ..
= N6 1 241
net T \n<XDF version=\"1\" name=\"T\"><Port kind=\"Input\" name=\"In\"><Type name=\"uint\">\t<Entry kind=\"Expr\" name=\"size\"><Expr kind=\"Literal\" literal-kind=\"Integer\" value=\"8\"/></Entry> <!----> </Type></Port> <Instance id=\"a\"><Class name=\"Flag\"/></Instance><Connection src=\"\" src-port=\"In\" dst=\"a\" dst-port=\"In\"/>\n<Port kind=\"Output\" name=\"Out\"><Type name=\"uint\"><Entry kind=\"Expr\" name=\"size\"><Expr kind=\"Literal\" literal-kind=\"Integer\" value=\"8\"/>\t</Entry></Type></Port></XDF>
actor Flag In:bool ; Out:bool
# ..
= N6 1 308
net T <!--ä--><XDF version=\"1\" name=\"T\"><Port kind=\"Input\" name=\"In\"><!-- c --><Type name=\"uint\"><Entry kind=\"Expr\" name=\"size\"><Expr kind=\"Literal\" literal-kind=\"Integer\" value=\"8\"/>\t</Entry><!-- c --></Type></Port><Instance id=\"a\"><Class name=\"Flag\"/></Instance><Instance id=\"b\">\t<Class name=\"Copy\"/></Instance><Connection src=\"a\" src-port=\"Out\" dst=\"b\" dst-port=\"In\"/><Port kind=\"Output\" name=\"Out\"><Type name=\"uint\">\n<Entry kind=\"Expr\" name=\"size\"> <!----> <Expr kind=\"Literal\" literal-kind=\"Integer\" value=\"8\"/></Entry></Type></Port></XDF>
actor Copy In:u8 ; Out:u8
actor Flag In:bool ; Out:bool
# ..
= N7 1 183
net T <XDF version=\"1\" name=\"T\"><Port kind=\"Input\" name=\"In\"><Type name=\"uint\"><Entry kind=\"Expr\" name=\"size\">\t<Expr kind=\"Literal\" literal-kind=\"Integer\" value=\"8\"/>\t</Entry></Type></Port><Connection src=\"\" src-port=\"In\" dst=\"\" dst-port=\"Out\"/><Port kind=\"Output\" name=\"Out\"><!-- c --><Type name=\"uint\"><Entry kind=\"Expr\" name=\"size\"><Expr kind=\"Literal\" literal-kind=\"Integer\" value=\"8\"/></Entry></Type></Port></XDF>
# ..
= N9 1 284
net T <XDF version=\"1\" name=\"T\"><Port kind=\"Input\" name=\"In\"><Type name=\"uint\"><Entry kind=\"Expr\" name=\"size\"><Expr kind=\"Literal\" literal-kind=\"Integer\" value=\"8\"/></Entry></Type></Port><Instance id=\"a\"><Class name=\"Copy\"/></Instance><Connection src=\"\" src-port=\"In\" dst=\"a\" dst-port=\"In\"><Attribute name=\"bufferSize\"><Expr kind=\"Literal\" literal-kind=\"Boolean\" value=\"true\"/></Attribute></Connection><Port kind=\"Output\" name=\"Out\"><Type name=\"uint\"><Entry kind=\"Expr\" name=\"size\"><Expr kind=\"Literal\" literal-kind=\"Integer\" value=\"8\"/>\n</Entry></Type></Port><!-- c --></XDF>
actor Copy In:u8 ; Out:u8";

/// Types and values that there can't be.
const REFUSED_VALUES: &str = "
# ..
= T1 1 386 or T1 1 408 or T1 1 478
net T <XDF name=\"T\"><Port kind=\"Input\" name=\"In\"><Type name=\"uint\"><Entry kind=\"Expr\" name=\"size\"><Expr kind=\"Literal\" literal-kind=\"Integer\" value=\"8\"/>\n</Entry></Type></Port><Port kind=\"Output\" name=\"Out\"><Type name=\"uint\"><Entry kind=\"Expr\" name=\"size\"><Expr kind=\"Literal\" literal-kind=\"Integer\" value=\"8\"/></Entry></Type></Port><!-- c --><Decl kind=\"Variable\" name=\"v\"><Type name=\"int\"/><Expr kind=\"BinOpSeq\"><Expr kind=\"Literal\" literal-kind=\"Integer\" value=\"1\"/>\n<Op name=\"+\"/><Expr kind=\"Literal\" literal-kind=\"Boolean\" value=\"true\"/></Expr></Decl>\t</XDF>
# ..
= T2 1 357
net T <XDF name=\"T\"><Port kind=\"Input\" name=\"In\"><Type name=\"uint\"><Entry kind=\"Expr\" name=\"size\"><Expr kind=\"Literal\" literal-kind=\"Integer\" value=\"8\"/></Entry></Type></Port><Port kind=\"Output\" name=\"Out\"><Type name=\"uint\"><Entry kind=\"Expr\" name=\"size\"><Expr kind=\"Literal\" literal-kind=\"Integer\" value=\"8\"/></Entry></Type></Port><Decl kind=\"Variable\" name=\"v\"><Type name=\"bool\"><Entry kind=\"Expr\" name=\"size\"><Expr kind=\"Literal\" literal-kind=\"Integer\" value=\"1\"/>\t</Entry></Type><Expr kind=\"Literal\" literal-kind=\"Boolean\" value=\"true\"/></Decl><!-- c --></XDF>
# ..
= T3 1 221
net T <!--ä--><XDF version=\"1\" name=\"T\"><Port kind=\"Input\" name=\"In\"><Type name=\"uint\"><Entry kind=\"Expr\" name=\"size\"><Expr kind=\"Literal\" literal-kind=\"Integer\" value=\"8\"/></Entry></Type></Port><Decl kind=\"Variable\" name=\"v\"><Type name=\"float\"/><Expr kind=\"Literal\" literal-kind=\"Integer\" value=\"1\"/></Decl><Port kind=\"Output\" name=\"Out\"><Type name=\"uint\"><Entry kind=\"Expr\" name=\"size\">\t<Expr kind=\"Literal\" literal-kind=\"Integer\" value=\"8\"/></Entry></Type></Port></XDF>
# ..
= T5 1 562
net T <XDF name=\"T\"><Port kind=\"Input\" name=\"In\"><Type name=\"uint\"><!-- c --><Entry kind=\"Expr\" name=\"size\"><Expr kind=\"Literal\" literal-kind=\"Integer\" value=\"8\"/></Entry></Type></Port><Port kind=\"Output\" name=\"Out\"><Type name=\"uint\"><Entry kind=\"Expr\" name=\"size\"><Expr kind=\"Literal\" literal-kind=\"Integer\" value=\"8\"/></Entry></Type></Port><Decl kind=\"Variable\" name=\"v\"><Type name=\"List\"><!-- c --><Entry kind=\"Type\" name=\"type\"><Type name=\"int\"/></Entry><Entry kind=\"Expr\" name=\"size\"><Expr kind=\"Literal\" literal-kind=\"Integer\" value=\"3\"/></Entry> <!----> </Type><Expr kind=\"List\"><Expr kind=\"Literal\" literal-kind=\"Integer\" value=\"3\"/></Expr></Decl></XDF>
# ..
= T7 1 254 or T7 1 276
net T <?xml version=\"1.0\"?><XDF version=\"1\" name=\"T\"><Port kind=\"Input\" name=\"In\"><Type name=\"uint\">\n<Entry kind=\"Expr\" name=\"size\"><Expr kind=\"Literal\" literal-kind=\"Integer\" value=\"8\"/>\t</Entry></Type></Port><Decl kind=\"Variable\" name=\"v\"> <Type name=\"int\"/><Expr kind=\"BinOpSeq\"><Expr kind=\"Literal\" literal-kind=\"Integer\" value=\"1\"/> <!----> <Op name=\"div\"/><Expr kind=\"Literal\" literal-kind=\"Integer\" value=\"0\"/></Expr>\t</Decl><Port kind=\"Output\" name=\"Out\"><Type name=\"uint\"><Entry kind=\"Expr\" name=\"size\"> <!----> <Expr kind=\"Literal\" literal-kind=\"Integer\" value=\"8\"/></Entry></Type></Port>\n</XDF>
# ..
= T8 1 220
net T <!--ä--><XDF version=\"1\" name=\"T\"><Port kind=\"Input\" name=\"In\"><Type name=\"uint\"><Entry kind=\"Expr\" name=\"size\"><Expr kind=\"Literal\" literal-kind=\"Integer\" value=\"8\"/></Entry>\n</Type></Port><Port kind=\"Input\" name=\"X\">\t<Type name=\"List\"><Entry kind=\"Type\" name=\"type\"><Type name=\"int\"/></Entry><Entry kind=\"Expr\" name=\"size\"><Expr kind=\"Literal\" literal-kind=\"Integer\" value=\"3\"/></Entry>\n</Type></Port><Port kind=\"Output\" name=\"Out\"><Type name=\"uint\"><Entry kind=\"Expr\" name=\"size\">\t<Expr kind=\"Literal\" literal-kind=\"Integer\" value=\"8\"/> <!----> </Entry></Type><!-- c --></Port></XDF>
# ..
= T9 1 230
net T <XDF version=\"1\" name=\"T\"><Port kind=\"Input\" name=\"In\"><Type name=\"uint\"><Entry kind=\"Expr\" name=\"size\"><Expr kind=\"Literal\" literal-kind=\"Integer\" value=\"8\"/></Entry></Type></Port><Decl kind=\"Variable\" name=\"v\"><Type name=\"int\"/><Expr kind=\"Var\" name=\"w\"/></Decl><Decl kind=\"Variable\" name=\"w\"><Type name=\"int\"/><Expr kind=\"Literal\" literal-kind=\"Integer\" value=\"1\"/></Decl><Port kind=\"Output\" name=\"Out\"><Type name=\"uint\"><Entry kind=\"Expr\" name=\"size\"><Expr kind=\"Literal\" literal-kind=\"Integer\" value=\"8\"/></Entry></Type></Port></XDF>
# ..
= Z4 1 371
net T <XDF name=\"T\"><Port kind=\"Input\" name=\"In\">\n<Type name=\"uint\"> <Entry kind=\"Expr\" name=\"size\"> <!----> <Expr kind=\"Literal\" literal-kind=\"Integer\" value=\"8\"/></Entry></Type></Port><Port kind=\"Output\" name=\"Out\"><Type name=\"uint\">\n<Entry kind=\"Expr\" name=\"size\"><Expr kind=\"Literal\" literal-kind=\"Integer\" value=\"8\"/></Entry>\t</Type></Port><Decl kind=\"Variable\" name=\"v\">\t<Type name=\"List\"><Entry kind=\"Type\" name=\"type\"><Type name=\"int\"/></Entry><Entry kind=\"Expr\" name=\"size\"><Expr kind=\"Literal\" literal-kind=\"Integer\" value=\"16385\"/></Entry></Type>\t<Expr kind=\"Literal\" literal-kind=\"Integer\" value=\"1\"/></Decl></XDF>";

#[test]
fn whole(rt: HostRuntime) {
    hold(&rt, rt.alloc(), Told::Outline, WHOLE);
    hold(&rt, rt.alloc(), Told::Outline, WHOLE_IN_PACKAGES);
}

const WHOLE: &str = "
# ..
= a0:Copy a1:Copy 2
net T <XDF name=\"T\"><Port kind=\"Input\" name=\"In\"><Type name=\"uint\"><Entry kind=\"Expr\" name=\"size\"><Expr kind=\"Literal\" literal-kind=\"Integer\" value=\"8\"/></Entry></Type></Port><Port kind=\"Output\" name=\"Out\"><Type name=\"uint\"><Entry kind=\"Expr\" name=\"size\"><Expr kind=\"Literal\" literal-kind=\"Integer\" value=\"8\"/></Entry></Type></Port><Instance id=\"a0\"><Class name=\"Copy\"/></Instance><Instance id=\"a1\"><Class name=\"Copy\"/></Instance><Connection src=\"\" src-port=\"In\" dst=\"a0\" dst-port=\"In\"><Attribute name=\"bufferSize\"><Expr kind=\"Literal\" literal-kind=\"Integer\" value=\"1048576\"/></Attribute></Connection><Connection src=\"a0\" src-port=\"Out\" dst=\"a1\" dst-port=\"In\"><Attribute name=\"bufferSize\"><Expr kind=\"Literal\" literal-kind=\"Integer\" value=\"1048576\"/></Attribute></Connection></XDF>
actor Copy In:u8 ; Out:u8
# ..
= x/x:dec.sub.x1 x/In:B2 x/In22:B3 4
net T_ \n<XDF  name=\"T_\"\r\n><Instance\nid=\"x\" x=\"&quot;q&quot;\"><Class\tname=\"dec.sub.B0\"/>\n</Instance><Decl\tname='K' kind=\"Variable\"\t> <Type name='uint'\r\n/><Expr kind=\"BinOpSeq\"\t>\t\n<Expr\tvalue=\"994\"\r\nkind=\"Literal\"\tliteral-kind=\"Integer\"\t/><Op\r\nname='*'\r\n/><Expr value=\"5\"  literal-kind=\"Integer\" kind='Literal'\n/> <Op\r\nname = \"-\" ></Op\t> <Expr\nvalue='-7' literal-kind=\"Integer\"  kind=\"Literal\"/></Expr  >\t\n</Decl> <!-- <XDF> &--> <Port\nkind=\"Input\" name = \"X_\" >\t\n<Type name = \"uint\"><Entry\r\nkind = 'Expr'\nname=\"size\" ><Expr  literal-kind='Integer' kind=\"Literal\" value=\"16\"\n/> </Entry>\t\n</Type>\n</Port\t> <!-- a-b --> <Port\r\nname=\"B_\"\tkind=\"Input\">\n<Type name='uint' />\t\n</Port\t><Connection src-port = 'B_' dst-port = \"X2\" src=\"\" dst=\"x\" /><Port\r\nkind='Input'\nname=\"size\"><Type\tname = 'uint' x-y=\"&lt;&amp;&gt;\"> <Entry name='size'\tkind=\"Expr\"> <Expr kind=\"BinOpSeq\">\t\n<Expr\r\nvalue=\"1\" literal-kind=\"Integer\"\r\nkind=\"Literal\"\t> </Expr\t><Op\r\nname='*' /> <Expr  kind='Literal'\r\nvalue=\"2\" literal-kind = \"Integer\" > </Expr\r\n>\n<Op\r\nname=\"+\"  ></Op  > <!-- a-b --> <Expr\tkind=\"Literal\" literal-kind='Integer'  value = \"14\"/></Expr ></Entry\r\n></Type></Port\n>\t\n<Port\r\nname = 'A2'\tkind = 'Output'><Type\r\nname='uint'  version='it&apos;s'  >\t\n<Entry\r\nkind=\"Expr\" name='size'>\n<Expr  literal-kind=\"Integer\"\tkind=\"Literal\" value=\"8\" /></Entry></Type\r\n>\t\n</Port></XDF> 
net dec.sub.B0 <XDF name=\"B0\"><Port kind=\"Input\" name=\"X2\"><Type name=\"uint\"/></Port><Port kind=\"Output\" name=\"Out2\"><Type name=\"uint\"><Entry kind=\"Expr\" name=\"size\"><Expr kind=\"Literal\" literal-kind=\"Integer\" value=\"16\"/></Entry></Type></Port><Instance id=\"x\"><Class name=\"dec.sub.x1\"/></Instance><Instance id=\"In\"><Class name=\"B2\"/></Instance><Instance id=\"In22\"><Class name=\"B3\"/></Instance><Connection src=\"\" src-port=\"X2\" dst=\"x\" dst-port=\"In\"/><Connection src=\"x\" src-port=\"q\" dst=\"In\" dst-port=\"A\"><Attribute name=\"bufferSize\" kind=\"Value\"><Expr kind=\"Literal\" literal-kind=\"Integer\" value=\"308\"/></Attribute></Connection><Connection src=\"x\" src-port=\"q\" dst=\"In\" dst-port=\"B\"/><Connection src=\"\" src-port=\"X2\" dst=\"In22\" dst-port=\"X\"/></XDF>
actor dec.sub.x1 In:u8 ; q:u8
actor B2 A:i16 B:i16 ; Out:i16
actor B3 X:u8 ; size:i16";

const WHOLE_IN_PACKAGES: &str = "
# ..
= structure/_:dec.sub.x1 structure/x:Top_2 structure/x14:Top_2 structure/a:Top_3 structure/c:Top_2 structure/loop:x4 structure/delay:N5 structure1:dec.sub.N6 12
net T_ <?xml version='1.0' encoding='utf-8'?>\n<XDF\r\nname=\"T_\"\r\n><Connection\r\ndst=\"structure\"\r\ndst-port='Out'\tversion=\"1\" src = \"\"\tsrc-port=\"In\"  > <Attribute name=\"bufferSize\"><Expr\nkind='Literal' value='4'  literal-kind = \"Integer\"\n></Expr> </Attribute> <Attribute\nname=\"bufferSize\"\r\n>\t\n<Expr kind='Literal'\nliteral-kind='Integer' value=\"512\"/></Attribute></Connection > <Connection dst=\"structure1\" src=\"\"\r\ndst-port=\"In\"\r\nsrc-port=\"In\"\t/><Instance\nid = \"structure\" >\t\n<Class\nname=\"dec.sub.N0\"/></Instance\r\n><Instance id=\"structure1\">\n<Class\r\nname=\"dec.sub.N6\"\t/><!-- <XDF> &--> </Instance ><Port\r\nname='In_'  kind=\"Input\"\t>\t\n<Type\tname='int'\t/></Port\r\n><Port  kind='Input' name=\"In\" > <Type\nname='int'  ><Entry name=\"size\"  kind=\"Expr\" >\t\n<!-- <XDF> &--> <Expr\nkind=\"Literal\" literal-kind=\"Integer\"\r\nvalue=\"12\" ></Expr >\n</Entry  >\n<!-- c --> </Type  >\n</Port> <Port\nname='B2' kind='Output'  >\n<Type name=\"uint\"\r\n><Entry  kind=\"Expr\"\nname=\"size\"\r\n> <Expr kind=\"Literal\"  value='8' literal-kind=\"Integer\" />\t\n</Entry >\t\n</Type\n></Port\t>\n</XDF >
net dec.sub.N0 <XDF name=\"N0\"><Instance id=\"_\"><Parameter name=\"K\"><Expr kind=\"Literal\" literal-kind=\"Integer\" value=\"731\"/></Parameter><Class name=\"dec.sub.x1\"/></Instance><Connection src=\"\" src-port=\"Out\" dst=\"_\" dst-port=\"In\"/><Connection src=\"_\" src-port=\"Out\" dst=\"x\" dst-port=\"A\"/><Connection src=\"_\" src-port=\"Out\" dst=\"x\" dst-port=\"B\"><Attribute name=\"bufferSize\"><Expr kind=\"Literal\" literal-kind=\"Integer\" value=\"1765\"/></Attribute></Connection><Connection src=\"\" src-port=\"Out\" dst=\"x14\" dst-port=\"A\"><Attribute name=\"bufferSize\" kind=\"Value\"><Expr kind=\"Literal\" literal-kind=\"Integer\" value=\"3\"/></Attribute></Connection><Port kind=\"Input\" name=\"Out\"><Type name=\"int\"><Entry kind=\"Expr\" name=\"size\"><Expr kind=\"Literal\" literal-kind=\"Integer\" value=\"8\"/></Entry></Type></Port><Instance id=\"x\"><Class name=\"Top_2\"/></Instance><Connection src=\"x\" src-port=\"Out\" dst=\"x14\" dst-port=\"B\"/><Instance id=\"x14\"><Class name=\"Top_2\"/></Instance><Connection src=\"_\" src-port=\"Out\" dst=\"a\" dst-port=\"In\"/><Connection src=\"\" src-port=\"Out\" dst=\"c\" dst-port=\"A\"/><Instance id=\"a\"><Attribute name=\"x\"><Attribute a=\"b\"/></Attribute><Class name=\"Top_3\"/></Instance><Instance id=\"c\"><Class name=\"Top_2\"/></Instance><Connection src=\"_\" src-port=\"Out\" dst=\"c\" dst-port=\"B\"/><Connection src=\"c\" src-port=\"Out\" dst=\"loop\" dst-port=\"A\"/><Connection src=\"delay\" src-port=\"Out\" dst=\"loop\" dst-port=\"B\"/><Connection src=\"loop\" src-port=\"Out\" dst=\"delay\" dst-port=\"In\"><Attribute name=\"bufferSize\"><Expr kind=\"Literal\" literal-kind=\"Integer\" value=\"64\"/></Attribute></Connection><Instance id=\"loop\"><Class name=\"x4\"/></Instance><Instance id=\"delay\"><Class name=\"N5\"/></Instance></XDF>
actor dec.sub.x1 In:u8 ; Out:u8
actor Top_2 A:i16 B:i16 ; Out:i16
actor Top_3 In:u8 ; Out:u8
actor x4 A:u8 B:i16 ; Out:u8
actor N5 In:u8 ; Out:u8
actor dec.sub.N6 In:i16 ; 
# ..
= c/c:Top_1 x/structure:Top_1 x/loop:Top_3 x/d:N4 In:Actor5 end_:N4 _:p.x6 11
net dec.T_ <XDF name=\"T_\"><Connection src=\"\" src-port=\"A\" dst=\"x\" dst-port=\"In2\"><Attribute name=\"bufferSize\" kind=\"Value\"><Expr kind=\"Literal\" literal-kind=\"Integer\" value=\"4\"/></Attribute></Connection><Instance id=\"c\"><Class name=\"bufferSize0\"/></Instance><Instance id=\"x\"><Class name=\"bufferSize2\"/></Instance><Instance id=\"In\"><Class name=\"Actor5\"/><Attribute name=\"shown\"/></Instance><Instance id=\"end_\"><Class name=\"N4\"/></Instance><Connection src=\"c\" src-port=\"Out\" dst=\"In\" dst-port=\"In\"/><Connection src=\"x\" src-port=\"size\" dst=\"end_\" dst-port=\"In\"/><Connection src=\"x\" src-port=\"Out\" dst=\"_\" dst-port=\"In\"/><Connection src=\"x\" src-port=\"Out\" dst=\"c\" dst-port=\"A_\"><Attribute name=\"bufferSize\" kind=\"Value\"><Expr kind=\"Literal\" literal-kind=\"Integer\" value=\"64\"/></Attribute></Connection><Port kind=\"Output\" name=\"A1\"><Type name=\"int\"><Entry kind=\"Expr\" name=\"size\"><Expr kind=\"Literal\" literal-kind=\"Integer\" value=\"8\"/></Entry></Type></Port><Connection src=\"_\" src-port=\"Out\" dst=\"x\" dst-port=\"In\"/><Connection src=\"In\" src-port=\"Out\" dst=\"\" dst-port=\"A1\"><Attribute name=\"bufferSize\"><Expr kind=\"Literal\" literal-kind=\"Integer\" value=\"4\"/></Attribute></Connection><Port kind=\"Input\" name=\"A\"><Type name=\"bool\"/></Port><Instance id=\"_\"><Class name=\"p.x6\"/></Instance></XDF>
net bufferSize0 <XDF name=\"bufferSize0\" >\n<Port\nname=\"A_\"  kind='Input'><Type\r\nname=\"uint\"\t>\t\n<Entry\tkind='Expr'  name='size'\r\n>\n<Expr  kind=\"Literal\"\nvalue='16'\tliteral-kind = \"Integer\"\r\n/></Entry  >\t\n</Type\n></Port ><Port\tkind = \"Output\" name='Out' >\t\n<Type name='int'\n><Entry kind='Expr'\tname=\"size\">\n<Expr kind='Literal' literal-kind=\"Integer\"\r\nvalue=\"8\"  >\t\n</Expr >\n</Entry >\n</Type></Port>\n<Instance  id='c'\n><Class\nname=\"Top_1\" /></Instance>\n<Connection\r\ndst-port=\"In\"\nsrc-port=\"A_\"\nsrc = \"\"  dst=\"c\"  > <Attribute\r\nkind='Value'\r\nname=\"bufferSize\" ><Expr  kind=\"Literal\" value='600'\nliteral-kind=\"Integer\"> </Expr><!-- \" > --> </Attribute  > <Attribute\tname=\"bufferSize\" >\t\n<Expr kind=\"BinOpSeq\"\t> <Expr  literal-kind=\"Integer\" value = \"67\"  kind = 'Literal' ></Expr > <Op\tname=\"&gt;>\"/> <Expr  literal-kind='Integer'  value=\"2\" kind=\"Literal\"/> <!-- \" > --> </Expr  ></Attribute\r\n></Connection ><Connection  src-port=\"Y\"  src=\"c\"\ndst=\"\" dst-port=\"Out\"><Attribute\nname='bufferSize' kind='Value'\r\n> <Expr\r\nkind=\"BinOpSeq\">\n<Expr  kind='Literal' value=\"259\" literal-kind=\"Integer\"></Expr ><Op\tname='>>'/><Expr kind = 'Literal'\nliteral-kind='Integer' value=\"2\" /></Expr\r\n>\t\n</Attribute></Connection  ><Connection src=\"\"  src-port='A_' dst-port='p'\tdst=\"c\"\r\n/> </XDF\t>\n
net bufferSize2 <XDF name=\"bufferSize2\"><Port kind=\"Input\" name=\"In\"><Type name=\"uint\"><Entry kind=\"Expr\" name=\"size\"><Expr kind=\"Literal\" literal-kind=\"Integer\" value=\"8\"/></Entry></Type></Port><Port kind=\"Input\" name=\"In2\"><Type name=\"bool\"/></Port><Port kind=\"Output\" name=\"size\"><Type name=\"int\"><Entry kind=\"Expr\" name=\"size\"><Expr kind=\"Literal\" literal-kind=\"Integer\" value=\"30\"/></Entry></Type></Port><Port kind=\"Output\" name=\"Out\"><Type name=\"uint\"><Entry kind=\"Expr\" name=\"size\"><Expr kind=\"Literal\" literal-kind=\"Integer\" value=\"8\"/></Entry></Type></Port><Instance id=\"structure\"><Class name=\"Top_1\"/></Instance><Instance id=\"loop\"><Class name=\"Top_3\"/></Instance><Instance id=\"d\"><Class name=\"N4\"/></Instance><Connection src=\"\" src-port=\"In\" dst=\"structure\" dst-port=\"p\"/><Connection src=\"structure\" src-port=\"Y\" dst=\"structure\" dst-port=\"In\"/><Connection src=\"structure\" src-port=\"Y\" dst=\"loop\" dst-port=\"A\"/><Connection src=\"d\" src-port=\"Out\" dst=\"loop\" dst-port=\"B\"><Attribute name=\"partId\"><Foo a=\"b\"/></Attribute></Connection><Connection src=\"loop\" src-port=\"Out\" dst=\"d\" dst-port=\"In\"/><Connection src=\"structure\" src-port=\"Y\" dst=\"\" dst-port=\"size\"/><Connection src=\"structure\" src-port=\"Y\" dst=\"\" dst-port=\"Out\"><Attribute name=\"bufferSize\"><Expr kind=\"Literal\" literal-kind=\"Integer\" value=\"16\"/></Attribute></Connection></XDF>
actor Top_1 p:u8 In:i16 ; Y:u8
actor Top_3 A:i16 B:i16 ; Out:i16
actor N4 In:i16 ; Out:i16
actor Actor5 In:i16 ; Out:i16
actor p.x6 In:u8 ; Out:u8";
