//! One network where it stands, and networks in a set.

use crate::rows::same;
use fnl_bind::NetSet;
use fnl_read::NetFile;
use fnl_scopes::{ScopeFault, check_scopes};
use kit_networks::{add, cut, read};
use rvc_base::Memory;
use std::alloc::{AllocError, Global};
use std::process::Abort;

fn classes_of(alloc: Global, classes: &str) -> Result<Vec<String>, AllocError> {
    let mut found = Vec::new(alloc);
    for class in classes.split_whitespace() {
        found.push(String::from_str(alloc, class)?)?;
    }
    Ok(found)
}

fn told(alloc: Global, found: Result<(), ScopeFault>) -> Result<String, AllocError> {
    match found {
        Ok(()) => String::from_str(alloc, "fine"),
        Err(ScopeFault::Broken { rule, at }) => format!(in alloc; "{rule} at {at}"),
        Err(ScopeFault::Memory) => String::from_str(alloc, "memory"),
    }
}

pub(crate) fn broken_in(
    alloc: Global,
    net: &NetFile,
    class: &str,
    above: &str,
) -> Result<String, AllocError> {
    let classes = classes_of(alloc, above)?;
    told(alloc, check_scopes(alloc, net, class, &classes))
}

/// The rule of scope that the network of a class breaks that stands in networks of these classes, its own among them.
fn broken(alloc: Global, text: &str, class: &str, above: &str) -> Result<String, AllocError> {
    match read(alloc, 1, text) {
        Ok(net) => broken_in(alloc, &net, class, above),
        Err(_) => String::from_str(alloc, "no network"),
    }
}

/// Stops unless the network of a row breaks the rule that is told, which stands in a line `= `. Its class stands in a line
/// `of `, the classes of the networks round it in a line `in `, and its text in a line `net `.
fn hold_row(rt: &impl Abort, alloc: Global, row: &str) {
    let (_, row) = cut(row, "\n= ");
    let (expected, parts) = cut(row, "\nof ");
    let (class, parts) = cut(parts, "\nin ");
    let (above, text) = cut(parts, "\nnet ");
    let found = broken(alloc, text, class, above).expect(rt, "a text");
    same(rt, found.as_str(), expected);
}

#[test]
fn scopes(rt: HostRuntime) {
    for row in SCOPES.split("\n# ") {
        if !row.is_empty() {
            hold_row(&rt, rt.alloc(), row);
        }
    }
}

const SCOPES: &str = "
# the name of a class in packages
= fine
of p.q.T
in p.q.T
net <XDF name='T'/>
# another name, and an element behind the file's start
= S5 at 0
of U
in U
net  <XDF name='T'/>
# the name of a package
= S5 at 0
of p.q.T
in p.q.T
net <XDF name='q'/>
# a part of the name
= S5 at 0
of p.ST
in p.ST
net <XDF name='T'/>
# more than the name
= S5 at 0
of p.T
in p.T
net <XDF name='ST'/>
# ..
= fine
of T
in T
net <XDF name='T'></XDF>
# ..
= fine
of T
in T M
net <XDF name='T'><Instance id='a'><Class name='A'/></Instance><Instance id='b'><Class name='A'/></Instance></XDF>
# ..
= fine
of T
in T
net <XDF name='T'><Decl kind='Param' name='p'><Type name='int'/></Decl><Decl kind='Variable' name='v'><Type name='int'/><Expr kind='Var' name='p'/></Decl><Instance id='a'><Class name='A'/><Parameter name='k'><Expr kind='Var' name='v'/></Parameter></Instance></XDF>
# ..
= N3 at 31
of T
in A
net <XDF name='T'><Instance id='a'><Class name='A'/></Instance></XDF>
# one of those outside
= N3 at 76
of T
in T M
net <XDF name='T'><Instance id='x'><Class name='X'/></Instance><Instance id='m'><Class name='M'/></Instance></XDF>
# ..
= N3 at 76
of T
in M T
net <XDF name='T'><Instance id='x'><Class name='X'/></Instance><Instance id='t'><Class name='T'/></Instance></XDF>
# its own class is one of those that are told
= fine
of T
in M
net <XDF name='T'><Instance id='t'><Class name='T'/></Instance></XDF>
# classes are whole
= fine
of T
in A
net <XDF name='T'><Instance id='a'><Class name='x.A'/></Instance></XDF>
# ..
= N8 at 68
of T
in T
net <XDF name='T'><Port kind='Input' name='a'><Type name='bool'/></Port><Port kind='Output' name='a'><Type name='bool'/></Port></XDF>
# ..
= N8 at 125
of T
in T
net <XDF name='T'><Decl kind='Variable' name='a'><Type name='int'/><Expr kind='Literal' literal-kind='Integer' value='1'/></Decl><Decl kind='Param' name='a'><Type name='int'/></Decl></XDF>
# ..
= N8 at 59
of T
in T
net <XDF name='T'><Instance id='a'><Class name='A'/></Instance><Instance id='a'><Class name='B'/></Instance></XDF>
# a port, a declaration and an instance of one name
= fine
of T
in T
net <XDF name='T'><Port kind='Input' name='a'><Type name='bool'/></Port><Decl kind='Variable' name='a'><Type name='int'/><Expr kind='Literal' literal-kind='Integer' value='1'/></Decl><Instance id='a'><Class name='A'/></Instance></XDF>
# ..
= S1 at 154
of T
in T
net <XDF name='T'><Decl kind='Variable' name='v'><Type name='int'/><Expr kind='BinOpSeq'><Expr kind='Literal' literal-kind='Integer' value='1'/><Op name='+'/><Expr kind='Var' name='w'/></Expr></Decl></XDF>
# ..
= S1 at 81
of T
in T
net <XDF name='T'><Decl kind='Variable' name='v'><Type name='int'/><Expr kind='List'><Expr kind='Var' name='w'/></Expr></Decl></XDF>
# ..
= S1 at 91
of T
in T
net <XDF name='T'><Port kind='Input' name='In'><Type name='int'><Entry kind='Expr' name='size'><Expr kind='Var' name='w'/></Entry></Type></Port></XDF>
# ..
= S1 at 198
of T
in T
net <XDF name='T'><Port kind='Input' name='In'><Type name='bool'/></Port><Instance id='a'><Class name='A'/></Instance><Connection src='' src-port='In' dst='a' dst-port='In'><Attribute name='bufferSize'><Expr kind='Var' name='w'/></Attribute></Connection></XDF>
# ..
= S1 at 103
of T
in T
net <XDF name='T'><Instance id='a'><Class name='A'/><Parameter name='k'><Expr kind='UnaryOp'><Op name='-'/><Expr kind='Var' name='w'/></Expr></Parameter></Instance></XDF>
# ..
= S1 at 43
of T
in T
net <XDF name='T'><Port kind='Input' name='In'><Type name='Int'/></Port></XDF>
# ..
= S1 at 94
of T
in T
net <XDF name='T'><Decl kind='Variable' name='v'><Type name='List'><Entry kind='Type' name='type'><Type name='nat'/></Entry><Entry kind='Expr' name='size'><Expr kind='Literal' literal-kind='Integer' value='2'/></Entry></Type><Expr kind='Literal' literal-kind='Integer' value='1'/></Decl></XDF>
# declared later, and types that there are in the language
= fine
of T
in T
net <XDF name='T'><Decl kind='Variable' name='v'><Type name='float'/><Expr kind='Var' name='w'/></Decl><Decl kind='Variable' name='w'><Type name='half'/><Expr kind='Literal' literal-kind='Integer' value='1'/></Decl></XDF>";

/// A set of networks of these classes, whose files are numbered from 5.
fn set(alloc: Global, classes: &str) -> Result<NetSet, Memory> {
    let mut set = NetSet::new(alloc)?;
    let mut file = 5u32;
    for class in classes.split_whitespace() {
        if let Ok(net) = read(alloc, file, "<XDF name='N'/>") {
            let _ = add(&mut set, class, file, net);
        }
        file = file.saturating_add(1);
    }
    Ok(set)
}

/// The numbers of the files of these classes, and how many networks there are.
fn looked_up(alloc: Global, set: &NetSet, classes: &str) -> Result<String, Memory> {
    let mut out = String::new(alloc);
    for class in classes.split_whitespace() {
        match set.get(class) {
            Some(entry) => {
                let file = entry.file;
                write!(out, "{file} ")?;
            }
            None => out.push_str("none ")?,
        }
    }
    let count = set.len();
    write!(out, "of {count}")?;
    Ok(out)
}

/// What is found in a set of networks.
fn found(alloc: Global, classes: &str, asked: &str) -> Result<String, Memory> {
    let set = set(alloc, classes)?;
    looked_up(alloc, &set, asked)
}

#[test]
fn a_set_of_networks_is_asked_by_class(rt: HostRuntime) {
    for &(classes, asked, expected) in SETS {
        let found = found(rt.alloc(), classes, asked).expect(&rt, "a text");
        same(&rt, found.as_str(), expected);
    }
}

/// Classes of networks, those that are asked for, and their files.
const SETS: &[(&str, &str, &str)] = &[
    ("", "A", "none of 0"),
    ("A", "A B", "5 none of 1"),
    ("A p.A A.p B C D", "D p.A A A.p p", "10 6 5 7 none of 6"),
    // a second network of a class isn't added
    ("A B A", "A B", "5 6 of 2"),
];
