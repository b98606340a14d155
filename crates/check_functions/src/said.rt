//! Which functions say a name in what must be constant.

ghost use Rattle.std.specs.Prelude.{◌≡◌, [], IfOk, OnOk, false};
ghost use Rattle.cal_ast.specs.View.{function_tree};
ghost use Rattle.check_functions.specs.Known.{fun_decls};
ghost use Rattle.check_functions.specs.Needs.{nothing, with_needs};
ghost use Rattle.check_functions.specs.Said.{AddsPlace, AreSaid, Says, items_or_none, places_in, with_places};

use crate::constants::add_fun;
use crate::declared::DeclaredFun;
use crate::needs::Needs;
use cal_ast::Function;
use indexmap::IndexMap;
use rvc_base::Memory;
use std::alloc::Global;
use std::marker::Model;

/// The places of the functions that say a name, by its name, so that a look-up takes the same time however many names
/// there are. The places of a name ascend.
#[derive(Drop)]
pub(crate) struct Said {
    alloc: Global,
    places: IndexMap<String, Vec<usize>>,
}

impl Model for Said {
    ghost use Rattle.std.specs.Prelude.{List, map};
    ghost use Rattle.check_functions.specs.Said.{Saying, saying_of};

    ghost Value = { List Saying };

    ghost view = { λ said. map saying_of said.places.entries };
}

impl Said {
    /// No function says anything.
    pub fn new(alloc: Global) -> Said
        ensures { result ≡ [] }
    {
        Said {
            alloc,
            places: IndexMap::new(alloc),
        }
    }

    /// The places of the functions that say a name.
    pub fn places(&self, name: &str) -> &[usize]
        ensures { result.now ≡ places_in name.now self.now }
    {
        match self.places.get(name) {
            Some(places) => places.as_slice(),
            None => &[],
        }
    }

    /// Puts the places of a name, and gives those that it had.
    fn put(&mut self, name: &str, places: Vec<usize>) -> Result<Vec<usize>, Memory>
        ensures put { OnOk result (self.new ≡ with_places name.now places.items self.old) }
        ensures before { IfOk result (λ before. before.items ≡ places_in name.now self.old) }
    {
        let name = String::from_str(self.alloc, name)?;
        let before = self.places.insert(name, places)?;
        Ok(places_or_none(self.alloc, before))
    }

    /// The function at a place says a name.
    pub fn add(&mut self, name: &str, place: usize) -> Result<(), Memory>
        ensures { OnOk result (AddsPlace name.now place self.old self.new) }
    {
        let mut places = self.put(name, Vec::new(self.alloc))?;
        places.push(place)?;
        let _none = self.put(name, places)?;
        Ok(())
    }
}

/// Places, or none of them.
fn places_or_none(alloc: Global, places: Option<Vec<usize>>) -> Vec<usize>
    ensures { result.items ≡ items_or_none places }
{
    match places {
        Some(places) => places,
        None => Vec::new(alloc),
    }
}

/// The function at a place says what it needs.
fn add_said(alloc: Global, said: &mut Said, place: usize, f: &Function) -> Result<(), Memory>
    ensures { OnOk result (Says (with_needs false (function_tree f.now) nothing).names place
        said.old said.new) }
{
    let mut needs = Needs::new(alloc);
    say_needs(&mut needs, said, place, f)
}

/// The same, with nothing that is needed so far.
fn say_needs(needs: &mut Needs, said: &mut Said, place: usize, f: &Function) -> Result<(), Memory>
    requires { needs.old ≡ nothing }
    ensures { OnOk result (Says (with_needs false (function_tree f.now) nothing).names place
        said.old said.new) }
{
    add_fun(needs, f)?;
    needs.say(said, place)
}

/// Which of these functions say a name.
pub(crate) fn said_in(alloc: Global, funs: &[DeclaredFun]) -> Result<Said, Memory>
    ensures { IfOk result (λ said. AreSaid (fun_decls funs.now) said) }
{
    let mut said = Said::new(alloc);
    add_all_said(alloc, &mut said, funs)?;
    Ok(said)
}

/// The same, in an index.
fn add_all_said(alloc: Global, said: &mut Said, funs: &[DeclaredFun]) -> Result<(), Memory>
    ensures { OnOk result (AreSaid (fun_decls funs.now) said.new) }
{
    let mut place = 0usize;
    for f in funs {
        add_said(alloc, said, place, f.decl)?;
        place += 1;
    }
    Ok(())
}
