//! What is seen of names while more of them become known.

ghost use Rattle.std.specs.Prelude.{◌≡◌, ◌∷◌, IfOk, IsSome, List, OnOk, Some, true};
ghost use Rattle.cal_check.specs.Routines.{FunDecl};
ghost use Rattle.cal_check.specs.Variables.{seen};
ghost use Rattle.cal_model.specs.Kinding.{Known};
ghost use Rattle.check_functions.specs.Growing.{AreRenewed, Grows, IsKept, IsMade, IsSame, kept_in, with_alone, with_left};
ghost use Rattle.check_functions.specs.Known.{all_known, fun_decls, known_view, names_differ};
ghost use Rattle.check_functions.specs.Left.{Leaves};
ghost use Rattle.check_functions.specs.Order.{changes_all};
ghost use Rattle.check_functions.specs.Said.{places_in};

use crate::declared::DeclaredFun;
use crate::known::{KnownName, add_name, names_alone};
use crate::order::{Order, order_of};
use crate::renewing::{leave, renew_each};
use crate::said::{Said, said_in};
use crate::seen::seen_over;
use const_eval::Env;
use indexmap::IndexSet;
use rvc_base::Memory;
use std::alloc::Global;
use std::marker::Model;

/// Names that become known one after the other: alone, and with all functions that are seen over them.
///
/// The names with the functions are made when they are asked for, and stay. A name that becomes known is added to them.
/// A function depends on the names that it says in its sizes and bounds, and on those that the functions use which it calls
/// there. So those that say the name are judged anew when the names with the functions are asked for next. All is made
/// anew then if a function uses the name that is called in some size or bound, directly or indirectly; so it is if a
/// function that was found breaks a rule in its head now.
#[derive(Drop)]
pub struct GrowingNames {
    alloc: Global,
    alone: Env,
    /// What is called in sizes and bounds, and the names that it uses.
    order: Option<Order>,
    said: Said,
    seen: Option<Env>,
    /// The places of the functions that are to be judged anew before those names are asked for.
    left: IndexSet<usize>,
}

impl Model for GrowingNames {
    ghost use Rattle.std.specs.Coded.{codes};
    ghost use Rattle.cal_model.specs.contracts.bound.BoundFun as fun;
    ghost use Rattle.cal_model.specs.contracts.kind.Kind as kind;
    ghost use Rattle.cal_model.specs.contracts.value.Value as value;
    ghost use Rattle.check_functions.specs.Growing.{Growing};

    ghost Value = { Growing };

    ghost coded = { Prim.hlevel (codes, kind.the_row.coded, value.the_row.coded, fun.the_row.coded) };

    ghost view = { λ names. record {
      alone = names.alone;
      order = names.order;
      said = names.said;
      seen = names.seen;
      left = names.left.keys;
    } };
}

impl GrowingNames {
    /// Those that are known, and functions.
    ///
    /// # Errors
    ///
    /// `Memory` if memory runs out.
    pub fn new(
        alloc: Global,
        known: &[KnownName],
        funs: &[DeclaredFun],
    ) -> Result<GrowingNames, Memory>
        ensures { IfOk result (λ names. IsKept (kept_in names) (fun_decls funs.now)
            (all_known known.now)) }
    {
        let alone = names_alone(alloc, known)?;
        let order = order_of(alloc, funs)?;
        let said = said_in(alloc, funs)?;
        Ok(GrowingNames {
            alloc,
            alone,
            order,
            said,
            seen: None,
            left: IndexSet::new(alloc),
        })
    }

    /// The names without functions.
    pub fn alone(&self) -> &Env
        ensures { result.now ≡ self.now.alone }
    {
        &self.alone
    }

    /// The names with all functions, which were made.
    pub fn seen(&self) -> &Env
        requires { IsSome self.now.seen }
        ensures { Some result.now ≡ self.now.seen }
    {
        self.seen.as_ref().unwrap()
    }

    /// Makes the names with all functions, unless they are those that are seen. These are the names that are known, and
    /// the names of the functions differ.
    ///
    /// [`names_differ`](crate::names_differ) tests the condition on functions.
    ///
    /// # Errors
    ///
    /// `Memory` if memory runs out. What is kept isn't said then.
    pub fn make(&mut self, known: &[KnownName], funs: &[DeclaredFun]) -> Result<(), Memory>
        requires differ { names_differ (fun_decls funs.now) ≡ true }
        requires kept { IsKept (kept_in self.old) (fun_decls funs.now) (all_known known.now) }
        ensures kept { OnOk result (IsKept (kept_in self.new) (fun_decls funs.now)
            (all_known known.now)) }
        ensures made { OnOk result (IsSome self.new.seen) }
        ensures alike { OnOk result (IsMade self.new.seen
            (seen (fun_decls funs.now) (all_known known.now))) }
    {
        if self.renew(funs)? {
            self.left.clear();
            return Ok(());
        }
        let env = seen_over(self.alloc, known, funs, &self.order)?;
        self.left.clear();
        self.seen = Some(env);
        Ok(())
    }

    /// Judges those functions anew that are left, if the others are kept. Tells whether that can be done.
    fn renew(&mut self, funs: &[DeclaredFun]) -> Result<bool, Memory>
        ensures same { OnOk result (IsSame (kept_in self.old) (kept_in self.new)) }
        ensures renewed { IfOk result (λ fits. fits ≡ true
            → AreRenewed (fun_decls funs.now) (kept_in self.old) (kept_in self.new)) }
    {
        match &mut self.seen {
            Some(env) => renew_each(env, self.alloc, self.left.as_slice(), funs),
            None => Ok(false),
        }
    }

    /// A name becomes known.
    ///
    /// # Errors
    ///
    /// `Memory` if memory runs out. What is kept isn't said then.
    pub fn add(&mut self, x: &KnownName) -> Result<(), Memory>
        ensures { OnOk result ((fs : List FunDecl) (known : List Known)
            → IsKept (kept_in self.old) fs known
            → IsKept (kept_in self.new) fs (known_view x.now ∷ known)) }
    {
        self.add_alone(x)?;
        self.add_seen(x)
    }

    /// Adds a name to those without functions.
    fn add_alone(&mut self, x: &KnownName) -> Result<(), Memory>
        ensures { OnOk result (kept_in self.new
            ≡ with_alone (known_view x.now) (kept_in self.old)) }
    {
        add_name(&mut self.alone, self.alloc, x)
    }

    /// Adds a name to those with functions, if they are kept. They aren't if all functions may be others now.
    fn add_seen(&mut self, x: &KnownName) -> Result<(), Memory>
        ensures { OnOk result (Grows (known_view x.now) (kept_in self.old) (kept_in self.new)) }
    {
        if self.changes_all(x.name.as_str()) {
            self.seen = None;
            return Ok(());
        }
        self.add_said(x)
    }

    /// Whether all functions may be others once a name is known.
    fn changes_all(&self, name: &str) -> bool
        ensures { result ≡ changes_all name.now self.now.order }
    {
        match &self.order {
            Some(order) => order.contains(name),
            None => true,
        }
    }

    /// Adds a name to those with functions. Those that say it are left to be judged anew.
    fn add_said(&mut self, x: &KnownName) -> Result<(), Memory>
        ensures added { OnOk result (kept_in self.new
            ≡ with_left (known_view x.now) self.new.left (kept_in self.old)) }
        ensures leaves { OnOk result (Leaves (places_in (known_view x.now).name self.old.said)
            self.old.left self.new.left) }
    {
        leave(&mut self.left, self.said.places(x.name.as_str()))?;
        match &mut self.seen {
            Some(env) => add_name(env, self.alloc, x),
            None => Ok(()),
        }
    }
}
