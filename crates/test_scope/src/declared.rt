//! The names that files declare themselves, as text, or the second declaration of one.

use crate::rows::hold;
use kit_scopes::Asked;

#[test]
fn names_that_files_declare(rt: HostRuntime) {
    hold(&rt, rt.alloc(), Asked::Declared, FILES);
}

/// What the name that is asked for is to be, the name, and the file, with its text in full: names, second declarations,
/// a port, a tag and a state, which are names of other kinds, and units, whose class stands before the name.
const FILES: &str = "
# variable p in actor A ( int p ) ==> : int v ; function f ( ) --> int : 1 end end
= p
# function f in actor A ( int p ) ==> : int v ; function f ( ) --> int : 1 end end
= f
# procedure q in actor A ( ) ==> : procedure q ( ) begin end end
= q
# variable v in actor A ( ) ==> : procedure q ( ) begin end end
= S1 at 0
# variable p in actor A ( int p ) ==> : int p ; end
= S2 at 24
# variable p in actor A ( int p , int p ) ==> : end
= S2 at 18
# variable f in actor A ( ) ==> : int f ; function f ( ) --> int : 1 end end
= S2 at 26
# variable In in actor A ( ) int In ==> : int In ; In : action ==> end schedule fsm In : In ( In ) --> In ; end end
= In
# variable k in unit U : int k = 1 ; end
= lib.U.k
# variable k in unit U : int k = 1 ; int k = 2 ; end
= S2 at 21";
