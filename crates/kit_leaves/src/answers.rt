//! Leaves of a network with the places of their actors, as text.

use crate::files::set_of;
use cal_model::Value;
use check_leaves::{LeafActors, check_leaves};
use fnl_tree::{Leaf, LeafValue};
use rvc_base::{Front, Memory, Place};
use std::alloc::Global;

/// A class, and the values that are given to its parameters.
pub type Given = (&'static str, &'static [(&'static str, i128)]);

/// The leaf of a number.
fn leaf_of(a: Global, given: Given, number: u32) -> Result<Leaf, Memory> {
    let mut bindings = Vec::new(a);
    for &(name, value) in given.1 {
        let place = Place {
            file: 1,
            offset: number,
        };
        bindings.push(LeafValue {
            name: String::from_str(a, name)?,
            value: Value::Num(value),
            place,
        })?;
    }
    Ok(Leaf {
        path: String::from_str(a, "i")?,
        class: String::from_str(a, given.0)?,
        class_at: Place { file: 0, offset: 0 },
        instance_at: Place {
            file: 2,
            offset: number,
        },
        bindings,
    })
}

/// What is answered of these leaves, as text.
fn shown(a: Global, answer: Result<LeafActors, Front>) -> Result<String, Memory> {
    match answer {
        Ok(found) => {
            let mut text = String::new(a);
            for place in &found.of_leaf {
                text.push_str(format!(in a; " {place}")?.as_str())?;
            }
            Ok(text)
        }
        Err(Front::Refused(r)) => {
            Ok(format!(in a; "{} in {} at {}", r.rule, r.place.file, r.place.offset)?)
        }
        Err(Front::Memory) => Ok(String::from_str(a, "memory")?),
    }
}

/// The place of the actor of each leaf, each behind a blank, or the rule that one of them breaks with its place. The files
/// are classes with their texts. A leaf stands in file 2 at its number, and so do its values in file 1.
///
/// # Errors
///
/// `Memory` if memory runs out.
pub fn answer(a: Global, files: &[(&str, &str)], given: &[Given]) -> Result<String, Memory> {
    let set = set_of(a, files)?;
    let mut leaves = Vec::new(a);
    for one in given {
        let Ok(number) = u32::try_from(leaves.len()) else {
            return Ok(String::from_str(a, "too many")?);
        };
        leaves.push(leaf_of(a, *one, number)?)?;
    }
    if leaves.len() > 1_024 {
        return Ok(String::from_str(a, "too many")?);
    }
    shown(a, check_leaves(a, &set, &leaves))
}
