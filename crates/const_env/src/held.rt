//! A name with what is known of it.

ghost use Rattle.std.specs.Prelude.{◌≡◌, option_map};
ghost use Rattle.cal_model.specs.View.{value_view};
ghost use Rattle.const_env.specs.Held.{entry_view};

use cal_model::{Kind, Value};

/// A name with its kind, its value if it is a constant, and whether it may be assigned.
#[derive(Drop)]
pub(crate) struct Entry {
    pub name: String,
    pub kind: Kind,
    pub value: Option<Value>,
    pub changes: bool,
}

impl Entry {
    /// Its value, if it is a constant.
    pub fn value(&self) -> Option<&Value>
        ensures { option_map (λ v. value_view v.now) result ≡ (entry_view self.now).value }
    {
        match &self.value {
            Some(value) => Some(value),
            None => None,
        }
    }
}
