//! The encoding that the declaration gives.

ghost use Rattle.std.specs.Prelude.{◌≡◌, map};
ghost use Rattle.std.specs.List.{list_all};
ghost use Rattle.fnl_markup.specs.Step.{encodes};
ghost use Rattle.fnl_markup.specs.Tags.{plain_attribute};

use crate::tag::Attribute;

/// Whether each encoding that is given is UTF-8, in either case.
pub(crate) fn are_utf8(attributes: &[Attribute]) -> bool
    ensures { result ≡ list_all encodes (map plain_attribute attributes.now) }
{
    attributes.iter().all(|attribute| is_utf8(attribute))
}

/// Whether an attribute isn't the encoding, or is UTF-8.
fn is_utf8(attribute: &Attribute) -> bool
    ensures { result ≡ encodes (plain_attribute attribute.now) }
{
    attribute.name.as_slice() != b"encoding".as_slice()
        || attribute.value.eq_ignore_ascii_case(b"utf-8")
}
