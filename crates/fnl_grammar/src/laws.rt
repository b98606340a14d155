//! What holds of files that are read, as functions that do nothing.

ghost use Rattle.fnl_grammar.specs.Laws.{IsOneNetworkFile, NetworkFileIsRead, NoNetworkFileGoesOn, NoneGoesOn, ReadIsNetworkFile, ReadIsSpelled, SpelledIsRead, SpellsOne};
ghost use Rattle.fnl_grammar.specs.MarkupLaws.{NoDocumentGoesOn, SpellsOneMarkup, TagsAreRead, TagsAreSpelled};

use fnl_markup::no_markup_begins_so;
use fnl_read::no_network_begins_so;

/// A text is read as a network exactly if it spells that network by the grammar, and it spells at most one.
pub fn networks_are_read_as_they_are_spelled()
    ensures spelled { ReadIsSpelled }
    ensures read { SpelledIsRead }
    ensures one { SpellsOne }
{}

/// Where a text is refused by F1 at a byte, no text that begins with the bytes up to that one and with it spells a network
/// by the grammar.
pub fn no_spelled_network_begins_so()
    ensures { NoneGoesOn }
{
    no_network_begins_so();
}

/// A text is read as markup with some tags exactly if its bytes spell those tags by the productions of the markup, and
/// they spell at most one list of tags.
pub fn markup_is_read_as_it_is_spelled()
    ensures spelled { TagsAreSpelled }
    ensures read { TagsAreRead }
    ensures one { SpellsOneMarkup }
{}

/// Where a text is refused by F1 at a byte, the bytes of no text that begins with those up to that one and with it spell
/// tags.
pub fn no_spelled_markup_begins_so()
    ensures { NoDocumentGoesOn }
{
    no_markup_begins_so();
}

/// A text is read as a network exactly if its bytes spell that network, by productions from the bytes to the network, and
/// they spell at most one.
pub fn files_are_read_as_they_are_spelled()
    ensures spelled { ReadIsNetworkFile }
    ensures read { NetworkFileIsRead }
    ensures one { IsOneNetworkFile }
{}

/// Where a text is refused by F1 at a byte, the bytes of no text that begins with those up to that one and with it spell a
/// network.
pub fn no_spelled_file_begins_so()
    ensures { NoNetworkFileGoesOn }
{
    no_spelled_network_begins_so();
}
