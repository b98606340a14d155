//! The files that port words give ports.

ghost use Rattle.std.specs.Prelude.{◌≡◌, IfOk, map, option_map};
ghost use Rattle.rvc_words.specs.Words.{port_text};
ghost use Rattle.cmd_ports.specs.Matching.{file_of, names_of};
ghost use Rattle.cmd_ports.specs.Opening.{has_files};

use net_model::Port;
use rvc_base::Memory;
use rvc_words::PortWord;
use std::alloc::Global;

/// The file of the first of these words that names a port of this name.
pub fn file_of<'a>(words: &'a [PortWord], name: &str) -> Option<&'a str>
    ensures { option_map (λ file. file.now) result ≡ file_of name.now (map port_text words.now) }
{
    for word in words {
        if word.name.as_bytes() == name.as_bytes() {
            return Some(word.file.as_str());
        }
    }
    None
}

/// Which of these ports have a file, in their order.
///
/// # Errors
///
/// `Memory` if memory runs out.
pub fn named_ports(alloc: Global, words: &[PortWord], ports: &[Port]) -> Result<Vec<bool>, Memory>
    ensures { IfOk result (λ named. named.items
        ≡ has_files (names_of ports.now) (map port_text words.now)) }
{
    let mut named = Vec::new(alloc);
    for port in ports {
        named.push(file_of(words, port.name.as_str()).is_some())?;
    }
    Ok(named)
}
