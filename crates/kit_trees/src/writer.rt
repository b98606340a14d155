//! The text of a tree so far.

use cal_ast::Ident;
use rvc_base::Memory;
use std::alloc::{AllocError, Global};

/// A text that grows by pieces. Once memory ran out it grows no more, so a caller need not ask behind each piece.
#[derive(Drop)]
pub(crate) struct Writer {
    text: String,
    ran_out: bool,
}

impl Writer {
    /// An empty text.
    pub(crate) fn new(alloc: Global) -> Writer {
        Writer {
            text: String::new(alloc),
            ran_out: false,
        }
    }

    /// The whole text.
    ///
    /// # Errors
    ///
    /// `Memory` if memory ran out.
    pub(crate) fn into_text(self) -> Result<String, Memory> {
        if self.ran_out {
            return Err(Memory);
        }
        Ok(self.text)
    }

    /// Puts a piece behind the text.
    pub(crate) fn put(&mut self, piece: &str) {
        let put = self.text.push_str(piece);
        self.note(put);
    }

    /// Puts a number behind the text, in decimal.
    pub(crate) fn put_number(&mut self, value: u128) {
        let put = write!(self.text, "{value}");
        self.note(put);
    }

    /// Puts behind a part where it stands.
    pub(crate) fn put_at(&mut self, offset: u32) {
        let put = write!(self.text, "@{offset}");
        self.note(put);
    }

    /// Notes whether memory ran out.
    fn note(&mut self, put: Result<(), AllocError>) {
        self.ran_out |= put.is_err();
    }
}

/// What has a text.
pub(crate) trait Shown {
    /// Puts its text behind another.
    fn show(&self, out: &mut Writer);
}

impl Shown for Ident {
    fn show(&self, out: &mut Writer) {
        out.put(self.text.as_str());
        out.put_at(self.at);
    }
}

impl<T: Shown> Shown for Vec<T> {
    fn show(&self, out: &mut Writer) {
        out.put("[");
        show_between(self, " ", out);
        out.put("]");
    }
}

impl<T: Shown> Shown for Option<T> {
    fn show(&self, out: &mut Writer) {
        match self {
            Some(part) => part.show(out),
            None => out.put("-"),
        }
    }
}

/// Parts with a piece between each two.
pub(crate) fn show_between<T: Shown>(parts: &[T], piece: &str, out: &mut Writer) {
    let Some((first, others)) = parts.split_first() else {
        return;
    };
    first.show(out);
    for part in others {
        out.put(piece);
        part.show(out);
    }
}

/// A part behind a blank.
pub(crate) fn show_next(part: &impl Shown, out: &mut Writer) {
    out.put(" ");
    part.show(out);
}

/// The text of one part.
///
/// # Errors
///
/// `Memory` if memory runs out.
pub(crate) fn text_of(alloc: Global, part: &impl Shown) -> Result<String, Memory> {
    let mut out = Writer::new(alloc);
    part.show(&mut out);
    out.into_text()
}
