//! Where a tag begins: a new element, or the end of the innermost one that is open.

ghost use Rattle.std.specs.Prelude.{◌≡◌};
ghost use Rattle.fnl_markup.specs.Step as meant;
ghost use Rattle.fnl_markup.specs.Stepped.{state_of, Stepped};

use crate::bytes::{begins_name, is_blank};
use crate::place::Place;
use crate::reader::Reader;
use crate::stop::{Stop, stuck};
use crate::tag::Tag;

impl Reader {
    pub(crate) fn tag(&mut self, at: u32, b: u8) -> Result<(), Stop>
        ensures { Stepped (meant.tag at (state_of self.old) b) (state_of self.old) self.new result }
    {
        if b == b'/' {
            return self.end_tag(at);
        }
        if begins_name(b) {
            return self.new_tag(at, b);
        }
        Err(stuck(at))
    }

    /// The `/` of an end tag.
    fn end_tag(&mut self, at: u32) -> Result<(), Stop>
        ensures { Stepped (meant.end_tag at (state_of self.old))
            (state_of self.old) self.new result }
    {
        let Some(name) = self.opened.pop() else {
            return Err(stuck(at));
        };
        self.place = Place::EndName { size: 0 };
        self.name = name;
        self.tags.push(Tag::Closes { at })?;
        Ok(())
    }

    /// The first byte of a new element's name.
    fn new_tag(&mut self, at: u32, b: u8) -> Result<(), Stop>
        ensures { Stepped (meant.new_tag at (state_of self.old) b)
            (state_of self.old) self.new result }
    {
        if self.begun && self.opened.is_empty() {
            return Err(stuck(at));
        }
        self.place = Place::Name;
        self.begun = true;
        self.name = Vec::new(self.alloc);
        self.name.push(b)?;
        Ok(())
    }

    /// The name in an end tag, of which so many bytes were read.
    pub(crate) fn end_name(&mut self, at: u32, b: u8, size: usize) -> Result<(), Stop>
        ensures { Stepped (meant.end_name size at (state_of self.old) b)
            (state_of self.old) self.new result }
    {
        if size < self.name.len() {
            let byte = self.name[size];
            return self.only(at, b, byte, Place::EndName { size: size + 1 });
        }
        self.end_gap(at, b)
    }

    /// Blanks, and the end of an end tag.
    pub(crate) fn end_gap(&mut self, at: u32, b: u8) -> Result<(), Stop>
        ensures { Stepped (meant.end_gap at (state_of self.old) b)
            (state_of self.old) self.new result }
    {
        if is_blank(b) {
            self.place = Place::EndGap;
            return Ok(());
        }
        self.only(at, b, b'>', Place::Content)
    }
}
