//! Where a tag ends.

ghost use Rattle.std.specs.Prelude.{◌≡◌};
ghost use Rattle.fnl_markup.specs.State.{Going};
ghost use Rattle.fnl_markup.specs.Step as meant;
ghost use Rattle.fnl_markup.specs.Stepped.{state_of, Stepped};

use crate::bytes::copied;
use crate::encoding::are_utf8;
use crate::place::Place;
use crate::reader::Reader;
use crate::stop::{Stop, stuck};
use crate::tag::Tag;
use rvc_base::Rule;
use std::mem;

impl Reader {
    /// What ends the start of an element, or the declaration.
    pub(crate) fn ends(&mut self, at: u32, b: u8) -> Result<(), Stop>
        ensures { Stepped (meant.ends at (state_of self.old) b)
            (state_of self.old) self.new result }
    {
        if self.declares {
            return self.only(at, b, b'?', Place::LastQuestion);
        }
        self.ends_tag(at, b)
    }

    fn ends_tag(&mut self, at: u32, b: u8) -> Result<(), Stop>
        ensures { Stepped (meant.ends_tag at (state_of self.old) b)
            (state_of self.old) self.new result }
    {
        if b == b'>' {
            return self.open();
        }
        if b != b'/' {
            return Err(stuck(at));
        }
        self.place = Place::Slash;
        self.push_opening()?;
        self.tags.push(Tag::Closes { at })?;
        Ok(())
    }

    /// The element is open.
    fn open(&mut self) -> Result<(), Stop>
        ensures { Stepped (Going (meant.opened (state_of self.old)))
            (state_of self.old) self.new result }
    {
        self.place = Place::Content;
        self.opened.push(copied(&self.name)?)?;
        self.push_opening()?;
        Ok(())
    }

    /// The tag that begins the element, with its name and its attributes.
    fn push_opening(&mut self) -> Result<(), Stop>
        ensures { Stepped (Going (meant.with_opening (state_of self.old)))
            (state_of self.old) self.new result }
    {
        let name = mem::replace(&mut self.name, Vec::new(self.alloc));
        let attributes = mem::replace(&mut self.attributes, Vec::new(self.alloc));
        self.tags.push(Tag::Opens {
            name,
            attributes,
            at: self.start,
        })?;
        Ok(())
    }

    /// What follows the last `?` of the declaration.
    pub(crate) fn last_question(&mut self, at: u32, b: u8) -> Result<(), Stop>
        ensures { Stepped (meant.last_question at (state_of self.old) b)
            (state_of self.old) self.new result }
    {
        if b != b'>' {
            return Err(stuck(at));
        }
        if !are_utf8(&self.attributes) {
            return Err(Stop::Broken(Rule::WRONG_ENCODING, self.start));
        }
        self.place = Place::Content;
        self.declares = false;
        self.attributes = Vec::new(self.alloc);
        Ok(())
    }
}
