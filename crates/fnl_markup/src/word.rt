//! Names and attributes.

ghost use Rattle.std.specs.Prelude.{◌≡◌, ◌<◌, ◌-◌, ◌^◌};
ghost use Rattle.fnl_markup.specs.State.{Going};
ghost use Rattle.fnl_markup.specs.Step as meant;
ghost use Rattle.fnl_markup.specs.Stepped.{state_of, Stepped};

use crate::bytes::{begins_name, goes_on_name, is_blank};
use crate::entity::Entity;
use crate::place::Place;
use crate::reader::Reader;
use crate::stop::{Stop, stuck};
use crate::tag::Attribute;
use std::mem;

impl Reader {
    /// A byte of an element's name, or what follows it.
    pub(crate) fn name(&mut self, at: u32, b: u8) -> Result<(), Stop>
        ensures { Stepped (meant.name at (state_of self.old) b)
            (state_of self.old) self.new result }
    {
        if goes_on_name(b) {
            self.place = Place::Name;
            self.name.push(b)?;
            return Ok(());
        }
        self.quoted(at, b)
    }

    /// What follows a name or a value: a blank, or the tag's end.
    pub(crate) fn quoted(&mut self, at: u32, b: u8) -> Result<(), Stop>
        ensures { Stepped (meant.quoted at (state_of self.old) b)
            (state_of self.old) self.new result }
    {
        if is_blank(b) {
            self.place = Place::Gap;
            return Ok(());
        }
        self.ends(at, b)
    }

    /// What follows a blank: an attribute, or the tag's end.
    pub(crate) fn gap(&mut self, at: u32, b: u8) -> Result<(), Stop>
        ensures { Stepped (meant.gap at (state_of self.old) b) (state_of self.old) self.new result }
    {
        if begins_name(b) {
            self.place = Place::Word;
            self.word = Vec::new(self.alloc);
            self.word.push(b)?;
            return Ok(());
        }
        self.quoted(at, b)
    }

    /// A byte of an attribute's name, or what follows it.
    pub(crate) fn word(&mut self, at: u32, b: u8) -> Result<(), Stop>
        ensures { Stepped (meant.word at (state_of self.old) b)
            (state_of self.old) self.new result }
    {
        if goes_on_name(b) {
            self.place = Place::Word;
            self.word.push(b)?;
            return Ok(());
        }
        self.word_gap(at, b)
    }

    /// What follows an attribute's name.
    pub(crate) fn word_gap(&mut self, at: u32, b: u8) -> Result<(), Stop>
        ensures { Stepped (meant.word_gap at (state_of self.old) b)
            (state_of self.old) self.new result }
    {
        if is_blank(b) {
            self.place = Place::WordGap;
            return Ok(());
        }
        self.only(at, b, b'=', Place::Equal)
    }

    /// What follows `=`.
    pub(crate) fn equal(&mut self, at: u32, b: u8) -> Result<(), Stop>
        requires { at < 2 ^ 32 - 1 }
        ensures { Stepped (meant.equal at (state_of self.old) b)
            (state_of self.old) self.new result }
    {
        if is_blank(b) {
            self.place = Place::Equal;
            return Ok(());
        }
        if b != b'"' && b != b'\'' {
            return Err(stuck(at));
        }
        self.place = Place::Value { quote: b };
        self.value = Vec::new(self.alloc);
        self.value_at = at + 1;
        Ok(())
    }

    /// A byte of a value, or the quote that closes it.
    pub(crate) fn value(&mut self, at: u32, b: u8, quote: u8) -> Result<(), Stop>
        ensures { Stepped (meant.value quote at (state_of self.old) b)
            (state_of self.old) self.new result }
    {
        if b == quote {
            return self.end_value();
        }
        if b == b'&' {
            let read = Entity::Ampersand;
            self.place = Place::InEntity { quote, read };
            return Ok(());
        }
        if b == b'<' {
            return Err(stuck(at));
        }
        self.go_on_value(b, quote)
    }

    /// One more byte of a value.
    fn go_on_value(&mut self, b: u8, quote: u8) -> Result<(), Stop>
        ensures { Stepped (Going (meant.longer_value quote (state_of self.old) b))
            (state_of self.old) self.new result }
    {
        self.place = Place::Value { quote };
        self.value.push(b)?;
        Ok(())
    }

    /// The attribute is whole.
    fn end_value(&mut self) -> Result<(), Stop>
        ensures { Stepped (Going (meant.valued (state_of self.old)))
            (state_of self.old) self.new result }
    {
        self.place = Place::Quoted;
        let name = mem::replace(&mut self.word, Vec::new(self.alloc));
        let value = mem::replace(&mut self.value, Vec::new(self.alloc));
        let at = self.value_at;
        self.attributes.push(Attribute { name, value, at })?;
        Ok(())
    }

    /// A letter of an entity, or its end.
    pub(crate) fn entity(&mut self, at: u32, b: u8, quote: u8, read: Entity) -> Result<(), Stop>
        ensures { Stepped (meant.entity quote read at (state_of self.old) b)
            (state_of self.old) self.new result }
    {
        if b == b';' {
            return match read.meaning() {
                None => Err(stuck(at)),
                Some(character) => self.go_on_value(character, quote),
            };
        }
        match read.longer(b) {
            None => Err(stuck(at)),
            Some(read) => {
                self.place = Place::InEntity { quote, read };
                Ok(())
            }
        }
    }
}
