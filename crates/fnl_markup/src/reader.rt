//! A reader of markup, which takes one byte at a time.

ghost use Rattle.std.specs.Prelude.{◌≡◌, ◌<◌, ◌-◌, ◌^◌};
ghost use Rattle.fnl_markup.specs.State.{fresh};
ghost use Rattle.fnl_markup.specs.Step as meant;
ghost use Rattle.fnl_markup.specs.Stepped.{state_of, Stepped};

use crate::bytes::is_blank;
use crate::place::Place;
use crate::stop::{Stop, stuck};
use crate::tag::{Attribute, Tag};
use std::alloc::Global;

/// What a reader has at hand between two bytes.
#[derive(Drop)]
pub(crate) struct Reader {
    pub(crate) alloc: Global,
    /// What was read last.
    pub(crate) place: Place,
    /// The offset of the last `<`.
    pub(crate) start: u32,
    /// Whether what is read is the declaration.
    pub(crate) declares: bool,
    /// The name of the element that is read, as far as it was read.
    pub(crate) name: Vec<u8>,
    /// Its attributes that were read.
    pub(crate) attributes: Vec<Attribute>,
    /// The name of the attribute that is read, as far as it was read.
    pub(crate) word: Vec<u8>,
    /// Its value, as far as it was read.
    pub(crate) value: Vec<u8>,
    /// The offset at which that value begins.
    pub(crate) value_at: u32,
    /// The names of the elements that are open, the innermost last.
    pub(crate) opened: Vec<Vec<u8>>,
    /// Whether the first element has begun.
    pub(crate) begun: bool,
    /// The tags that were read.
    pub(crate) tags: Vec<Tag>,
}

impl Reader {
    /// A reader that has read nothing.
    pub(crate) fn new(alloc: Global) -> Reader
        ensures { state_of result ≡ fresh }
    {
        Reader {
            alloc,
            place: Place::Start,
            start: 0,
            declares: false,
            name: Vec::new(alloc),
            attributes: Vec::new(alloc),
            word: Vec::new(alloc),
            value: Vec::new(alloc),
            value_at: 0,
            opened: Vec::new(alloc),
            begun: false,
            tags: Vec::new(alloc),
        }
    }

    /// Takes the byte at an offset.
    pub(crate) fn step(&mut self, at: u32, b: u8) -> Result<(), Stop>
        requires { at < 2 ^ 32 - 1 }
        ensures { Stepped (meant.step at (state_of self.old) b)
            (state_of self.old) self.new result }
    {
        match self.place {
            Place::Start => self.at_start(at, b),
            Place::MarkOne => self.only(at, b, 187, Place::MarkTwo),
            Place::MarkTwo => self.only(at, b, 191, Place::Marked),
            Place::Marked => self.after_mark(at, b),
            Place::FirstLess => self.first_less(at, b),
            Place::Question => self.only(at, b, b'x', Place::QuestionX),
            Place::QuestionX => self.only(at, b, b'm', Place::QuestionXm),
            Place::QuestionXm => self.declaration(at, b),
            Place::Content => self.content(at, b),
            Place::Less => self.less(at, b),
            Place::Bang => self.only(at, b, b'-', Place::BangDash),
            Place::BangDash => self.only(at, b, b'-', Place::Comment),
            Place::Comment => self.comment(b),
            Place::CommentDash => self.comment_dash(b),
            Place::CommentDashes => self.comment_dashes(b),
            Place::Name => self.name(at, b),
            Place::Gap => self.gap(at, b),
            Place::Word => self.word(at, b),
            Place::WordGap => self.word_gap(at, b),
            Place::Equal => self.equal(at, b),
            Place::Value { quote } => self.value(at, b, quote),
            Place::InEntity { quote, read } => self.entity(at, b, quote, read),
            Place::Quoted => self.quoted(at, b),
            Place::LastQuestion => self.last_question(at, b),
            Place::Slash => self.only(at, b, b'>', Place::Content),
            Place::EndName { size } => self.end_name(at, b, size),
            Place::EndGap => self.end_gap(at, b),
        }
    }

    /// This byte alone may follow.
    pub(crate) fn only(&mut self, at: u32, b: u8, byte: u8, place: Place) -> Result<(), Stop>
        ensures { Stepped (meant.only at (state_of self.old) b byte place)
            (state_of self.old) self.new result }
    {
        if b != byte {
            return Err(stuck(at));
        }
        self.place = place;
        Ok(())
    }

    fn at_start(&mut self, at: u32, b: u8) -> Result<(), Stop>
        ensures { Stepped (meant.start at (state_of self.old) b)
            (state_of self.old) self.new result }
    {
        if b == 239 {
            self.place = Place::MarkOne;
            return Ok(());
        }
        self.after_mark(at, b)
    }

    fn after_mark(&mut self, at: u32, b: u8) -> Result<(), Stop>
        ensures { Stepped (meant.after_mark at (state_of self.old) b)
            (state_of self.old) self.new result }
    {
        if b == b'<' {
            self.place = Place::FirstLess;
            self.start = at;
            return Ok(());
        }
        self.content(at, b)
    }

    fn first_less(&mut self, at: u32, b: u8) -> Result<(), Stop>
        ensures { Stepped (meant.first_less at (state_of self.old) b)
            (state_of self.old) self.new result }
    {
        if b == b'?' {
            self.place = Place::Question;
            return Ok(());
        }
        self.less(at, b)
    }

    /// The last letter of the declaration's name.
    fn declaration(&mut self, at: u32, b: u8) -> Result<(), Stop>
        ensures { Stepped (meant.declaration at (state_of self.old) b)
            (state_of self.old) self.new result }
    {
        if b != b'l' {
            return Err(stuck(at));
        }
        self.place = Place::Quoted;
        self.declares = true;
        Ok(())
    }

    /// Blanks between tags, and what begins with `<`.
    fn content(&mut self, at: u32, b: u8) -> Result<(), Stop>
        ensures { Stepped (meant.content at (state_of self.old) b)
            (state_of self.old) self.new result }
    {
        if is_blank(b) {
            self.place = Place::Content;
            return Ok(());
        }
        if b != b'<' {
            return Err(stuck(at));
        }
        self.place = Place::Less;
        self.start = at;
        Ok(())
    }

    fn less(&mut self, at: u32, b: u8) -> Result<(), Stop>
        ensures { Stepped (meant.less at (state_of self.old) b)
            (state_of self.old) self.new result }
    {
        if b == b'!' {
            self.place = Place::Bang;
            return Ok(());
        }
        self.tag(at, b)
    }

    fn comment(&mut self, b: u8) -> Result<(), Stop>
        ensures { Stepped (meant.comment (state_of self.old) b)
            (state_of self.old) self.new result }
    {
        self.place = if b == b'-' {
            Place::CommentDash
        } else {
            Place::Comment
        };
        Ok(())
    }

    fn comment_dash(&mut self, b: u8) -> Result<(), Stop>
        ensures { Stepped (meant.comment_dash (state_of self.old) b)
            (state_of self.old) self.new result }
    {
        self.place = if b == b'-' {
            Place::CommentDashes
        } else {
            Place::Comment
        };
        Ok(())
    }

    fn comment_dashes(&mut self, b: u8) -> Result<(), Stop>
        ensures { Stepped (meant.comment_dashes (state_of self.old) b)
            (state_of self.old) self.new result }
    {
        if b == b'>' {
            self.place = Place::Content;
            return Ok(());
        }
        self.comment_dash(b)
    }
}
