//! The elements of a network, where each begins.

ghost use Rattle.std.specs.Prelude.{◌≡◌};
ghost use Rattle.cal_ast.specs.View.{ident_tree};
ghost use Rattle.fnl_read.specs.Opening as meant;
ghost use Rattle.fnl_read.specs.Stepped.{Opens};
ghost use Rattle.fnl_frames.specs.Views.{frame_of};

use crate::reader::Reader;
use cal_ast::Ident;
use fnl_expr::{Form, Stop, earlier, either_given, given, is, long, text_given, wrong};
use fnl_frames::{Class, Frame, NetConnection, NetFile, with_class};
use fnl_markup::Attribute;

impl Reader {
    pub(crate) fn open_network(&mut self, attributes: &[Attribute], at: u32) -> Result<(), Stop>
        ensures { Opens meant.open_network attributes.now at self.old self.new result }
    {
        let Some(name) = text_given(self.alloc, attributes, "name", Form::Name)? else {
            return Err(wrong(at));
        };
        let place = long(&name);
        let net = NetFile {
            name: name.text,
            ports: Vec::new(self.alloc),
            decls: Vec::new(self.alloc),
            instances: Vec::new(self.alloc),
            connections: Vec::new(self.alloc),
            at,
        };
        self.enter(Frame::Network(net), place, at)
    }

    pub(crate) fn open_port(&mut self, attributes: &[Attribute], at: u32) -> Result<(), Stop>
        ensures { Opens meant.open_port attributes.now at self.old self.new result }
    {
        let Some(input) = either_given(attributes, "kind", "Input", "Output") else {
            return Err(wrong(at));
        };
        let Some(name) = text_given(self.alloc, attributes, "name", Form::Name)? else {
            return Err(wrong(at));
        };
        let place = long(&name);
        let port = Frame::Port {
            input,
            name: name.text,
            shape: None,
            at,
        };
        self.enter(port, place, at)
    }

    pub(crate) fn open_decl(&mut self, attributes: &[Attribute], at: u32) -> Result<(), Stop>
        ensures { Opens meant.open_decl attributes.now at self.old self.new result }
    {
        let Some(param) = either_given(attributes, "kind", "Param", "Variable") else {
            return Err(wrong(at));
        };
        let Some(name) = text_given(self.alloc, attributes, "name", Form::Name)? else {
            return Err(wrong(at));
        };
        let place = long(&name);
        let decl = Frame::Decl {
            param,
            name: name.text,
            shape: None,
            value: None,
            at,
        };
        self.enter(decl, place, at)
    }

    pub(crate) fn open_instance(&mut self, attributes: &[Attribute], at: u32) -> Result<(), Stop>
        ensures { Opens meant.open_instance attributes.now at self.old self.new result }
    {
        let Some(id) = text_given(self.alloc, attributes, "id", Form::Name)? else {
            return Err(wrong(at));
        };
        let place = long(&id);
        let instance = Frame::Instance {
            id: id.text,
            class: None,
            parameters: Vec::new(self.alloc),
            at,
        };
        self.enter(instance, place, at)
    }

    pub(crate) fn open_class(&mut self, attributes: &[Attribute], at: u32) -> Result<(), Stop>
        ensures { Opens meant.open_class attributes.now at self.old self.new result }
    {
        let Some(name) = text_given(self.alloc, attributes, "name", Form::Tag)? else {
            return Err(wrong(at));
        };
        let place = long(&name);
        let class = Class {
            name: name.text,
            at,
        };
        let round = with_class(self.take_top(), class);
        self.enter_empty(round, place, at)
    }

    pub(crate) fn open_parameter(&mut self, attributes: &[Attribute], at: u32) -> Result<(), Stop>
        ensures { Opens meant.open_parameter attributes.now at self.old self.new result }
    {
        let Some(name) = text_given(self.alloc, attributes, "name", Form::Name)? else {
            return Err(wrong(at));
        };
        let place = long(&name);
        let parameter = Frame::Parameter {
            name: name.text,
            value: None,
            at,
        };
        self.enter(parameter, place, at)
    }

    pub(crate) fn open_connection(&mut self, attributes: &[Attribute], at: u32) -> Result<(), Stop>
        ensures { Opens meant.open_connection attributes.now at self.old self.new result }
    {
        let Some(src) = text_given(self.alloc, attributes, "src", Form::NameOrEmpty)? else {
            return Err(wrong(at));
        };
        let Some(src_port) = text_given(self.alloc, attributes, "src-port", Form::Name)? else {
            return Err(wrong(at));
        };
        let Some(dst) = text_given(self.alloc, attributes, "dst", Form::NameOrEmpty)? else {
            return Err(wrong(at));
        };
        let Some(dst_port) = text_given(self.alloc, attributes, "dst-port", Form::Name)? else {
            return Err(wrong(at));
        };
        let place = earlier(
            earlier(long(&src), long(&src_port)),
            earlier(long(&dst), long(&dst_port)),
        );
        let connection = NetConnection {
            src: src.text,
            src_port: src_port.text,
            dst: dst.text,
            dst_port: dst_port.text,
            sizes: Vec::new(self.alloc),
            at,
        };
        self.enter(Frame::Connection(connection), place, at)
    }

    pub(crate) fn open_attribute(&mut self, attributes: &[Attribute], at: u32) -> Result<(), Stop>
        ensures { Opens meant.open_attribute attributes.now at self.old self.new result }
    {
        let Some(name) = given(attributes, "name") else {
            return Err(wrong(at));
        };
        let inner = attribute_in(&self.top, &name.value, at);
        self.enter(inner, None, at)
    }

    pub(crate) fn open_type(&mut self, attributes: &[Attribute], at: u32) -> Result<(), Stop>
        ensures { Opens meant.open_type attributes.now at self.old self.new result }
    {
        let Some(name) = text_given(self.alloc, attributes, "name", Form::Any)? else {
            return Err(wrong(at));
        };
        let shape = Frame::Type {
            name: Ident {
                text: name.text,
                at: name.at,
            },
            args: Vec::new(self.alloc),
            at,
        };
        self.enter(shape, None, at)
    }

    pub(crate) fn open_entry(&mut self, attributes: &[Attribute], at: u32) -> Result<(), Stop>
        ensures { Opens meant.open_entry attributes.now at self.old self.new result }
    {
        let Some(by_value) = either_given(attributes, "kind", "Expr", "Type") else {
            return Err(wrong(at));
        };
        let Some(name) = text_given(self.alloc, attributes, "name", Form::Entry)? else {
            return Err(wrong(at));
        };
        let name = Ident {
            text: name.text,
            at: name.at,
        };
        let entry = entry_frame(by_value, name);
        self.enter(entry, None, at)
    }
}

/// An attribute that begins in what is open: a size of a connection, or one that is passed over.
fn attribute_in(round: &Frame, name: &[u8], at: u32) -> Frame
    ensures { frame_of result ≡ meant.attribute_in (frame_of round.now) name.now at }
{
    match round {
        Frame::Connection(_) => {
            if is(name, "bufferSize") {
                Frame::Size { value: None, at }
            } else {
                Frame::Passed
            }
        }
        _ => Frame::Passed,
    }
}

/// An entry of a type: an expression, or a type.
fn entry_frame(by_value: bool, name: Ident) -> Frame
    ensures { frame_of result ≡ meant.entry_frame by_value (ident_tree name) }
{
    if by_value {
        Frame::Value { name, value: None }
    } else {
        Frame::Shape { name, shape: None }
    }
}
