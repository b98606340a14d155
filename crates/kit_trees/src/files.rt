//! Files.

use crate::writer::{Shown, Writer, show_next};
use cal_ast::{Actor, Body, File, Import, UnitFile};

impl Shown for File {
    fn show(&self, out: &mut Writer) {
        out.put("(file");
        show_next(&self.package, out);
        show_next(&self.imports, out);
        show_next(&self.body, out);
        out.put(")");
        out.put_at(self.at);
    }
}

impl Shown for Body {
    fn show(&self, out: &mut Writer) {
        match self {
            Body::Actor(actor) => actor.show(out),
            Body::Unit(unit) => unit.show(out),
        }
    }
}

impl Shown for Import {
    fn show(&self, out: &mut Writer) {
        out.put("(import");
        show_next(&self.path, out);
        match &self.last {
            Some(name) => show_next(name, out),
            None => out.put(" *"),
        }
        out.put(")");
        out.put_at(self.at);
    }
}

impl Shown for Actor {
    fn show(&self, out: &mut Writer) {
        out.put("(actor");
        show_next(&self.name, out);
        show_next(&self.params, out);
        show_next(&self.ins, out);
        show_next(&self.outs, out);
        show_next(&self.members, out);
        out.put(")");
        out.put_at(self.at);
    }
}

impl Shown for UnitFile {
    fn show(&self, out: &mut Writer) {
        out.put("(unit");
        show_next(&self.name, out);
        show_next(&self.members, out);
        out.put(")");
        out.put_at(self.at);
    }
}
