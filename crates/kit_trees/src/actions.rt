//! Actions, and what orders them.

use crate::writer::{Shown, Writer, show_between, show_next};
use cal_ast::{Action, Move, Output, Pattern, Priority, Schedule, Tag};

impl Shown for Tag {
    fn show(&self, out: &mut Writer) {
        out.put("(");
        show_between(&self.parts, ".", out);
        out.put(")");
        out.put_at(self.at);
    }
}

impl Shown for Action {
    fn show(&self, out: &mut Writer) {
        out.put(if self.initialize {
            "(initialize"
        } else {
            "(action"
        });
        show_next(&self.tag, out);
        show_next(&self.patterns, out);
        show_next(&self.outputs, out);
        show_next(&self.guards, out);
        show_next(&self.vars, out);
        show_next(&self.body, out);
        out.put(")");
        out.put_at(self.at);
    }
}

impl Shown for Pattern {
    fn show(&self, out: &mut Writer) {
        out.put("(");
        self.port.show(out);
        show_next(&self.names, out);
        show_next(&self.repeat, out);
        out.put(")");
        out.put_at(self.at);
    }
}

impl Shown for Output {
    fn show(&self, out: &mut Writer) {
        out.put("(");
        self.port.show(out);
        show_next(&self.values, out);
        show_next(&self.repeat, out);
        out.put(")");
        out.put_at(self.at);
    }
}

impl Shown for Schedule {
    fn show(&self, out: &mut Writer) {
        out.put("(schedule");
        show_next(&self.start, out);
        show_next(&self.moves, out);
        out.put(")");
        out.put_at(self.at);
    }
}

impl Shown for Move {
    fn show(&self, out: &mut Writer) {
        out.put("(");
        self.from.show(out);
        show_next(&self.tags, out);
        show_next(&self.to, out);
        out.put(")");
        out.put_at(self.at);
    }
}

impl Shown for Priority {
    fn show(&self, out: &mut Writer) {
        out.put("(priority");
        show_next(&self.chains, out);
        out.put(")");
        out.put_at(self.at);
    }
}
