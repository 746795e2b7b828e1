ghost use Rattle.std.specs.Prelude.{◌≡◌, ◌≤◌, ◌+◌, [], length, map, IfOk, OnOk};
ghost use Rattle.ms_classwrite.specs.Layout.{with_line};
ghost use Rattle.ms_classwrite.specs.Lines.{line_view};
ghost use Rattle.ms_classwrite.specs.Plans.{number_in};

use crate::{NoMemory, PoolLine};
use indexmap::IndexSet;
use std::alloc::Global;
use std::marker::Model;

/// A pool line, its text lent.
#[derive(Clone, Copy, PartialEq, Eq, Hash)]
pub enum Line<'a> {
    Utf8(&'a [u8]),
    Integer(i32),
    Class { name: u16 },
    Text { utf8: u16 },
    NameAndType { name: u16, desc: u16 },
    Field { class: u16, member: u16 },
    Method { class: u16, member: u16 },
}

impl<'a> Line<'a> {
    /// The line, lent.
    pub fn of(line: &'a PoolLine) -> Line<'a>
        ensures { line_view result ≡ line.now }
    {
        match line {
            PoolLine::Utf8(text) => Line::Utf8(text.get()),
            PoolLine::Integer(int) => Line::Integer(*int),
            PoolLine::Class { name } => Line::Class { name: *name },
            PoolLine::Text { utf8 } => Line::Text { utf8: *utf8 },
            PoolLine::NameAndType { name, desc } => Line::NameAndType {
                name: *name,
                desc: *desc,
            },
            PoolLine::Field { class, member } => Line::Field {
                class: *class,
                member: *member,
            },
            PoolLine::Method { class, member } => Line::Method {
                class: *class,
                member: *member,
            },
        }
    }
}

/// The lines of a pool, in order, and each once.
#[derive(Drop)]
pub struct Lines<'a> {
    lines: IndexSet<Line<'a>>,
}

impl<'a> Model for Lines<'a> {
    ghost use Rattle.std.specs.Prelude.{List, map};
    ghost use Rattle.ms_classwrite.specs.Lines.{line_view};
    ghost use Rattle.ms_classwrite.specs.declared.plan.PoolLine.{PoolLine};

    ghost Value = { List PoolLine };

    ghost view = { λ lines. map line_view lines.lines.keys };
}

impl<'a> Lines<'a> {
    /// No lines. It takes no memory.
    pub fn new(alloc: Global) -> Lines<'a>
        ensures { result ≡ [] }
    {
        Lines {
            lines: IndexSet::new(alloc),
        }
    }

    /// How many lines there are.
    pub fn len(&self) -> usize
        ensures { result ≡ length self.now }
    {
        self.lines.len()
    }

    /// The lines, lent.
    pub fn all(&self) -> &[Line<'a>]
        ensures { map line_view result.now ≡ self.now }
    {
        self.lines.as_slice()
    }

    /// Adds the line at the end, where it isn't there yet. Its place, from 0.
    pub fn add(&mut self, line: Line<'a>) -> Result<usize, NoMemory>
        ensures added { OnOk result (self.new ≡ with_line self.old (line_view line.entry)) }
        ensures place { IfOk result (λ place. place + 1 ≡ number_in self.old (line_view line.entry)) }
    {
        let (place, _) = self.lines.insert_full(line)?;
        Ok(place)
    }

    /// The place of the line, from 0, and how many lines there are where it is none of them.
    pub fn place(&self, line: Line<'_>) -> usize
        ensures number { result + 1 ≡ number_in self.now (line_view line.entry) }
        ensures within { result ≤ length self.now }
    {
        self.lines.get_index_of(&line).unwrap_or(self.lines.len())
    }
}
