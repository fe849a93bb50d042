// Where in a configuration's numbers a walk is: which number comes next, and which follows it.
ghost use Rattle.std.specs.Prelude.{◌≡◌, ◌+◌, ◌<◌, cond, eqb};
ghost use Rattle.config.specs.Draft.{ended, put, silent_at, or_on, start};
ghost use Rattle.config_codec.specs.Position.{draft_at, position_of, row_at, Stands};

use crate::limits::has_deadlines;
use config::{Config, Field};

// `index` is the body, resource or table that is next, `entry` the entry, and `until` the entry after the last one of
// its table.
// No ghost field says that it stands inside the arrays (`Stands`): that hangs on the counts of the configuration beside
// it, which each method that makes a position would have to be given.
#[derive(Clone, Copy)]
pub struct Position {
    pub field: Field,
    pub index: usize,
    pub entry: usize,
    pub until: usize,
}

impl Position {
    // Before the first number.
    pub fn first() -> Position
        ensures { result ≡ position_of start }
    {
        Position {
            field: Field::Version,
            index: 0,
            entry: 0,
            until: 0,
        }
    }

    // Whether no number is left.
    #[tactic(auto, unfolding(config::specs::Draft::ended))]
    pub fn ended(self) -> bool
        ensures { result ≡ ended self.field }
    {
        matches!(self.field, Field::End)
    }

    // Whether the number stands in no byte, and is 0: a deadline, in a version that has none.
    pub fn silent(self, version: u8) -> bool
        ensures { result ≡ silent_at self.field version }
    {
        matches!(self.field, Field::Deadline) && !has_deadlines(version)
    }

    // At another number of row `index`.
    fn row(self, field: Field, index: usize) -> Position
        ensures { result ≡ row_at self field index }
    {
        Position {
            field,
            index,
            ..self
        }
    }

    // At row `i` of `n`, or on where there is none.
    fn row_of(self, i: usize, n: u32, again: Field, on: Field) -> Position
        ensures { result ≡ row_at self (or_on i n again on) i }
    {
        self.row(if i == n as usize { on } else { again }, i)
    }

    // After an entry: at the next one of its table, or at the next table of `n`.
    fn after_entry(self, n: u32) -> Position
        requires { (self.index < 8) × (self.entry < 64) }
        ensures { result ≡ record {
          field = or_on (self.entry + 1) self.until Field.Offset (or_on (self.index + 1) n Field.Period Field.End);
          index = cond (eqb (self.entry + 1) self.until) (self.index + 1) self.index;
          entry = self.entry + 1;
          until = self.until;
        } }
    {
        let next = Position {
            field: Field::Offset,
            entry: self.entry + 1,
            ..self
        };
        if next.entry == next.until {
            next.row_of(next.index + 1, n, Field::Period, Field::End)
        } else {
            next
        }
    }

    // The number after `v`, where `c` has the counts that come before.
    #[tactic(auto, unfolding(config::specs::Draft::put_at))]
    pub fn next(self, v: u32, c: &Config) -> Position
        requires { Stands self }
        ensures { result ≡ position_of (put (draft_at c.now self) v) }
    {
        let i = self.index;
        match self.field {
            Field::Version => self.row(Field::Bodies, i),
            Field::Bodies => self.row(Field::Kind, 0),
            Field::Kind => self.row(Field::Priority, i),
            Field::Priority => self.row(Field::Autostart, i),
            Field::Autostart => self.row(Field::Deadline, i),
            Field::Deadline => self.row_of(i + 1, c.bodies.into(), Field::Kind, Field::Resources),
            Field::Resources => self.row_of(0, v, Field::Users, Field::Tables),
            Field::Users => self.row_of(i + 1, c.resources.into(), Field::Users, Field::Tables),
            Field::Tables => self.row_of(0, v, Field::Period, Field::End),
            Field::Period => self.row(Field::Entries, i),
            Field::Entries => Position {
                field: Field::Offset,
                until: self.entry + v as usize,
                ..self
            },
            Field::Offset => self.row(Field::Task, i),
            Field::Task => self.after_entry(c.tables.into()),
            Field::End => self,
        }
    }
}
