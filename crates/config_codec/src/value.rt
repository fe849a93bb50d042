// The numbers of a configuration: what each is, and where it goes.
ghost use Rattle.std.specs.Prelude.{◌≡◌, OnOk};
ghost use Rattle.config.specs.Draft.{asked, fault, put, Within};
ghost use Rattle.config_codec.specs.Fault.{fault_code};
ghost use Rattle.config_codec.specs.Position.{draft_at, Stands};

use crate::bodies::Bodies;
use crate::entry::{check_entry, entry_at};
use crate::limits::{
    LAST_KIND, NEWEST_VERSION, check_entries, check_offset, check_priority, check_users,
    most_autostart, most_deadline, within,
};
use crate::position::Position;
use config::{Config, Field, MAX_BODIES, MAX_RESOURCES, MAX_TABLES};
use number::Refusal;

// The number of `c` at `p`.
#[tactic(auto, unfolding(config::specs::Draft::asked_at))]
pub fn asked(c: &Config, p: Position) -> u32
    requires { Stands p }
    ensures { result ≡ asked c.now (draft_at c.now p) }
{
    let i = p.index;
    let e = p.entry;
    match p.field {
        Field::Version => c.version.into(),
        Field::Bodies => c.bodies.into(),
        Field::Kind => c.kind[i].into(),
        Field::Priority => c.priority[i].into(),
        Field::Autostart => c.autostart[i].into(),
        Field::Deadline => c.deadline[i].into(),
        Field::Resources => c.resources.into(),
        Field::Users => c.users[i],
        Field::Tables => c.tables.into(),
        Field::Period => c.period[i].into(),
        Field::Entries => c.entries[i].into(),
        Field::Offset => c.offset[e].into(),
        Field::Task => c.task[e].into(),
        Field::End => 0,
    }
}

// Tests the number `v` at `p` by those before it, and puts it in its place. Inlined: not so, a walk takes half as many
// instructions again.
#[tactic(auto, unfolding(config::specs::Draft::fault_at, config::specs::Draft::put_at))]
#[inline(always)]
pub fn put(c: &mut Config, p: Position, v: u32) -> Result<(), Refusal>
    requires { Within (draft_at c.old p) }
    ensures refusal { fault_code result ≡ fault (draft_at c.old p) v }
    ensures stored { OnOk result (c.new ≡ (put (draft_at c.old p) v).config) }
{
    let i = p.index;
    let e = p.entry;
    match p.field {
        Field::Version => {
            within(v, 1, NEWEST_VERSION, Refusal::BadVersion)?;
            c.version = v as u8;
        }
        Field::Bodies => {
            within(v, 1, MAX_BODIES as u32, Refusal::BadCount)?;
            c.bodies = v as u8;
        }
        Field::Kind => {
            within(v, 0, LAST_KIND, Refusal::BadField)?;
            c.kind[i] = v as u8;
        }
        Field::Priority => {
            check_priority(v, i, &c.priority)?;
            c.priority[i] = v as u8;
        }
        Field::Autostart => {
            within(v, 0, most_autostart(c.kind[i]), Refusal::BadField)?;
            c.autostart[i] = v as u8;
        }
        Field::Deadline => {
            within(v, 0, most_deadline(c.version, c.kind[i]), Refusal::BadField)?;
            c.deadline[i] = v as u16;
        }
        Field::Resources => {
            within(v, 0, MAX_RESOURCES as u32, Refusal::BadCount)?;
            c.resources = v as u8;
        }
        Field::Users => {
            let bodies = Bodies {
                count: c.bodies,
                kind: c.kind,
            };
            check_users(v, bodies)?;
            c.users[i] = v;
        }
        Field::Tables => {
            within(v, 0, MAX_TABLES as u32, Refusal::BadCount)?;
            c.tables = v as u8;
        }
        Field::Period => {
            within(v, 1, 65_535, Refusal::BadField)?;
            c.period[i] = v as u16;
        }
        Field::Entries => {
            check_entries(v, e)?;
            c.entries[i] = v as u8;
        }
        Field::Offset => {
            check_offset(v, c.period[i])?;
            c.offset[e] = v as u16;
        }
        Field::Task => {
            let x = entry_at(c, p, v);
            let bodies = Bodies {
                count: c.bodies,
                kind: c.kind,
            };
            check_entry(x, bodies, &c.task)?;
            c.task[e] = v as u8;
        }
        Field::End => {}
    }
    Ok(())
}
