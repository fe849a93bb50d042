// The writer's second pass.
ghost use Rattle.std.specs.Prelude.{◌≡◌, ◌≤◌, length};
ghost use Rattle.number.specs.Refusal.{none};
ghost use Rattle.number.specs.Output.{written};
ghost use Rattle.config.specs.Writer.{first_fault, config_bytes};
ghost use Rattle.config_codec.specs.Walk.{shown};

use crate::position::Position;
use crate::value::asked;
use config::Config;
use number_codec::write_number;

// Writes a number at the start of `out`, which has room for it, or nothing where it stands in no byte; gives its length.
// The flag is that of the definition `shown`.
fn write_at(silent: bool, v: u32, out: &mut [u8]) -> usize
    requires { length (shown silent v) ≤ length out.old }
    ensures result { result ≡ length (shown silent v) }
    ensures output { out.new ≡ written (shown silent v) out.old }
{
    if silent {
        return 0;
    }
    write_number(v, out).unwrap()
}

// Writes the value's numbers, which are in order, at the start of `out`, which has room for them.
pub fn write_numbers(c: Config, out: &mut [u8])
    requires { (first_fault c ≡ none) × (length (config_bytes c) ≤ length out.old) }
    ensures { out.new ≡ written (config_bytes c) out.old }
{
    let mut p = Position::first();
    let mut at = 0;
    // No range: it steps a position.
    while !p.ended() {
        let v = asked(&c, p);
        at += write_at(p.silent(c.version), v, &mut out[at..]);
        p = p.next(v, &c);
    }
}
