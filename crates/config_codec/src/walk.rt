// The walk over a configuration's numbers: each is tested by those before it and put in its place.
ghost use Rattle.std.specs.Prelude.{◌≡◌};
ghost use Rattle.config.specs.Draft.{start};
ghost use Rattle.config.specs.Reader.{as_config_read, max_numbers};
ghost use Rattle.config_codec.specs.Walk.{walk_from};

use crate::no_config;
use crate::numbers::Numbers;
use crate::position::Position;
use crate::value::put;
use config::Config;
use number::{Reading, Refused};

// The value that all numbers make, and the place after them, or the first refusal and the place of its number.
pub fn walk<N: Numbers>(numbers: &N) -> Result<Reading<Config>, Refused>
    ensures { as_config_read result ≡ walk_from (N.number numbers.now) max_numbers 0 start }
{
    let mut c = no_config();
    let mut p = Position::first();
    let mut at = 0;
    // No range: it steps a position. The `if let` stands where the proof of `map_err(..)?` did not close.
    while !p.ended() {
        let number = numbers.number(p, c.version, at)?;
        if let Err(refusal) = put(&mut c, p, number.value) {
            return Err(Refused { refusal, place: at });
        }
        p = p.next(number.value, &c);
        at = number.place;
    }
    Ok(Reading {
        value: c,
        place: at,
    })
}
