// A configuration as bytes: read, written, and refused by document 01's rules.
#![tactic(auto)]

mod bodies;
mod entry;
mod limits;
mod numbers;
mod position;
mod value;
mod walk;
mod writer;

ghost use Rattle.std.specs.Prelude.{◌≡◌, length};
ghost use Rattle.number.specs.Answer.{as_written};
ghost use Rattle.config.specs.Value.{no_config};
ghost use Rattle.config.specs.Reader.{as_config_read, read_config};
ghost use Rattle.config.specs.Writer.{write_config, wrote_config};

use crate::numbers::Input;
use config::Config;
use number::{Reading, Refusal, Refused};

const MAX_LENGTH: usize = 4096;

// The configuration that `bytes` is.
pub fn read_config(bytes: &[u8]) -> Result<Reading<Config>, Refused>
    ensures { as_config_read result ≡ read_config bytes.now }
{
    if MAX_LENGTH < bytes.len() {
        return Err(Refused {
            refusal: Refusal::TooLong,
            place: 0,
        });
    }
    let r = walk::walk(&Input { bytes })?;
    if r.place != bytes.len() {
        return Err(Refused {
            refusal: Refusal::LeftOver,
            place: r.place,
        });
    }
    Ok(r)
}

// Writes the configuration at the start of `out`, or nothing where it is refused or does not fit; gives its length.
pub fn write_config(config: Config, out: &mut [u8]) -> Result<usize, Refused>
    ensures result { as_written result ≡ write_config config (length out.old) }
    ensures output { out.new ≡ wrote_config config out.old }
{
    // A value's refusal has the place 0. A `match`, where the proof of `map_err(..)?` did not close.
    let n = match walk::walk(&config) {
        Ok(measured) => measured.place,
        Err(Refused { refusal, .. }) => return Err(Refused { refusal, place: 0 }),
    };
    if out.len() < n {
        return Err(Refused {
            refusal: Refusal::NoRoom,
            place: n,
        });
    }
    writer::write_numbers(config, out);
    Ok(n)
}

// The all-zero value. No derived Default: of an array its contract tells each element (AllOfLen), and nine lists would
// have to be shown to be those of the definition `no_config`.
pub fn no_config() -> Config
    ensures { result ≡ no_config }
{
    Config {
        version: 0,
        bodies: 0,
        kind: [0u8; 32],
        priority: [0u8; 32],
        autostart: [0u8; 32],
        deadline: [0u16; 32],
        resources: 0,
        users: [0u32; 16],
        tables: 0,
        period: [0u16; 8],
        entries: [0u8; 8],
        offset: [0u16; 64],
        task: [0u8; 64],
    }
}
