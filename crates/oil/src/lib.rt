// OIL texts read into configurations: the tokens of a text, what each may be, the walks over them, the whole.
#![tactic(auto)]

mod automaton;
mod borne;
mod by_class;
mod bytes;
mod hashing;
mod meaning;
mod names;
mod next;
mod place;
mod token;
mod token_walk;
mod uses;
mod walk;

ghost use Rattle.std.specs.Prelude.{◌≡◌, ◌≤◌, length, MatchResult};
ghost use Rattle.config.specs.Writer.{first_fault};
ghost use Rattle.oil_grammar.specs.Reader.{refused_in, ranged, read_oil, oil_result, oil_output, oil_place};
ghost use Rattle.number.specs.Answer.{code};
ghost use Rattle.oil.specs.Answer.{refusal_of, as_oil_read};

use config::Config;
use config_codec::write_config;
use meaning::fill;
use number::{Refusal, Refused};
use place::position_of;
use uses::unborne;
use walk::walk;

// Why a text is refused, with the line and column of its place; both are 0 where a number is out of its range,
// as the C interface has it.
#[derive(Clone, Copy, Debug, PartialEq, Eq)]
pub struct OilRefused {
    pub refusal: Refusal,
    pub line: u64,
    pub column: u64,
}

// Whether the configuration's own numbers are in their ranges: a writer without room refuses a number with place 0, and
// otherwise with the bytes needed.
fn range_fault(config: Config) -> Result<(), Refusal>
    ensures { refusal_of result ≡ first_fault config }
{
    let mut none = [0u8; 0];
    match write_config(config, &mut none) {
        Err(e) if e.place == 0 => Err(e.refusal),
        _ => Ok(()),
    }
}

// The configuration, if its fields are in their ranges.
fn ranged(config: Config) -> Result<Config, OilRefused>
    ensures { as_oil_read result ≡ ranged config }
{
    match range_fault(config) {
        Ok(()) => Ok(config),
        Err(refusal) => Err(OilRefused {
            refusal,
            line: 0,
            column: 0,
        }),
    }
}

// The configuration that the objects of the text are, whatever its numbers, or the first refusal of the text.
fn described(text: &[u8]) -> Result<Config, Refused>
    ensures { MatchResult result (λ c. read_oil text.now ≡ ranged c)
        (λ e. (e.place ≤ length text.now) × (read_oil text.now ≡ refused_in text.now (code e.refusal) e.place)) }
{
    let tokens = walk(text)?;
    unborne(text, tokens)?;
    Ok(fill(text, tokens))
}

// The configuration that the text describes, or the one refusal with its line and column.
pub fn read_oil(text: &[u8]) -> Result<Config, OilRefused>
    ensures { as_oil_read result ≡ read_oil text.now }
{
    match described(text) {
        Ok(config) => ranged(config),
        Err(e) => {
            let at = position_of(text, e.place);
            Err(OilRefused {
                refusal: e.refusal,
                line: at.line,
                column: at.column,
            })
        }
    }
}

// Reads an OIL text and writes the configuration's bytes. The result is their number, or the refusal, whose line and
// column go to `place`; for 30 it has the bytes needed too. A refused text leaves `config` as it was.
#[unsafe(no_mangle)]
pub extern "C" fn osek_oil(text: &[u8], config: &mut [u8], place: &mut [u64; 2]) -> u64
    ensures result { result ≡ oil_result text.now (length config.old) }
    ensures output { config.new ≡ oil_output text.now config.old }
    ensures place { place.new ≡ oil_place text.now }
{
    let read = match read_oil(text) {
        Ok(read) => read,
        Err(e) => {
            *place = [e.line, e.column];
            let refusal = e.refusal;
            return Refused { refusal, place: 0 }.packed();
        }
    };
    *place = [0, 0];
    match write_config(read, config) {
        // usize has no From into u64.
        Ok(length) => length as u64,
        Err(e) => e.packed(),
    }
}
