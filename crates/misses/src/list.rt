// The misses of a trace: how many there are, and the first 64 of them, which are listed.
ghost use Rattle.std.specs.Prelude.{◌≡◌, ◌+◌, ◌<◌, ◌^◌, [], ◌∷◌, length, IfErr};
ghost use Rattle.number.specs.Output.{written};
ghost use Rattle.kernel.specs.Ends.{as_result};
ghost use Rattle.deadlines.specs.Report.{first_misses, miss_bytes};
ghost use Rattle.deadlines.specs.Result.{count_of};
ghost use Rattle.misses.specs.Noted.{miss_of, Noted, ForNoted, NotesMore};

use number::{Refusal, Refused};

const MOST_LISTED: usize = 64;

// The bytes of a miss in a list.
const MISS_BYTES: usize = 3;

// The number of the Tick, from 1 on, and the body.
#[derive(Clone, Copy)]
pub struct Miss {
    pub tick: u16,
    pub body: u8,
}

impl Miss {
    // The Tick's number, low byte first, and the body.
    fn bytes(self) -> [u8; MISS_BYTES]
        ensures { result ≡ miss_bytes (miss_of self ∷ []) }
    {
        let [low, high] = self.tick.to_le_bytes();
        [low, high, self.body]
    }
}

// Of those listed the bytes are kept, a row for each miss.
#[derive(Clone, Copy)]
pub struct Misses {
    pub count: usize,
    pub listed: [[u8; MISS_BYTES]; MOST_LISTED],
}

impl Misses {
    pub fn none() -> Misses
        ensures { Noted result [] }
    {
        Misses {
            count: 0,
            listed: [[0; MISS_BYTES]; MOST_LISTED],
        }
    }

    // Counts a miss, and lists it where there is a place for it.
    pub fn note(&mut self, miss: Miss)
        requires { self.old.count + 1 < 2 ^ 64 }
        ensures counted { self.new.count ≡ self.old.count + 1 }
        ensures noted { NotesMore self.old self.new (miss_of miss ∷ []) }
    {
        if self.count < MOST_LISTED {
            self.listed[self.count] = miss.bytes();
        }
        self.count += 1;
    }

    // Writes the misses that are listed, and gives the count of all; or a refusal with the bytes needed.
    pub fn write(&self, list: &mut [u8]) -> Result<usize, Refused>
        ensures value { ForNoted self.now (λ ms. as_result result ≡ count_of (length list.old) ms) }
        ensures list_after { ForNoted self.now (λ ms. list.new ≡ written (miss_bytes (first_misses ms)) list.old) }
        ensures place { IfErr result (λ refused. refused.place < 2 ^ 63) }
    {
        let need = MISS_BYTES * self.count.min(MOST_LISTED);
        if list.len() < need {
            return Err(Refused {
                refusal: Refusal::NoRoom,
                place: need,
            });
        }
        list[..need].copy_from_slice(&self.listed.as_flattened()[..need]);
        Ok(self.count)
    }
}
