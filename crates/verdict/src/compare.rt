// A record beside the answers of a run, four bytes at a time.
ghost use Rattle.std.specs.Prelude.{◌≡◌, ◌+◌, ◌%◌, ◌≤◌, length};
ghost use Rattle.verdict.specs.Answers.{RightAnswers, word_at};

// The bytes of an answer.
const ANSWER: usize = 4;

// How many answers at the front of a record are those of a run.
pub fn right_answers(out: &[u8], recorded: &[u8]) -> usize
    requires recorded_in_bounds { length recorded.now ≤ length out.now }
    requires recorded_len { length recorded.now % 4 ≡ 0 }
    ensures { RightAnswers out.now recorded.now result }
{
    let answers = recorded.len() / ANSWER;
    for i in 0..answers {
        if word(out, ANSWER * i) != word(recorded, ANSWER * i) {
            return i;
        }
    }
    answers
}

// Four bytes as one number, which the compiler reads at once.
fn word(bytes: &[u8], at: usize) -> u32
    requires { at + 4 ≤ length bytes.now }
    ensures { result ≡ word_at bytes.now at }
{
    u32::from_le_bytes([bytes[at], bytes[at + 1], bytes[at + 2], bytes[at + 3]])
}
