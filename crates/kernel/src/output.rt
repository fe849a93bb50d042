// The run's output: four bytes an event, two bytes a body.
ghost use Rattle.std.specs.Prelude.{◌≡◌, cond, [], ◌∷◌, map, ◌+◌, ◌*◌, ◌/◌, ◌%◌, ◌≤◌, ltb, length, get_or, take};
ghost use Rattle.number.specs.Output.{laid};
ghost use Rattle.scheduler.specs.Scheduler.{mark_of};
ghost use Rattle.machine.specs.Model.{no_rank};
ghost use Rattle.run.specs.Run.{loss_bytes};

use cells::NO_RANK;

// The number of the body that runs; `body` has the bodies by rank.
pub fn runner(body: &[u8; 32], rank: u8) -> u8
    ensures { result ≡ cond (ltb rank 32) (get_or body.now rank 0) no_rank }
{
    body.get(rank as usize).copied().unwrap_or(NO_RANK)
}

// Writes the answer of an event, whose bytes meet in this one call: a struct of them would be no plainer. By four stores,
// since a slice of the four takes 13 instructions an event more (docs/PERFORMANCE.md, "What was tried").
pub fn put_answer(status: u8, runner: u8, level: u8, begun: bool, at: usize, out: &mut [u8])
    requires { at + 4 ≤ length out.old }
    ensures { out.new ≡ laid at (status ∷ runner ∷ level ∷ mark_of begun ∷ []) out.old }
{
    out[at] = status;
    out[at + 1] = runner;
    out[at + 2] = level;
    out[at + 3] = begun as u8;
}

// Writes the losses of the first `bodies` bodies, which stand in `losses` by rank; `ranks` are those of the bodies.
pub fn put_losses(losses: &[u16; 32], ranks: &[u8; 32], bodies: usize, at: usize, out: &mut [u8])
    requires { (bodies ≤ 32) × (bodies ≤ length ranks.now) × (at + 2 * bodies ≤ length out.old) }
    ensures { out.new
        ≡ laid at (loss_bytes (map (λ r. get_or losses.now r 0) (take bodies ranks.now)))
        out.old }
{
    for (b, &rank) in ranks[..bodies].iter().enumerate() {
        let loss = losses.get(rank as usize).copied().unwrap_or(0);
        put_loss(loss, at + 2 * b, out);
    }
}

// Writes two bytes, the low one first.
fn put_loss(n: u16, at: usize, out: &mut [u8])
    requires { at + 2 ≤ length out.old }
    ensures { out.new ≡ laid at (n % 256 ∷ n / 256 ∷ []) out.old }
{
    out[at..at + 2].copy_from_slice(&n.to_le_bytes());
}
