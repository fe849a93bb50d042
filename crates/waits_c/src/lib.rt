// `osek_wait` for C, as include/osek.h declares it: the function of crate waits, with the same contract. The C interface
// needs it written out: an archive exports the functions of its own crate alone.
#![tactic(auto)]

ghost use Rattle.std.specs.Prelude.{◌≡◌};
ghost use Rattle.waiting.specs.Result.{wait_result};

#[unsafe(no_mangle)]
pub extern "C" fn osek_wait(config: &[u8], trace: &[u8], body: u32) -> u64
    ensures { result ≡ wait_result config.now trace.now body }
{
    waits::osek_wait(config, trace, body)
}
