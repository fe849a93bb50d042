// `osek_misses` for C, as include/osek.h declares it: the function of crate misses, with the same contract. The C interface
// needs it written out: an archive exports the functions of its own crate alone.
#![tactic(auto)]

ghost use Rattle.std.specs.Prelude.{◌≡◌, length};
ghost use Rattle.deadlines.specs.Result.{misses_result, misses_output};

#[unsafe(no_mangle)]
pub extern "C" fn osek_misses(config: &[u8], trace: &[u8], list: &mut [u8]) -> u64
    ensures result { result
        ≡ misses_result config.now trace.now (length list.old) }
    ensures output { list.new
        ≡ misses_output config.now trace.now list.old }
{
    misses::osek_misses(config, trace, list)
}
