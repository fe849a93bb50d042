// The library that C links, as include/osek.h declares it: each function is that of crate osek, with its contract. The
// C interface needs them written out: an archive exports the functions of its own crate, and none that it passes on by
// `use`. `osek_wait` and `osek_misses` are in archives of their own, those of crates waits_c and misses_c.
#![tactic(auto)]

ghost use Rattle.std.specs.Prelude.{◌≡◌, length};
ghost use Rattle.run.specs.Run.{run_result, run_output};
ghost use Rattle.run.specs.Steps.{machine_output};
ghost use Rattle.oil_grammar.specs.Reader.{oil_result, oil_output, oil_place};
ghost use Rattle.drawing.specs.Answer.{draw_result, draw_output};
ghost use Rattle.salvage.specs.Salvage.{salvaged, events_after, stretches_after, result_of};
ghost use Rattle.conformance.specs.Verdict.{verdict_result};

#[unsafe(no_mangle)]
pub extern "C" fn osek_run(config: &[u8], trace: &[u8], out: &mut [u8]) -> u64
    ensures result { result ≡ run_result config.now trace.now (length out.old) }
    ensures output { out.new
        ≡ run_output config.now trace.now out.old }
    ensures steps { out.new
        ≡ machine_output config.now trace.now out.old }
{
    osek::osek_run(config, trace, out)
}

#[unsafe(no_mangle)]
pub extern "C" fn osek_salvage(trace: &[u8], events: &mut [u8], stretches: &mut [u8]) -> u64
    ensures result { result
        ≡ result_of (salvaged trace.now (length events.old) (length stretches.old)) }
    ensures events { events.new
        ≡ events_after trace.now events.old stretches.old }
    ensures stretches { stretches.new
        ≡ stretches_after trace.now events.old stretches.old }
{
    osek::osek_salvage(trace, events, stretches)
}

#[unsafe(no_mangle)]
pub extern "C" fn osek_oil(text: &[u8], config: &mut [u8], place: &mut [u64; 2]) -> u64
    ensures result { result ≡ oil_result text.now (length config.old) }
    ensures output { config.new ≡ oil_output text.now config.old }
    ensures place { place.new ≡ oil_place text.now }
{
    osek::osek_oil(text, config, place)
}

#[unsafe(no_mangle)]
pub extern "C" fn osek_draw(
    start: u32,
    weights: &[u16; 12],
    limits: &[u16; 4],
    count: u32,
    out: &mut [u8],
) -> u64
    ensures result { result
        ≡ draw_result start weights.now limits.now count (length out.old) }
    ensures output { out.new
        ≡ draw_output start weights.now limits.now count out.old }
{
    osek::osek_draw(start, weights, limits, count, out)
}

#[unsafe(no_mangle)]
pub extern "C" fn osek_verdict(config: &[u8], trace: &[u8], recorded: &[u8]) -> u64
    ensures { result
        ≡ verdict_result config.now trace.now recorded.now }
{
    osek::osek_verdict(config, trace, recorded)
}
