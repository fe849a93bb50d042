// The functions that C calls, as include/osek.h declares them, each from the crate that proves it. Crate osek_c exports
// them, so that an archive is built from the proved crates below it and none of them is proved again. `osek_wait` and
// `osek_misses` are those of crates waits and misses, which waits_c and misses_c export.
#![tactic(auto)]

pub use draw::osek_draw;
pub use kernel::osek_run;
pub use oil::osek_oil;
pub use salvage::osek_salvage;
pub use verdict::osek_verdict;
