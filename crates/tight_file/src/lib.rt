// What a host in C or Rust links for theory files (host/tight.h). A library of its own: each then has one caller of the check, into which the compiler lays it.
#![tactic(auto)]

ghost use Rattle.std.specs.Prelude.{◌≡◌};
ghost use Rattle.run.specs.Run.{running, run_of};

// The run of a file.
#[unsafe(no_mangle)]
pub extern "C" fn tight_run(file: &[u8], out: &mut [u8]) -> usize
    ensures { running result out.new ≡ run_of file.now out.old }
{
    run::run(file, out)
}
