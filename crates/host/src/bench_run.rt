// The bench run for a host: the file's text to a buffer that the host lends.
ghost use Rattle.std.specs.Prelude.{◌≡◌};
ghost use Rattle.host.specs.BenchRun.{host_listing, bench_run_outcome};

use crate::host_calls::answer;

// The count is the text's length.
#[tactic(auto, unfolding(crate::specs::BenchRun::host_listing))]
#[unsafe(no_mangle)]
pub extern "C" fn pf_listing(file: &[u8], memory: &mut [u8], text: &mut [u8]) -> u32
    ensures { bench_run_outcome result memory.new text.new ≡ host_listing file.now memory.old text.old }
{
    match listing::listing(file, memory, text) {
        Ok(length) => answer(Ok(length as u16)),
        Err(refusal) => answer(Err(refusal)),
    }
}
