// The call offered to C for a club's own server: one site's step. It is an archive of its own, so that a server links nothing else, and the other calls
// are compiled as if it were not there. docs/LAYOUT.md has the bytes; include/quorum.h says how to call.
// Its form is that of its declaration there: buffers with a result, an answer as a number.
#![tactic(auto)]

ghost use Rattle.std.specs.Prelude.{◌≡◌};
ghost use Rattle.step_calls.specs.StepCalls.{step_call};

// One site's step.
pub fn qc_step(terms: &[u8], site: &mut [u8], command: &[u8], row: &mut [u8], res: &mut [u8]) -> u32
    ensures value { result ≡ (step_call terms.now site.old command.now row.old res.old).number }
    ensures site_after { site.new ≡ (step_call terms.now site.old command.now row.old res.old).site }
    ensures row_after { row.new ≡ (step_call terms.now site.old command.now row.old res.old).row }
    ensures res_after { res.new ≡ (step_call terms.now site.old command.now row.old res.old).result }
{
    step_calls::step_call(terms, site, command, row, res)
}
