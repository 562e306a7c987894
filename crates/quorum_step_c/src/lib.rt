// The archive for a club's own server, libquorum_step.a: the export calls the function of `quorum_step`, and promises what it promises.
// An archive exports functions of its own, and nothing else is in it.
#![tactic(auto)]

ghost use Rattle.std.specs.Prelude.{◌≡◌};
ghost use Rattle.step_calls.specs.StepCalls.{step_call};

// One site's step.
#[unsafe(no_mangle)]
pub extern "C" fn qc_step(
    terms: &[u8],
    site: &mut [u8],
    command: &[u8],
    row: &mut [u8],
    res: &mut [u8],
) -> u32
    ensures value { result ≡ (step_call terms.now site.old command.now row.old res.old).number }
    ensures site_after { site.new ≡ (step_call terms.now site.old command.now row.old res.old).site }
    ensures row_after { row.new ≡ (step_call terms.now site.old command.now row.old res.old).row }
    ensures res_after { res.new ≡ (step_call terms.now site.old command.now row.old res.old).result }
{
    quorum_step::qc_step(terms, site, command, row, res)
}
