// For C (include/dpr.h): one site's step on numbers, which is site's call of the same name; it stands twice, since a
// crate is a library or a static library.

#![tactic(auto)]

ghost use Rattle.std.specs.Prelude.{◌≡◌};
ghost use Rattle.site.specs.Numbers as numbers;
ghost use Rattle.site.specs.Answers.{arguments_in};

// One site's step.
#[unsafe(no_mangle)]
pub extern "C" fn dpr_site_step(
    site: u8,
    kind: u8,
    transaction: u8,
    participant: u8,
    presumption: u8,
    phase: u8,
    waiting: u8,
    members: u8,
    presume_commit: u8,
    mark: u8,
    taken_out: u8,
) -> u64
    ensures { result ≡ numbers.packed (numbers.site_step (arguments_in site kind transaction participant presumption phase waiting members presume_commit mark taken_out)) }
{
    site::numbers::dpr_site_step(
        site,
        kind,
        transaction,
        participant,
        presumption,
        phase,
        waiting,
        members,
        presume_commit,
        mark,
        taken_out,
    )
}
