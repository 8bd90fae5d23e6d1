// Sets of record kinds: bit k is kind k.
ghost use Rattle.std.specs.Prelude.{◌≡◌};
ghost use Rattle.site.specs.Answers.{has_kind};

// The last kind that a set has room for.
const LAST: u8 = 15;

#[tactic(auto, using(crate::proofs::Phased::no_kind), unfolding(crate::specs::Answers::has_kind))]
pub fn has(records: u16, kind: u8) -> bool
    ensures { result ≡ has_kind records kind }
{
    if LAST < kind {
        return false;
    }
    (records >> kind) % 2 == 1
}
