// Sets of participants (01: boxes) as masks: bit p - 1 is participant p.
ghost use Rattle.std.specs.Prelude.{◌≡◌, length};
ghost use Rattle.codec.specs.Sets as sets;

use crate::message::Parts;

// Whether a participant is a member.
#[tactic(auto, using(crate::specs::Laws::Members::member_bit, crate::specs::Laws::Members::no_member, std::proofs::lemmas::Bool::Decides::nat_tests))]
pub fn member(participant: u8, mask: u8) -> bool
    ensures { result ≡ sets.member participant mask }
{
    match participant {
        1..=Parts::LAST_PARTICIPANT => (mask >> (participant - 1)) % 2 == 1,
        _ => false,
    }
}

// The set of one participant; empty for what is none.
#[tactic(auto, using(crate::specs::Laws::Members::only_made, std::proofs::lemmas::Bool::Decides::nat_tests))]
pub fn only(participant: u8) -> u8
    ensures { result ≡ sets.only participant }
{
    match participant {
        1..=Parts::LAST_PARTICIPANT => 1 << (participant - 1),
        _ => 0,
    }
}

// The members but one.
#[tactic(auto, using(crate::proofs::Rules::sets))]
pub fn without(participant: u8, mask: u8) -> u8
    ensures { result ≡ sets.without participant mask }
{
    minus(mask, only(participant))
}

// The members of both.
#[tactic(auto, using(crate::specs::Laws::Masks::both_and))]
pub fn both(a: u8, b: u8) -> u8
    ensures { result ≡ sets.both a b }
{
    a & b
}

// The members of `a` that are not in `b`.
#[tactic(auto, using(crate::specs::Laws::Masks::minus_and))]
pub fn minus(a: u8, b: u8) -> u8
    ensures { result ≡ sets.minus a b }
{
    a & !b
}

// Whether `a` is a part of `b`.
#[tactic(auto, using(crate::specs::Laws::Masks::both_and), unfolding(crate::specs::Sets::part))]
pub fn part(a: u8, b: u8) -> bool
    ensures { result ≡ sets.part a b }
{
    a & b == a
}

// The members of `a` or `b`.
#[tactic(auto, using(crate::specs::Laws::Masks::either_or))]
pub fn either(a: u8, b: u8) -> u8
    ensures { result ≡ sets.either a b }
{
    a | b
}

// How many members there are.
#[tactic(auto, using(crate::proofs::Rules::sets))]
pub fn size(mask: u8) -> u8
    ensures { result ≡ length (sets.listed mask) }
{
    mask.count_ones() as u8
}
