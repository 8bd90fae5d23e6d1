// What a step gives: a row, and the refusal in place of one.
use crate::effects::Effects;

// A row: what it does, and the state after it. That there is no row is not a row without effects: the joint run tells them apart.
#[derive(Clone, Copy)]
pub struct Row<S> {
    pub effects: Effects,
    pub after: S,
}

// The answer to what is never received, or not from there.
#[derive(Clone, Copy, PartialEq, Eq, Debug)]
pub struct Refused;
