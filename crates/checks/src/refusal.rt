// What refuses a call that changes the table.
ghost use Rattle.std.specs.Prelude.{◌≡◌};
ghost use Rattle.checks.specs.Refused.{refusal_number};

// The refusals of an add, in the order of their checks, and those of a redeclare and of a take-back.
#[derive(Clone, Copy)]
pub enum Refusal {
    NoForm,
    NotNext,
    ListFull,
    TypeUndeclared,
    ParameterUndeclared,
    ChildNotBelow,
    ChildUsed,
    ParameterBound,
    NoTermRow,
    CodeTooHigh,
}

// The number that document 01 gives to each.
impl From<Refusal> for u16 {
    ghost from_gives = { λ refusal number. number ≡ refusal_number refusal };

    fn from(refusal: Refusal) -> u16 {
        match refusal {
            Refusal::NoForm => 1,
            Refusal::NotNext => 2,
            Refusal::ListFull => 3,
            Refusal::TypeUndeclared => 4,
            Refusal::ParameterUndeclared => 5,
            Refusal::ChildNotBelow => 6,
            Refusal::ChildUsed => 7,
            Refusal::ParameterBound => 8,
            Refusal::NoTermRow => 9,
            Refusal::CodeTooHigh => 12,
        }
    }
}
