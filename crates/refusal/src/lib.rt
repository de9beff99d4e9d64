// What refuses a call: document 01's table, a variant for each row.
#![tactic(auto)]

ghost use Rattle.std.specs.Prelude.{◌≡◌};
ghost use Rattle.refusal.specs.Refused.{number_of};

#[derive(Clone, Copy, Debug, PartialEq, Eq)]
pub enum Refusal {
    // 1: a sheet under 16, over 65,536 bytes, or not 16·(1 + count)
    Length,
    // 2: a version that is not 1
    Version,
    // 3: an index above the count, a wrong kind in a chain, a record met twice or never
    Chains,
    // 4: a kind, a text count, a flag bit or a byte that a record does not have
    Bytes,
    // 5: more states, arrows, lines or line bytes than the limits allow
    Limits,
    // 6: a line that is not well-formed UTF-8
    Utf8,
    // 7: a lent output shorter than the answer
    Room,
    // 8: a finite x or y of a state's centre beyond 2^20 in size
    Centre,
    // 9: a two-way pair whose first free bow exceeds 10^9
    Bow,
    // 10: a finite number of size 10^13 or more to be written
    Number,
    // 11: a layout kind that is not 0, 1 or 2
    Kind,
}

impl From<Refusal> for u8 {
    ghost from_gives = { λ refusal n. n ≡ number_of refusal };

    fn from(refusal: Refusal) -> u8 {
        match refusal {
            Refusal::Length => 1,
            Refusal::Version => 2,
            Refusal::Chains => 3,
            Refusal::Bytes => 4,
            Refusal::Limits => 5,
            Refusal::Utf8 => 6,
            Refusal::Room => 7,
            Refusal::Centre => 8,
            Refusal::Bow => 9,
            Refusal::Number => 10,
            Refusal::Kind => 11,
        }
    }
}
