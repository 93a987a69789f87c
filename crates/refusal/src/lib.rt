// What is refused: the rule that is broken, by its name and the paper's number, and the place where it is.

#![tactic(auto)]

ghost use Rattle.std.specs.Prelude.{◌≡◌};
ghost use Rattle.refusal.specs.Numbers.{rule_number};

// A rule of the paper, with its number. 14 to 16 are not given.
#[derive(Clone, Copy, Debug, PartialEq, Eq)]
pub enum Rule {
    Asked = 1,
    Sizes = 2,
    Offset = 3,
    LargeCode = 4,
    FallingCode = 5,
    ListRoom = 6,
    WorkRoom = 7,
    TrailRoom = 8,
    Form = 9,
    LargeNumber = 10,
    TablesRoom = 11,
    TextRoom = 12,
    ContextNumber = 13,
    ListedEntry = 17,
}

// Which rule is broken, and where.
#[derive(Clone, Copy, Debug, PartialEq, Eq)]
pub struct Refusal {
    pub rule: Rule,
    pub place: usize,
}

impl From<Rule> for u16 {
    ghost from_gives = { λ rule n. n ≡ rule_number rule };

    fn from(rule: Rule) -> u16 {
        rule as u16
    }
}

impl Refusal {
    // A rule that is broken at a place.
    pub fn at(rule: Rule, place: usize) -> Self
        ensures rule { result.rule ≡ rule }
        ensures place { result.place ≡ place }
    {
        Refusal { rule, place }
    }

    // The paper's number of the rule.
    pub fn number(self) -> u16
        ensures { result ≡ rule_number self.rule }
    {
        u16::from(self.rule)
    }
}
