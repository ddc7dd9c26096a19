// The rules number: by which year's rules a plot is marked. Each later number has what those before it have.
ghost use Rattle.std.specs.Prelude.{◌≡◌};
ghost use Rattle.lists.specs.Rules.{known_rules, lamps_pass, blanks_unread, rules_of};

// The greatest rules number.
pub const RULES: u64 = 3;

// An entry's number as one without a sign: there are no rules below 1.
pub fn rules_of(number: i64) -> u64
    ensures { result ≡ rules_of number }
{
    if number < 0 { 0 } else { number as u64 }
}

// Whether there are rules of the number.
pub fn known_rules(rules: u64) -> bool
    ensures { result ≡ known_rules rules }
{
    (1 <= rules) & (rules <= RULES)
}

// From rules 2 on a lamp hands nothing on to a wire.
pub fn lamps_pass(rules: u64) -> bool
    ensures { result ≡ lamps_pass rules }
{
    2 <= rules
}

// From rules 3 on a facing that was left blank is not taken as North.
pub fn blanks_unread(rules: u64) -> bool
    ensures { result ≡ blanks_unread rules }
{
    3 <= rules
}
