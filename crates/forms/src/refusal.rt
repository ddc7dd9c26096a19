// The refusals of a sheet's lines.
ghost use Rattle.std.specs.Prelude.{◌≡◌};
ghost use Rattle.forms.specs.Sheet.{bad_line, over_limit, strange_rules, strange_form};

use lists::{Fault, Refusal, Section};

pub fn bad_line(line: usize) -> Refusal
    ensures { result ≡ bad_line line }
{
    Refusal {
        fault: Fault::BadLine,
        list: None,
        item: line,
    }
}

pub fn over_limit(section: Section, limit: usize) -> Refusal
    ensures { result ≡ over_limit section limit }
{
    Refusal {
        fault: Fault::ListLength,
        list: Some(section),
        item: limit,
    }
}

pub fn strange_rules(line: usize) -> Refusal
    ensures { result ≡ strange_rules line }
{
    Refusal {
        fault: Fault::UnknownRules,
        list: None,
        item: line,
    }
}

pub fn strange_form(line: usize) -> Refusal
    ensures { result ≡ strange_form line }
{
    Refusal {
        fault: Fault::UnknownForm,
        list: None,
        item: line,
    }
}
