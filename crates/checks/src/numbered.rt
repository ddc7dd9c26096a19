// Refusals whose number and list may be any, also such as no fault or list has.
ghost use Rattle.std.specs.Prelude.{◌≡◌};
ghost use Rattle.checks.specs.Numbered.{refuse_numbers, SmallNumbers, packed_numbers};

// A refusal in any numbers, also such as no fault or list has.
#[derive(Clone, Copy)]
pub struct RefusalNumbers {
    pub number: u64,
    pub list: u64,
    pub item: usize,
}

// A fault that was found is refused with its number and list.
pub fn refuse_numbers(number: u64, list: u64, found: Option<usize>) -> Result<(), RefusalNumbers>
    ensures { result ≡ refuse_numbers number list found }
{
    match found {
        Some(item) => Err(RefusalNumbers { number, list, item }),
        None => Ok(()),
    }
}

// An answer as one number: 0 where the checks accept, else the number, the list and the item, from the lowest digits on.
pub fn pack_numbers(checked: Result<(), RefusalNumbers>) -> u64
    requires { SmallNumbers checked }
    ensures { result ≡ packed_numbers checked }
{
    match checked {
        Ok(()) => 0,
        Err(refusal) => refusal.number + 256 * refusal.list + 65536 * refusal.item as u64,
    }
}
