// Answers compared with the recorded ones, and what is counted on the way.
ghost use Rattle.std.specs.Prelude.{◌≡◌, ◌≤◌, Bool, ℤ, min, length, take, drop};
ghost use Rattle.sets.specs.Members.{member_limit};
ghost use Rattle.lists.specs.Signed.{eq_z};
ghost use Rattle.replay.specs.Recorded.{read_list};
ghost use Rattle.replay.specs.Compared.{compared};
ghost use Rattle.replay.specs.Differing.{eq_n, differing};
ghost use Rattle.replay.specs.Counts.{after_numbers, after_scene};
ghost use Rattle.replay.specs.Names.{name_of, names_below, flags_below, Written};

use super::input::{read_list, refill};
use lists::{CONNECTIONS, PORT};
use sets::{ComponentSet, MEMBERS};
use std::array;
use tables::SPAN;

// Where the next list stands in the text, how many scenes were read, how many recorded numbers were compared, and how many differ.
#[derive(Clone, Copy)]
pub struct Tally {
    pub at: usize,
    pub scenes: u64,
    pub compared: u64,
    pub different: u64,
}

impl Tally {
    // So many recorded numbers more, up to a place, of which some differ.
    pub fn counted(self, at: usize, numbers: usize, different: usize) -> Tally
        ensures { result ≡ after_numbers self at numbers different }
    {
        Tally {
            at,
            scenes: self.scenes,
            compared: self.compared.saturating_add(numbers as u64),
            different: self.different.saturating_add(different as u64),
        }
    }

    // One scene more.
    pub fn with_scene(self) -> Tally
        ensures { result ≡ after_scene self }
    {
        Tally {
            at: self.at,
            scenes: self.scenes.saturating_add(1),
            compared: self.compared,
            different: self.different,
        }
    }
}

// A number that is answered, held to the recorded one.
pub trait Answered: Copy {
    ghost same: { ℤ → Self → Bool };

    // Whether it is the recorded number.
    fn is_recorded(self, recorded: i64) -> bool
        ensures { result ≡ same recorded self };
}

impl Answered for u64 {
    ghost same = { eq_n };

    fn is_recorded(self, recorded: i64) -> bool {
        0 <= recorded && recorded as u64 == self
    }
}

impl Answered for i64 {
    ghost same = { eq_z };

    fn is_recorded(self, recorded: i64) -> bool {
        recorded == self
    }
}

// In how many places a recorded list and an answer differ.
fn differences<T: Answered>(recorded: &[i64], answered: &[T]) -> usize
    ensures { result ≡ differing T.same recorded.now answered.now }
{
    let mut count: usize = 0;
    for (number, answer) in recorded.iter().zip(answered) {
        count += usize::from(!answer.is_recorded(*number));
    }
    count + recorded.len().abs_diff(answered.len())
}

// The id of a member by the table of ids; a number that is in no table stands for itself.
fn name_of(keys: &[u64], member: usize) -> u64
    ensures { result ≡ name_of keys.now member }
{
    match keys.get(member) {
        Some(key) => *key / SPAN,
        None => member as u64,
    }
}

// Writes the names of a set's members, rising, and answers how many there are.
fn list_names(keys: &[u64], set: ComponentSet, out: &mut [u64]) -> usize
    requires { member_limit ≤ length out.old }
    ensures { Written (names_below keys.now set.words member_limit) out.old out.new result }
{
    // Counted by hand: how many they are is the answer.
    let mut n: usize = 0;
    for m in set.members() {
        out[n] = name_of(keys, m);
        n += 1;
    }
    n
}

// 1 for each number that is in a set, and 0 for the others.
fn list_flags(set: ComponentSet) -> [u64; MEMBERS]
    ensures { result ≡ flags_below set.words member_limit }
{
    array::from_fn(|k| u64::from(set.contains(k)))
}

// No recorded list is longer: the liveness entry asks for so much room for sources; and of signed numbers, that of all port connections.
const LONGEST: usize = 4 * MEMBERS;

const LONGEST_SIGNED: usize = CONNECTIONS * PORT;

// As many bytes are before the program at a time; the recorded text from one refill to the next must be within them.
pub const TEXT: usize = 262144;

// The recorded text from the place of the last refill on, and what was counted before it.
#[derive(Drop)]
pub struct Replay {
    pub text: [u8; TEXT],
    pub tally: Tally,
}

impl Replay {
    // Reads the list of a word into the lent one, and compares an answer with it.
    fn hold<T: Answered>(&mut self, word: &[u8], answered: &[T], recorded: &mut [i64])
        ensures tally { self.new.tally ≡ compared T.same (length recorded.old) (length self.old.text)
            (read_list word.now (drop self.old.tally.at self.old.text)) answered.now self.old.tally }
        ensures text { self.new.text ≡ self.old.text }
    {
        let tally = self.tally;
        match read_list(&self.text, tally.at, word, recorded) {
            Some((n, next)) => {
                self.tally = tally.counted(next, n, differences(&recorded[..n], answered));
            }
            None => {
                self.tally = tally.counted(TEXT, 0, 1);
            }
        }
    }

    // Reads the list of a word, and compares an answer with it. Not one with `compare_signed`: each call would name the number and the
    // room.
    pub fn compare(&mut self, word: &[u8], answered: &[u64])
        ensures tally { self.new.tally ≡ compared eq_n 4096 (length self.old.text)
            (read_list word.now (drop self.old.tally.at self.old.text)) answered.now self.old.tally }
        ensures text { self.new.text ≡ self.old.text }
    {
        let mut recorded = [0; LONGEST];
        self.hold(word, answered, &mut recorded);
    }

    // The same of an answer of signed numbers.
    pub fn compare_signed(&mut self, word: &[u8], answered: &[i64])
        ensures tally { self.new.tally ≡ compared eq_z 20480 (length self.old.text)
            (read_list word.now (drop self.old.tally.at self.old.text)) answered.now self.old.tally }
        ensures text { self.new.text ≡ self.old.text }
    {
        let mut recorded = [0; LONGEST_SIGNED];
        self.hold(word, answered, &mut recorded);
    }

    // Compares the list of a word with a set of members, by the table of ids, or with a set of numbers, by an empty table.
    pub fn compare_set(&mut self, word: &[u8], keys: &[u64], set: ComponentSet)
        ensures tally { self.new.tally ≡ compared eq_n 4096 (length self.old.text)
            (read_list word.now (drop self.old.tally.at self.old.text)) (names_below keys.now set.words member_limit) self.old.tally }
        ensures text { self.new.text ≡ self.old.text }
    {
        let mut names = [0u64; MEMBERS];
        let n = list_names(keys, set, &mut names);
        self.compare(word, &names[..n]);
    }

    // Compares the list of a word with the flags of a set of numbers below a count: a set has no length.
    pub fn compare_flags(&mut self, word: &[u8], set: ComponentSet, count: usize)
        ensures tally { self.new.tally ≡ compared eq_n 4096 (length self.old.text)
            (read_list word.now (drop self.old.tally.at self.old.text))
            (take (min count member_limit) (flags_below set.words member_limit)) self.old.tally }
        ensures text { self.new.text ≡ self.old.text }
    {
        let flags = list_flags(set);
        self.compare(word, &flags[..count.min(MEMBERS)]);
    }

    // A refusal is a difference: every recorded scene was accepted.
    pub(crate) fn refuse(&mut self) {
        self.tally = self.tally.counted(self.tally.at, 0, 1);
    }

    // Reads a list that a scene gives to the front of `out`, and answers how many numbers it has. Where there is none, that is a difference
    // and the list is empty.
    pub(crate) fn read_given(&mut self, word: &[u8], out: &mut [i64]) -> usize
        ensures { result ≤ length out.old }
    {
        let tally = self.tally;
        match read_list(&self.text, tally.at, word, out) {
            Some((count, next)) => {
                self.tally = tally.counted(next, 0, 0);
                count
            }
            None => {
                self.tally = tally.counted(TEXT, 0, 1);
                0
            }
        }
    }

    // The text from the tally's place on comes to the front, with more behind it.
    pub(crate) fn go_on(&mut self) {
        refill(&mut self.text, self.tally.at);
        self.tally = self.tally.counted(0, 0, 0);
    }
}
