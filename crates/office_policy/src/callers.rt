// The callers.
ghost use Rattle.std.specs.Prelude.{◌≡◌, ◌≤◌, IfSome, option_copied};
ghost use Rattle.exam_terms.specs.Texts.{trimmed_text};
ghost use Rattle.exam_terms.specs.declared.limits.TheConstants.{MAX_NUMBER};
ghost use Rattle.office_policy.specs.Callers.{text_after_word, number_after_word, dept_in, candidate_in, caller_of};

use crate::numbers::read_number;
use exam_terms::{DeptNo, StudentNo, trimmed_text};

/// A caller, as named by the front in the header `X-Caller`.
#[derive(Clone, Copy, Debug, PartialEq, Eq)]
pub enum Caller {
    Office,
    Dept(DeptNo),
    Cand(StudentNo),
}

impl Caller {
    /// Returns the caller that the header's value names: `office`, `dept:N` with N from 1 to 999,
    /// or `cand:N`. Each N has 1 to 9 digits; spaces and tabs at the value's ends are ignored.
    pub fn read(value: &[u8]) -> Option<Caller>
        ensures { result ≡ caller_of (trimmed_text value.now) }
    {
        let name = trimmed_text(value);
        if name == b"office".as_slice() {
            return Some(Caller::Office);
        }
        match department(name) {
            Some(caller) => Some(caller),
            None => candidate(name),
        }
    }
}

// Returns the department with a name like `dept:3`.
fn department(name: &[u8]) -> Option<Caller>
    ensures { result ≡ dept_in name.now }
{
    let number = number_after_word(b"dept:", name)?;
    Some(Caller::Dept(DeptNo::new(number)?))
}

// Returns the candidate with a name like `cand:12`.
fn candidate(name: &[u8]) -> Option<Caller>
    ensures { result ≡ candidate_in name.now }
{
    let number = number_after_word(b"cand:", name)?;
    Some(Caller::Cand(StudentNo::new(number)?))
}

fn number_after_word(word: &[u8], name: &[u8]) -> Option<u32>
    ensures number { result ≡ number_after_word word.now name.now }
    ensures within { IfSome result (λ n. n ≤ MAX_NUMBER) }
{
    read_number(text_after_word(word, name)?)
}

// Returns the text after a word at the front.
fn text_after_word<'a>(word: &[u8], name: &'a [u8]) -> Option<&'a [u8]>
    ensures { option_copied result ≡ text_after_word word.now name.now }
{
    name.strip_prefix(word)
}
