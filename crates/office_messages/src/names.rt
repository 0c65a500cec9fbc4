//! Names, and lists of names between commas.
ghost use Rattle.std.specs.Prelude.{◌≡◌, reverse};
ghost use Rattle.std.specs.Iterator.{YieldsFirstRef, item_count};
ghost use Rattle.httparse.specs.Grammar.{skip_ows, trim_ows};
ghost use Rattle.office_messages.specs.Names.{same_name, lists, names_of, names_left};

use httparse::is_space_or_tab;

/// Returns whether two names are equal, in any ASCII case.
#[tactic(auto, unfolding(crate::specs::Names::same_name))]
pub(crate) fn is_same_name(a: &[u8], b: &[u8]) -> bool
    ensures { result ≡ same_name a.now b.now }
{
    a.eq_ignore_ascii_case(b)
}

/// Returns whether the name is among those between the commas, in any ASCII case.
pub(crate) fn lists(value: &[u8], name: &[u8]) -> bool
    ensures { result ≡ lists name.now value.now }
{
    Names::of(value).any(|listed| is_same_name(listed, name))
}

// The names between the commas, without the blanks around each.
#[derive(Drop)]
struct Names<'a> {
    rest: Option<&'a [u8]>,
}

impl<'a> Names<'a> {
    fn of(value: &'a [u8]) -> Names<'a>
        ensures { names_left result ≡ names_of value.now }
    {
        Names { rest: Some(value) }
    }
}

impl<'a> Iterator for Names<'a> {
    type Item = &'a [u8];

    ghost next_gives = { YieldsFirstRef names_left };

    ghost remaining = { item_count names_left };

    fn next(&mut self) -> Option<&'a [u8]> {
        let rest = self.rest?;
        match rest.iter().position(|b| *b == b',') {
            Some(comma) => {
                self.rest = Some(&rest[comma + 1..]);
                Some(trimmed_name(&rest[..comma]))
            }
            None => {
                self.rest = None;
                Some(trimmed_name(rest))
            }
        }
    }
}

#[tactic(auto, unfolding(httparse::specs::Grammar::trim_ows))]
fn trimmed_name(text: &[u8]) -> &[u8]
    ensures { result.now ≡ trim_ows text.now }
{
    trimmed_end(trimmed_start(text))
}

fn trimmed_end(mut text: &[u8]) -> &[u8]
    ensures { result.now ≡ reverse (skip_ows (reverse text.now)) }
{
    while let [rest @ .., last] = text
        && is_space_or_tab(*last)
    {
        text = rest;
    }
    text
}

fn trimmed_start(mut text: &[u8]) -> &[u8]
    ensures { result.now ≡ skip_ows text.now }
{
    while let [first, rest @ ..] = text
        && is_space_or_tab(*first)
    {
        text = rest;
    }
    text
}
