// Methods, and those that each page has.
ghost use Rattle.std.specs.Prelude.{◌≡◌, ◌≤◌, length};
ghost use Rattle.office_requests.specs.Methods.{verb_of, allow_of};

use crate::routes::Page;
use http::Method;

/// The kind of a method. The case matters: `get` is none of the four.
#[derive(Clone, Copy)]
pub(crate) enum Verb {
    Get,
    Put,
    Post,
    Delete,
    Other,
}

impl Verb {
    pub(crate) fn read(method: &str) -> Verb
        ensures { result ≡ verb_of method.now }
    {
        if method == Method::GET.as_str() {
            Verb::Get
        } else if method == Method::PUT.as_str() {
            Verb::Put
        } else if method == Method::POST.as_str() {
            Verb::Post
        } else if method == Method::DELETE.as_str() {
            Verb::Delete
        } else {
            Verb::Other
        }
    }
}

/// Returns the methods of a page, as in the header `Allow`.
pub fn allow(page: Page) -> &'static str
    ensures methods { result.now ≡ allow_of page }
    ensures short { length result.now ≤ 22 }
{
    match page {
        Page::Instance => "GET, PUT",
        Page::Draft => "GET, PUT, DELETE",
        Page::Owner | Page::Batch => "PUT",
        Page::Place | Page::Move | Page::Swap | Page::Publish => "POST",
        Page::Slot => "DELETE",
        _ => "GET",
    }
}
