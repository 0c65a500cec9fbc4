//! The two forms of a reply.
ghost use Rattle.std.specs.Prelude.{◌≡◌};
ghost use Rattle.office_messages.specs.Form.{form_of};

use http::Method;

/// How much of a reply is written.
#[derive(Clone, Copy)]
pub enum Form {
    /// The whole reply.
    Full,
    /// For HEAD: the status line, then Allow if the reply has one, then an empty line.
    Bare,
}

impl Form {
    /// Returns the form of the reply to a method; the case of its letters matters.
    pub fn of(method: &[u8]) -> Form
        ensures { result ≡ form_of method.now }
    {
        let is_head = method == Method::HEAD.as_str().as_bytes();
        if is_head { Form::Bare } else { Form::Full }
    }
}
