//! A request.

/// A whole message without a fault of head or framing.
#[derive(Clone, Copy)]
pub struct Request<'a> {
    pub method: &'a str,
    /// The path, unchanged.
    pub target: &'a str,
    /// The value of `X-Caller`, if it is there exactly once.
    pub caller: Option<&'a [u8]>,
    pub body: &'a [u8],
}
