//! The methods of a path.
ghost use Rattle.std.specs.Prelude.{◌≤◌, length};

/// The methods of a path, as in the header Allow: `GET, PUT, POST, DELETE` is the longest.
#[derive(Clone, Copy)]
pub struct Allow {
    pub methods: &'static str,
    ghost short: { length methods.now ≤ 22 },
}
