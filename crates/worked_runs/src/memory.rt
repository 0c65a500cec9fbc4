// The kinds of a machine in memory.
use crate::desktop::Desktop;
use crate::screen::Screen;
use crate::visitors::OnePort;
use office_program::{Folder, Kinds, Shelf};
use sqlite::MemStore;
use std::marker::PhantomData;

/// The kinds of a machine in memory, whose host may live for a shorter time than its other parts.
pub(crate) struct Memory<'h, 'a> {
    host: PhantomData<&'h u8>,
    of: PhantomData<&'a u8>,
}

impl<'h, 'a> Kinds for Memory<'h, 'a> {
    type Host = Desktop<'h>;

    type Store = MemStore;

    type Files = Folder<'a>;

    type Bases = Shelf<'a>;

    type Net = OnePort<'a>;

    type Stdin = &'a [u8];

    type Out = Vec<u8>;

    type Err = Screen;
}
