// The machine of the system.
use crate::databases::SystemDatabases;
use crate::machine::{Kinds, Machine};
use sqlite::{File, FileStore};
use std::io::{Stderr, Stdin, Stdout};
use std::marker::PhantomData;

/// The types of the system's parts, of which no clause says what they hold.
pub struct System<'a> {
    of: PhantomData<&'a HostRuntime>,
}

impl<'a> Kinds for System<'a> {
    type Host = HostRuntime;

    type Store = FileStore<File>;

    type Files = HostRuntime;

    type Bases = SystemDatabases<'a>;

    type Net = &'a HostRuntime;

    type Stdin = Stdin;

    type Out = Stdout;

    type Err = Stderr;
}

/// Returns the machine of the system.
pub fn system_machine(rt: &HostRuntime) -> Machine<'_, System<'_>> {
    Machine {
        host: rt,
        files: rt,
        databases: SystemDatabases { rt },
        ports: rt,
        stdin: rt.stdin(),
        out: rt.stdout(),
        err: rt.stderr(),
    }
}
