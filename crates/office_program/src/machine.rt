// The machine that a run is on.
ghost use Rattle.office_program.specs.World.{World};

use crate::databases::Databases;
use crate::lines::Lines;
use crate::readers::TextReader;
use crate::surroundings::Surroundings;
use crate::texts::Texts;
use office_connections::Ports;
use sqlite::{Alter, Connection};
use std::io::Write;
use std::time::Clock;

/// The types of a machine's parts.
pub trait Kinds {
    /// What lies around a run, with a clock.
    type Host: Surroundings + Clock;

    /// The store of a database.
    type Store: Alter;

    /// The files by their paths.
    type Files: Texts;

    /// The databases by their paths.
    type Bases: Databases<Opened = Connection<Self::Store>> + Drop;

    /// The ports by their numbers.
    type Net: Ports + Drop;

    /// Standard input.
    type Stdin: TextReader + Drop;

    /// The writer of everything but faults.
    type Out: Write + Drop;

    /// The writer of faults.
    type Err: Write + Lines + Drop;
}

/// The machine that a run is on, part by part.
#[derive(Drop)]
pub struct Machine<'a, K: Kinds> {
    pub host: &'a K::Host,
    pub files: &'a K::Files,
    pub databases: K::Bases,
    pub ports: K::Net,
    pub stdin: K::Stdin,
    pub out: K::Out,
    pub err: K::Err,
}

/// What a machine is known to be, for clauses only.
pub trait Worldly {
    /// The connection to a database.
    type Opened;

    /// The ports.
    type Ports;

    /// The writer of faults.
    type Errors;

    // What is known of the machine.
    ghost world: { Self → World Self.Opened Self.Ports Self.Errors };
}

impl<K: Kinds> Worldly for Machine<'_, K> {
    type Opened = Connection<K::Store>;

    type Ports = K::Net;

    type Errors = K::Err;

    ghost world = { λ machine. record {
      files = K.Files.known machine.files.now;
      stdin = K.Stdin.remaining machine.stdin;
      databases = K.Bases.known machine.databases;
      ports = machine.ports;
      printed = K.Out.contents machine.out;
      errors = machine.err;
    } };
}
