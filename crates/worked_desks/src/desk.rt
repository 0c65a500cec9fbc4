// A desk in memory, with one draft.
use office_connections::MayShut;
use office_messages::{Machine, Reply, Request, Status, fixed_reply};
use std::alloc::Global;

/// A desk that has draft 1 until it is dropped, and shuts after some replies.
#[derive(Drop)]
pub(crate) struct SmallDesk {
    /// Whether the draft exists.
    pub(crate) is_there: bool,
    /// How many replies it still makes.
    pub(crate) left: u32,
}

impl Machine for SmallDesk {
    ghost use Rattle.std.specs.Prelude.{⊤};

    ghost Answers = { λ old request reply new. ⊤ };

    fn answer(&mut self, _alloc: Global, request: &Request<'_>) -> Reply {
        self.left = self.left.saturating_sub(1);
        if request.method == "DELETE" {
            self.is_there = false;
            fixed_reply(Status::Done, b"{\"draft\":1}")
        } else if request.target == "/me" {
            fixed_reply(
                Status::Done,
                b"{\"candidate\":1,\"exams\":[],\"penalty\":0}",
            )
        } else if self.is_there {
            fixed_reply(Status::Done, b"{\"draft\":1,\"exams\":[],\"penalty\":0}")
        } else {
            fixed_reply(Status::NotFound, b"{\"error\":\"draft\"}")
        }
    }
}

impl MayShut for SmallDesk {
    ghost use Rattle.std.specs.Prelude.{nat_eq};

    ghost is_shut = { λ m. nat_eq m.left 0 };

    fn is_shut(&self) -> bool {
        self.left == 0
    }
}
