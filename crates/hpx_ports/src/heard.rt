//! What a fabric in memory answered last: for proofs alone.
ghost use Rattle.std.specs.Prelude.{◌≡◌, Ok};
ghost use Rattle.hpx_ports.specs.Heard.{heard_of};

use crate::link::Latest;
use hpx_value::items::Bytes;
use http_server::Log;
use std::marker::Model;

/// What the last delivery answered. It takes no memory.
#[derive(Drop)]
pub struct Heard {
    answers: Log<bool, Option<(u32, Bytes)>>,
}

impl Model for Heard {
    ghost use Rattle.hpx_ports.specs.declared.link.Latest.{Latest};
    ghost use Rattle.hpx_ports.specs.Heard.{heard_in};

    ghost Value = { Latest };

    ghost view = { λ h. heard_in h.answers.items };
}

impl Heard {
    /// There was none yet.
    pub fn never() -> Heard
        ensures { result ≡ Latest.Never }
    {
        Heard {
            answers: Log::new(),
        }
    }

    /// This frame, or that there is none.
    pub fn of(got: &Option<(u32, Bytes)>) -> Heard
        ensures { result ≡ heard_of (Ok got.now) }
    {
        Heard {
            answers: Log::new().and(&false, got),
        }
    }

    /// A fault, or a want of memory.
    pub fn fault() -> Heard
        ensures { result ≡ Latest.Fault }
    {
        Heard {
            answers: Log::new().and(&true, &None),
        }
    }
}
