//! Why a session gives no further window.

use crate::wide::TooWide;
use feeds::FeedFault;
use std::alloc::AllocError;
use thiserror::Error;

#[derive(Clone, Copy, Debug, PartialEq, Eq, Error)]
pub enum WindowEnd {
    /// All ticks were given.
    #[error("finished")]
    Finished,
    /// The feeds of the next window are not to be had.
    #[error("no feeds")]
    Feed { fault: FeedFault },
    /// In the next window a band is wider than was asked, first at this place.
    #[error("too wide")]
    Wide { place: TooWide },
    #[error("want of memory")]
    NoMemory,
}

impl From<AllocError> for WindowEnd {
    ghost use Rattle.std.specs.Prelude.{◌≡◌};
    ghost use Rattle.window_accept.specs.declared.end.WindowEnd.TheVariants.{NoMemory};

    ghost from_gives = { λ _ end. end ≡ NoMemory };

    fn from(_error: AllocError) -> WindowEnd {
        WindowEnd::NoMemory
    }
}

impl From<FeedFault> for WindowEnd {
    ghost use Rattle.std.specs.Prelude.{◌≡◌};
    ghost use Rattle.window_accept.specs.Session.{end_by};

    ghost from_gives = { λ fault end. end ≡ end_by fault };

    fn from(fault: FeedFault) -> WindowEnd {
        match fault {
            FeedFault::NoMemory => WindowEnd::NoMemory,
            fault => WindowEnd::Feed { fault },
        }
    }
}
