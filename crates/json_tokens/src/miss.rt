ghost use Rattle.std.specs.Prelude.{◌≡◌};
ghost use Rattle.json_tokens.specs.declared.miss.Miss.TheVariants.{Other, Memory};

use json::Invalid;
use json_parts::OtherForm;
use std::alloc::{AllocError, AllocFailed};

/// Why a text was not read token by token.
#[derive(Clone, Copy, Debug, PartialEq, Eq)]
pub enum Miss {
    /// The text is no JSON, or of another form.
    Other,
    /// An allocation was refused.
    Memory,
}

impl From<OtherForm> for Miss {
    ghost from_gives = { λ _ e. e ≡ Other };

    fn from(_e: OtherForm) -> Miss {
        Miss::Other
    }
}

impl From<Invalid> for Miss {
    ghost from_gives = { λ _ e. e ≡ Other };

    fn from(_e: Invalid) -> Miss {
        Miss::Other
    }
}

impl From<AllocError> for Miss {
    ghost from_gives = { λ _ e. e ≡ Memory };

    fn from(_e: AllocError) -> Miss {
        Miss::Memory
    }
}

impl<T: Drop> From<AllocFailed<T>> for Miss {
    ghost from_gives = { λ _ e. e ≡ Memory };

    fn from(_e: AllocFailed<T>) -> Miss {
        Miss::Memory
    }
}
