ghost use Rattle.std.specs.Prelude.{◌≡◌};
ghost use Rattle.flow_top.specs.Words.{files_in};

use crate::words::{Files, request_in};
use flow_edge::Word;

/// The words that name files, by their positions, where the words are a command.
pub fn files(words: &[Word]) -> Files
    ensures { result ≡ files_in words.now }
{
    match request_in(words) {
        Ok(request) => Files {
            extra: request.feeds,
            trace: request.journal,
        },
        Err(_) => Files {
            extra: None,
            trace: None,
        },
    }
}
