ghost use Rattle.std.specs.Prelude.{◌≡◌};
ghost use Rattle.nb_scripts.specs.Results.{kept_result};

use nb_terms::{Cause, Plain};

/// A result as a script keeps it: a success has no numbers.
pub fn kept_result(cause: Cause) -> Cause
    ensures { result ≡ kept_result cause }
{
    if cause.code == 0 {
        Plain::Ok.cause()
    } else {
        cause
    }
}
